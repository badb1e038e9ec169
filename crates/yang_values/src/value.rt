/// Why a text isn't read as a value.
#[derive(Clone, Copy, Debug, PartialEq, Eq)]
pub enum BadValue {
    /// It isn't the spelling of such a value.
    Form,
    /// It is spelled as such a value, and is out of range.
    Range,
}
