/// What a window says of a number.
#[derive(Clone, Copy, Debug, PartialEq, Eq)]
pub enum Verdict {
    /// It may be taken.
    Fresh,
    /// It lies below the window.
    Old,
    /// It was marked before.
    Seen,
    /// It is 0, which no packet has.
    Zero,
}
