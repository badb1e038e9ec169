// Why halves are gone.
/// Why a half is gone: its removal was ordered, or it reached a hard limit.
#[derive(Clone, Copy, Debug, PartialEq, Eq)]
pub enum GoneWhy {
    Removed,
    Hard,
}
