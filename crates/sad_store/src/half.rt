// One half as it is kept.
use ikeless_tree::SadEntry;
use life_count::Life;
use replay_win::Window;

/// A half with what was counted of it since its installation.
///
/// `sent` is the last number sent, or 0, and `overflow` says whether an overflow of its numbers was told that stands.
#[derive(Debug, Drop)]
pub struct Half {
    pub entry: SadEntry,
    pub sent: u64,
    pub window: Window,
    pub life: Life,
    pub overflow: bool,
}
