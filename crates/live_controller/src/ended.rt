/// How a controller's call ends.
#[derive(Clone, Copy, Debug, PartialEq, Eq)]
pub enum Ended {
    /// All turns passed.
    TurnsSpent,
    /// An accept of the dock failed.
    DockFault,
    NoMemory,
}
