// Why serving ends.

/// Why serving ended.
#[derive(Clone, Copy, Debug, PartialEq, Eq)]
pub enum Ended {
    /// All turns were served.
    TurnsSpent,
    /// A call of the wire inside failed.
    InsideFault,
    /// A call of the wire outside failed.
    OutsideFault,
    /// No session could be accepted.
    DockFault,
    /// Memory ran out.
    NoMemory,
}
