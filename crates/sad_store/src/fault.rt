// Why a half isn't installed.
use ikeless_tree::SadEntry;

/// Why an association isn't installed. It is handed back.
#[derive(Debug, Drop)]
pub enum InstallFault {
    /// A half has its name.
    NameTaken(SadEntry),
    /// It is inbound, and an inbound half has its SPI.
    SpiTaken(SadEntry),
    /// There are 4,096 halves.
    Full(SadEntry),
    NoMemory(SadEntry),
}
