// What is said of a line.
use ikl_base::{LineFault, OrMemory};

fn word(fault: LineFault) -> &'static str {
    match fault {
        LineFault::Long => "long",
        LineFault::End => "end",
        LineFault::Octet => "octet",
        LineFault::Header => "header",
        LineFault::Word => "word",
        LineFault::Count => "count",
        LineFault::Gateway => "gateway",
        LineFault::Number => "number",
        LineFault::Hex => "hex",
        LineFault::Prefix => "prefix",
        LineFault::Limits => "limits",
        LineFault::Entry => "entry",
        LineFault::Mode => "mode",
    }
}

/// Why a line wasn't read.
pub fn why(refused: OrMemory<LineFault>) -> &'static str {
    match refused {
        OrMemory::Refused(fault) => word(fault),
        OrMemory::NoMemory => "no memory",
    }
}

/// A line and what is to be said of it: `ok` where the row has the line alone.
pub fn row(line: &str) -> (&str, &str) {
    line.split_once('|').unwrap_or((line, "ok"))
}
