// What a reply says of an error.
use crate::command::Refusal;

/// The error tags of a reply (RFC 8040 section 7).
#[derive(Clone, Copy, Debug, PartialEq, Eq)]
pub enum Tag {
    MalformedMessage,
    OperationNotSupported,
    TooBig,
    InvalidValue,
    UnknownElement,
    BadElement,
    ResourceDenied,
}

/// The error app tags of a reply, of this project: which fault it was.
#[derive(Clone, Copy, Debug, PartialEq, Eq)]
pub enum App {
    Form,
    Chunked,
    Size,
    Path,
    Method,
    Query,
    Json,
    Unknown,
    Missing,
    Range,
    Unsupported,
    Name,
    Full,
    Exists,
    SpiTaken,
    Absent,
    Point,
    Refused(Refusal),
}
