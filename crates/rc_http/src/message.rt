// Messages, and why octets are none.
use http_header::{HeaderMap, HeaderValue};
use ikl_base::Octets;

/// A message: a request with status 0, or a response without method and target.
///
/// `fields` has the names in lower case and the values without the white space around them.
#[derive(Drop)]
pub struct HttpMessage {
    pub method: Octets,
    pub target: Octets,
    pub status: u16,
    pub fields: HeaderMap<HeaderValue>,
    pub body: Octets,
}

/// Why octets are no message.
#[derive(Clone, Copy, Debug, PartialEq, Eq)]
pub enum HttpFault {
    /// The head isn't one (RFC 9112 sections 3 to 5), has more than 64 fields, or a Content-Length that is repeated
    /// or isn't 1 to 10 decimal digits.
    Head,
    /// The version isn't HTTP/1.1.
    Version,
    /// There is a Transfer-Encoding.
    Chunked,
    /// The head has more than 8,192 octets, or the body more than 1 MiB in a request and 16 MiB in a response.
    TooBig,
}

/// Which messages octets are read as.
#[derive(Clone, Copy, Debug, PartialEq, Eq)]
pub enum Kind {
    Request,
    Response,
}
