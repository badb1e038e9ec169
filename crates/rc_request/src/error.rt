// Refusals of requests.
use ikeless_tree::{App, Tag};
use ikl_base::Octets;

/// Why a request is refused: a status, the error tags of RFC 8040 section 7 and the app tags of this project.
///
/// `path` is the JSON Pointer (RFC 6901) to what is wrong in the body, and `allow` the methods of the resource where
/// the method is wrong.
#[derive(Debug, Drop)]
pub struct RcError {
    pub status: u16,
    pub tag: Tag,
    pub app: App,
    pub path: Option<Octets>,
    pub allow: Octets,
}
