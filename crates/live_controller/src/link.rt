// The link to one peer.
ghost use Rattle.std.specs.Prelude.{◌≡◌, [], true};

use crate::messages::Responses;
use crate::notices::Notices;
use std::alloc::Global;

/// The link to a peer: whether its session is open, and what came in it since the last response and since the last line.
#[derive(Drop)]
pub(crate) struct Link {
    pub is_up: bool,
    pub responses: Responses,
    pub notices: Notices,
}

impl Link {
    /// A link on which nothing came, and whether it is up.
    pub(crate) fn begun(alloc: Global, is_up: bool) -> Link
        ensures up { result.is_up ≡ is_up }
        ensures none { (result.responses ≡ []) × (result.notices ≡ []) }
    {
        Link {
            is_up,
            responses: Responses::begun(alloc),
            notices: Notices::begun(alloc),
        }
    }
}
