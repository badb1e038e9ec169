// Replies.
ghost use Rattle.std.specs.Prelude.{◌≡◌, IfOk, IfSome, IsUtf8};
ghost use Rattle.std.specs.Option.{option_copied};
ghost use Rattle.rc_resource.specs.Replies.{refusal, plain_refusal, shows_reply, made_reply, done_reply};

use crate::error::error_body;
use ikeless_tree::{App, Names, Tag};
use ikl_base::{NoMemory, Octets};
use rc_request::RcError;
use reply_table::Change;
use std::alloc::Global;

/// A reply to a request: its status, its error tag, the names that it shows where all halves are read, the path
/// of what was made, the methods that a refused one may be replaced by, its body, and what was changed.
#[derive(Debug, Drop)]
pub struct Reply {
    pub status: u16,
    pub tag: Option<Tag>,
    pub names: Names,
    pub location: Octets,
    pub allow: Octets,
    pub body: Octets,
    pub change: Change,
}

fn pointer_of(path: &Option<Octets>) -> Option<&[u8]>
    ensures { option_copied result ≡ path.now }
{
    match path {
        Some(pointer) => Some(pointer.as_slice()),
        None => None,
    }
}

/// The reply to a request that is refused.
pub fn error_reply(alloc: Global, e: &RcError) -> Result<Reply, NoMemory>
    requires { IfSome e.now.path IsUtf8 }
    ensures { IfOk result (λ r. r ≡ refusal e.now) }
{
    let body = error_body(alloc, e.app, pointer_of(&e.path), e.tag)?;
    let allow = Octets::from_slice(alloc, e.allow.as_slice())?;
    Ok(Reply {
        status: e.status,
        tag: Some(e.tag),
        names: Names::new(alloc),
        location: Octets::new(alloc),
        allow,
        body,
        change: Change::Nothing,
    })
}

/// The reply to a request that is refused over the databases.
pub(crate) fn refused(alloc: Global, status: u16, tag: Tag, app: App) -> Result<Reply, NoMemory>
    ensures { IfOk result (λ r. r ≡ plain_refusal status tag app) }
{
    let body = error_body(alloc, app, None, tag)?;
    Ok(Reply {
        status,
        tag: Some(tag),
        names: Names::new(alloc),
        location: Octets::new(alloc),
        allow: Octets::new(alloc),
        body,
        change: Change::Nothing,
    })
}

/// The reply that shows something.
pub(crate) fn shows(alloc: Global, names: Names, body: Octets) -> Reply
    ensures { result ≡ shows_reply names body }
{
    Reply {
        status: 200,
        tag: None,
        names,
        location: Octets::new(alloc),
        allow: Octets::new(alloc),
        body,
        change: Change::Nothing,
    }
}

/// The reply that something was made at this path.
pub(crate) fn made(alloc: Global, location: Octets, change: Change) -> Reply
    ensures { result ≡ made_reply location change }
{
    Reply {
        status: 201,
        tag: None,
        names: Names::new(alloc),
        location,
        allow: Octets::new(alloc),
        body: Octets::new(alloc),
        change,
    }
}

/// The reply that something was done, with nothing to show.
pub(crate) fn done(alloc: Global, change: Change) -> Reply
    ensures { result ≡ done_reply change }
{
    Reply {
        status: 204,
        tag: None,
        names: Names::new(alloc),
        location: Octets::new(alloc),
        allow: Octets::new(alloc),
        body: Octets::new(alloc),
        change,
    }
}
