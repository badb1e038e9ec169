// What a client is told by the response to its command.
ghost use Rattle.std.specs.Prelude.{◌≡◌};
ghost use Rattle.ikl_base.specs.Answers.{Gives};
ghost use Rattle.rc_operations.specs.Replies.{if_error, if_no_body, told_done, told_of};

use ikeless_tree::{App, Tag};
use ikl_base::OrMemory;
use rc_answer::{BadAnswer, read_error};
use rc_http::HttpMessage;
use std::alloc::Global;

/// What a response to a command says: 204 without a body where it was accepted, else a status of 400 or above with the tags of
/// its error.
#[derive(Clone, Copy, Debug, PartialEq, Eq)]
pub struct Told {
    pub status: u16,
    pub tag: Option<Tag>,
    pub app: Option<App>,
}

fn done() -> Told
    ensures { result ≡ told_done }
{
    Told {
        status: 204,
        tag: None,
        app: None,
    }
}

fn without_body(body: &[u8]) -> Result<Told, OrMemory<BadAnswer>>
    ensures { Gives result (if_no_body body.now) }
{
    if body.is_empty() {
        Ok(done())
    } else {
        Err(OrMemory::Refused(BadAnswer))
    }
}

fn error(alloc: Global, m: &HttpMessage) -> Result<Told, OrMemory<BadAnswer>>
    ensures { Gives result (if_error m.now) }
{
    let found = read_error(alloc, m.body.as_slice())?;
    Ok(Told {
        status: m.status,
        tag: Some(found.tag),
        app: Some(found.app),
    })
}

/// What a response to a command says: a 204 has no body, and that of an error reads. Any other response is a bad one.
pub fn read_told(alloc: Global, m: &HttpMessage) -> Result<Told, OrMemory<BadAnswer>>
    ensures { Gives result (told_of m.now) }
{
    if m.status == 204 {
        without_body(m.body.as_slice())
    } else if m.status >= 400 {
        error(alloc, m)
    } else {
        Err(OrMemory::Refused(BadAnswer))
    }
}
