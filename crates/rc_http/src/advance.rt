// One piece more of a message.
ghost use Rattle.std.specs.Prelude.{◌≡◌, ◌≤◌, ◌<◌, ◌++◌, List, ℕ, length, IfOk};
ghost use Rattle.rc_http.specs.Stages.{IsStage, IsHeadStage, IsBodyStage, IsEndStage, StepGives};

use crate::head::{read_length, read_message};
use crate::message::{HttpFault, HttpMessage, Kind};
use crate::place::{Place, Scanned, scan};
use ikl_base::NoMemory;

// The longest head.
const MOST_HEAD: usize = 8192;

/// What of a message has come.
#[derive(Clone, Copy, Debug, PartialEq, Eq)]
pub enum Stage {
    /// A part of the head; the next octet stands at this place.
    InHead { place: Place },
    /// The head, which has this many octets. The whole message will have `whole`.
    InBody { head: usize, whole: usize },
}

/// What a piece brings.
#[derive(Drop)]
pub enum Step {
    Waits(Stage),
    Fails(HttpFault),
    Whole { message: HttpMessage, taken: usize },
}

// Takes a piece after the head.
fn advance_body(
    kind: Kind,
    kept: &mut Vec<u8>,
    head: usize,
    whole: usize,
    piece: &[u8],
) -> Result<Step, NoMemory>
    requires { IsBodyStage kind kept.old.items head whole }
    ensures grows { (more : List ℕ) × (kept.new.items ≡ kept.old.items ++ more) }
    ensures step { IfOk result (λ s. StepGives kind kept.old.items piece.now kept.new.items s) }
{
    let wanted = whole - kept.len();
    if piece.len() < wanted {
        kept.extend_from_slice(piece)?;
        return Ok(Step::Waits(Stage::InBody { head, whole }));
    }
    let (last, _) = piece.split_at(wanted);
    kept.extend_from_slice(last)?;
    let (front, body) = kept.split_at(head);
    let message = read_message(*kept.allocator(), kind, front, body)?;
    Ok(Step::Whole {
        message,
        taken: wanted,
    })
}

// Takes the rest of a head, and what comes after it.
fn advance_end(kind: Kind, kept: &mut Vec<u8>, end: usize, piece: &[u8]) -> Result<Step, NoMemory>
    requires { IsEndStage kept.old.items end piece.now }
    ensures grows { (more : List ℕ) × (kept.new.items ≡ kept.old.items ++ more) }
    ensures step { IfOk result (λ s. StepGives kind kept.old.items piece.now kept.new.items s) }
{
    let (front, rest) = piece.split_at(end);
    kept.extend_from_slice(front)?;
    let head = kept.len();
    match read_length(kind, kept) {
        Err(fault) => Ok(Step::Fails(fault)),
        Ok(length) => match advance_body(kind, kept, head, head + length, rest)? {
            Step::Whole { message, taken } => Ok(Step::Whole {
                message,
                taken: end + taken,
            }),
            step => Ok(step),
        },
    }
}

// Takes a piece of a head that isn't whole.
fn advance_head(
    kind: Kind,
    kept: &mut Vec<u8>,
    place: Place,
    piece: &[u8],
) -> Result<Step, NoMemory>
    requires { IsHeadStage kept.old.items place }
    ensures grows { (more : List ℕ) × (kept.new.items ≡ kept.old.items ++ more) }
    ensures step { IfOk result (λ s. StepGives kind kept.old.items piece.now kept.new.items s) }
{
    match scan(place, piece) {
        Scanned::Goes(_) if kept.len() + piece.len() >= MOST_HEAD => Ok(Step::Fails(
            HttpFault::TooBig,
        )),
        Scanned::Goes(place) => {
            kept.extend_from_slice(piece)?;
            Ok(Step::Waits(Stage::InHead { place }))
        }
        Scanned::Ends(end) if kept.len() + end > MOST_HEAD => Ok(Step::Fails(HttpFault::TooBig)),
        Scanned::Ends(end) => advance_end(kind, kept, end, piece),
    }
}

/// Takes a piece of a message of which these octets were kept.
pub fn advance(kind: Kind, kept: &mut Vec<u8>, stage: Stage, piece: &[u8]) -> Result<Step, NoMemory>
    requires { IsStage kind kept.old.items stage }
    ensures grows { (more : List ℕ) × (kept.new.items ≡ kept.old.items ++ more) }
    ensures step { IfOk result (λ s. StepGives kind kept.old.items piece.now kept.new.items s) }
{
    match stage {
        Stage::InHead { place } => advance_head(kind, kept, place, piece),
        Stage::InBody { head, whole } => advance_body(kind, kept, head, whole, piece),
    }
}
