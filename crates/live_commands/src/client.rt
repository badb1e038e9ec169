// The command `client`.
ghost use Rattle.std.specs.Prelude.{◌≡◌, ◌<◌, ◌++◌, ℕ, List, false, IsErr, IsOk, Ok, Err, Result};
ghost use Rattle.ikl_base.specs.Outside.{Gains, HasRisen};
ghost use Rattle.live_devices.specs.Dialers.{StaysBut};
ghost use Rattle.rc_http.specs.Written.{request_text};
ghost use Rattle.rc_operations.specs.declared.told.Told.{Told as Response};
ghost use Rattle.rc_operations.specs.Operations.{IsSendable, command_message};
ghost use Rattle.live_client.specs.declared.fault.AskFault.{AskFault as Fault};
ghost use Rattle.live_client.specs.Asking.{CallTells, Called};
ghost use Rattle.live_words.specs.declared.client.ClientWords.{ClientWords as Stated};
ghost use Rattle.live_words.specs.Client.{client_words_of};
ghost use Rattle.live_commands.specs.Ends.{IsOfWords};
ghost use Rattle.live_commands.specs.Client.{EndsBy, IsWhole, Printed, SinkTells, is_write_fault, status_of, told_status};
ghost use Rattle.live_commands.specs.Lines.{told_line};

use crate::line::line_of;
use event_lines::read_events_are_spelled;
use ikl_base::{Failed, NoMemory, OrMemory, Sink, Status, write_all};
use live_client::{AskFault, Told, ask_once};
use live_devices::Dialer;
use live_words::{ClientWords, read_client_words};
use std::alloc::Global;

// Errors have a status from here on.
const LEAST_ERROR: u16 = 400;

// The status of a response.
fn status(told: Told) -> Status
    ensures { result ≡ told_status told }
{
    if told.status >= LEAST_ERROR {
        Status::Denied
    } else {
        Status::Done
    }
}

// The status of a fault without a response.
fn fault_status(fault: &AskFault) -> Status
    ensures { result ≡ status_of fault.now }
{
    match fault {
        AskFault::LinkFault => Status::LinkFault,
        AskFault::BadReply(_) => Status::BadReply,
        AskFault::TurnsSpent => Status::TurnsSpent,
        AskFault::NoMemory => Status::NoMemory,
    }
}

// Prints what is told.
fn print<K: Sink>(alloc: Global, told: Told, output: &mut K) -> Status
    ensures printed { Printed result told (K.written output.old) (K.written output.new) }
    ensures sink { SinkTells (K.faults output.old) (K.faults output.new) (K.last_failed output.old) (K.last_failed output.new)
        (is_write_fault result) }
{
    let line = match line_of(alloc, told) {
        Ok(line) => line,
        Err(NoMemory) => return Status::NoMemory,
    };
    match write_all(output, line.as_slice()) {
        Ok(()) => status(told),
        Err(Failed) => Status::WriteFault,
    }
}

// Asks as the words say, and prints what is told.
fn ask<L: Dialer, K: Sink>(alloc: Global, w: &ClientWords, dialer: &mut L, output: &mut K) -> Status
    requires command { IsSendable w.now.command }
    requires known { 0 < L.peers dialer.old }
    requires down { L.is_up dialer.old 0 ≡ false }
    ensures asks { EndsBy result (λ answer.
        Called (request_text (command_message w.now.command)) (L.held dialer.old 0) w.now.turns (L.held dialer.new 0) answer
        × CallTells (L.faults dialer.old 0) (L.faults dialer.new 0) (L.last_failed dialer.old 0) (L.last_failed dialer.new 0) answer)
        (K.written output.old) (K.written output.new) }
    ensures down { L.is_up dialer.new 0 ≡ false }
    ensures others { StaysBut 0 (L.held dialer.old) (L.held dialer.new) × StaysBut 0 (L.is_up dialer.old) (L.is_up dialer.new) }
    ensures counts { StaysBut 0 (L.faults dialer.old) (L.faults dialer.new)
        × StaysBut 0 (L.last_failed dialer.old) (L.last_failed dialer.new) }
    ensures peers { L.peers dialer.new ≡ L.peers dialer.old }
    ensures sink { SinkTells (K.faults output.old) (K.faults output.new) (K.last_failed output.old) (K.last_failed output.new)
        (is_write_fault result) }
{
    match ask_once(alloc, &w.command, dialer, w.turns) {
        Ok(told) => print(alloc, told, output),
        Err(fault) => fault_status(&fault),
    }
}

/// Asks a controller, which is peer 0, to carry out the command that the words say, the command's name first, and prints its answer in
/// one line: the status, and for an error its tag and its app tag.
///
/// `Done`: the answer is 204. `Denied`: it is 400 or above. `BadReply`: what came is no answer. `LinkFault`: the link failed. `TurnsSpent`: all
/// turns passed without an answer. `WriteFault`: the sink failed, and a front of the line was written. `Words`: the words aren't the
/// command's.
pub fn run_client<L: Dialer, K: Sink>(
    alloc: Global,
    words: &[String],
    dialer: &mut L,
    output: &mut K,
) -> Status
    requires known { 0 < L.peers dialer.old }
    requires down { L.is_up dialer.old 0 ≡ false }
    ensures words { IsOfWords result (client_words_of words.now) }
    ensures untouched { IsErr (client_words_of words.now) → (dialer.new ≡ dialer.old) × (output.new ≡ output.old) }
    // Peer 0 was asked for the command that the words say, for as many turns, and what was written is the answer's line.
    ensures asks { (w : Stated) → client_words_of words.now ≡ Ok w → EndsBy result (λ answer.
        Called (request_text (command_message w.command)) (L.held dialer.old 0) w.turns (L.held dialer.new 0) answer
        × CallTells (L.faults dialer.old 0) (L.faults dialer.new 0) (L.last_failed dialer.old 0) (L.last_failed dialer.new 0) answer)
        (K.written output.old) (K.written output.new) }
    // With the command's words, over a link and a sink that don't fail, the controller answers, or all turns pass, or memory runs out.
    ensures complete { IsOk (client_words_of words.now) → (HasRisen (L.faults dialer.old 0) (L.faults dialer.new 0) → ⊥)
        → (HasRisen (K.faults output.old) (K.faults output.new) → ⊥) → IsWhole result }
    ensures down { L.is_up dialer.new 0 ≡ false }
    ensures others { StaysBut 0 (L.held dialer.old) (L.held dialer.new) × StaysBut 0 (L.is_up dialer.old) (L.is_up dialer.new) }
    ensures counts { StaysBut 0 (L.faults dialer.old) (L.faults dialer.new)
        × StaysBut 0 (L.last_failed dialer.old) (L.last_failed dialer.new) }
    ensures peers { L.peers dialer.new ≡ L.peers dialer.old }
    ensures sink { SinkTells (K.faults output.old) (K.faults output.new) (K.last_failed output.old) (K.last_failed output.new)
        (is_write_fault result) }
{
    read_events_are_spelled();
    match read_client_words(alloc, words) {
        Ok(w) => ask(alloc, &w, dialer, output),
        Err(OrMemory::Refused(_)) => Status::Words,
        Err(OrMemory::NoMemory) => Status::NoMemory,
    }
}
