// Asks a controller once.
ghost use Rattle.std.specs.Prelude.{◌≡◌, ◌<◌, ◌++◌, ℕ, length, true, false, Err, IfSome};
ghost use Rattle.live_devices.specs.Dialers.{StaysBut};
ghost use Rattle.rc_http.specs.Written.{request_text};
ghost use Rattle.rc_operations.specs.Operations.{command_message, IsSendable};
ghost use Rattle.live_client.specs.Asking.{is_link, Brings, CallTells, Called, Conversed, LinkTells, Replied};
ghost use Rattle.live_client.specs.Replies.{IsWaiting, Takes};
ghost use Rattle.live_client.specs.declared.fault.AskFault.TheVariants as faults;

use crate::fault::AskFault;
use crate::reading::Reading;
use ikeless_tree::Command;
use ikl_base::{Failed, NoMemory};
use live_devices::Dialer;
use rc_operations::{Told, write_operation};
use std::alloc::Global;

const PIECE: usize = 65_536;

// Takes the octets of a read; none are its end.
fn take_read(alloc: Global, reading: &mut Reading, octets: &[u8]) -> Result<Option<Told>, AskFault>
    requires { IsWaiting reading.old.feeder reading.old.octets.items }
    ensures end { length octets.now ≡ 0 → result ≡ Err (faults.BadReply reading.old.octets.items) }
    ensures piece { 0 < length octets.now → Takes (reading.old.octets.items ++ octets.now) reading.new.feeder reading.new.octets.items
        result }
{
    if octets.is_empty() {
        return Err(reading.bad(alloc));
    }
    reading.take(alloc, octets)
}

// Reads once.
fn read_once<L: Dialer>(
    alloc: Global,
    reading: &mut Reading,
    dialer: &mut L,
    buf: &mut [u8],
) -> Result<Option<Told>, AskFault>
    requires waiting { IsWaiting reading.old.feeder reading.old.octets.items }
    requires known { 0 < L.peers dialer.old }
    requires up { L.is_up dialer.old 0 ≡ true }
    requires room { length buf.old ≡ 65536 }
    ensures brings { Brings (L.held dialer.old 0) (L.held dialer.new 0) reading.old.octets.items reading.new.feeder reading.new.octets.items
        result }
    ensures link { LinkTells (L.faults dialer.old 0) (L.faults dialer.new 0) (L.last_failed dialer.new 0) (is_link result) }
    ensures up { L.is_up dialer.new 0 ≡ true }
    ensures others { StaysBut 0 (L.held dialer.old) (L.held dialer.new) × StaysBut 0 (L.is_up dialer.old) (L.is_up dialer.new) }
    ensures counts { StaysBut 0 (L.faults dialer.old) (L.faults dialer.new)
        × StaysBut 0 (L.last_failed dialer.old) (L.last_failed dialer.new) }
    ensures peers { L.peers dialer.new ≡ L.peers dialer.old }
{
    match dialer.read(0, buf) {
        Err(Failed) => Err(AskFault::LinkFault),
        Ok(None) => Ok(None),
        Ok(Some(n)) => {
            let (octets, _) = buf.split_at(n);
            take_read(alloc, reading, octets)
        }
    }
}

// Reads once in each turn, until an answer is fixed.
fn await_reply<L: Dialer>(alloc: Global, dialer: &mut L, turns: u64) -> Result<Told, AskFault>
    requires known { 0 < L.peers dialer.old }
    requires up { L.is_up dialer.old 0 ≡ true }
    requires calm { IfSome (L.last_failed dialer.old 0) (λ failed. failed ≡ false) }
    ensures replied { Replied (L.held dialer.old 0) turns (L.held dialer.new 0) result }
    ensures link { LinkTells (L.faults dialer.old 0) (L.faults dialer.new 0) (L.last_failed dialer.new 0) (is_link result) }
    ensures up { L.is_up dialer.new 0 ≡ true }
    ensures others { StaysBut 0 (L.held dialer.old) (L.held dialer.new) × StaysBut 0 (L.is_up dialer.old) (L.is_up dialer.new) }
    ensures counts { StaysBut 0 (L.faults dialer.old) (L.faults dialer.new)
        × StaysBut 0 (L.last_failed dialer.old) (L.last_failed dialer.new) }
    ensures peers { L.peers dialer.new ≡ L.peers dialer.old }
{
    let mut reading = Reading::begun(alloc);
    let mut buf = [0u8; PIECE];
    'turns: for _turn in 0..turns {
        match read_once(alloc, &mut reading, dialer, &mut buf) {
            Ok(None) => (),
            Ok(Some(told)) => return Ok(told),
            Err(fault) => return Err(fault),
        }
    }
    Err(AskFault::TurnsSpent)
}

// Writes a request, and reads the reply to it.
fn converse<L: Dialer>(
    alloc: Global,
    request: &[u8],
    dialer: &mut L,
    turns: u64,
) -> Result<Told, AskFault>
    requires known { 0 < L.peers dialer.old }
    requires up { L.is_up dialer.old 0 ≡ true }
    ensures replied { Conversed request.now (L.held dialer.old 0) turns (L.held dialer.new 0) result }
    ensures link { LinkTells (L.faults dialer.old 0) (L.faults dialer.new 0) (L.last_failed dialer.new 0) (is_link result) }
    ensures up { L.is_up dialer.new 0 ≡ true }
    ensures others { StaysBut 0 (L.held dialer.old) (L.held dialer.new) × StaysBut 0 (L.is_up dialer.old) (L.is_up dialer.new) }
    ensures counts { StaysBut 0 (L.faults dialer.old) (L.faults dialer.new)
        × StaysBut 0 (L.last_failed dialer.old) (L.last_failed dialer.new) }
    ensures peers { L.peers dialer.new ≡ L.peers dialer.old }
{
    match dialer.write(0, request) {
        Ok(()) => await_reply(alloc, dialer, turns),
        Err(Failed) => Err(AskFault::LinkFault),
    }
}

// Dials, asks, and hangs up once the answer is fixed.
fn call<L: Dialer>(
    alloc: Global,
    request: &[u8],
    dialer: &mut L,
    turns: u64,
) -> Result<Told, AskFault>
    requires known { 0 < L.peers dialer.old }
    requires down { L.is_up dialer.old 0 ≡ false }
    ensures called { Called request.now (L.held dialer.old 0) turns (L.held dialer.new 0) result }
    ensures link { LinkTells (L.faults dialer.old 0) (L.faults dialer.new 0) (L.last_failed dialer.new 0) (is_link result) }
    ensures down { L.is_up dialer.new 0 ≡ false }
    ensures others { StaysBut 0 (L.held dialer.old) (L.held dialer.new) × StaysBut 0 (L.is_up dialer.old) (L.is_up dialer.new) }
    ensures counts { StaysBut 0 (L.faults dialer.old) (L.faults dialer.new)
        × StaysBut 0 (L.last_failed dialer.old) (L.last_failed dialer.new) }
    ensures peers { L.peers dialer.new ≡ L.peers dialer.old }
{
    match dialer.dial(0) {
        Ok(()) => {
            let answer = converse(alloc, request, dialer, turns);
            dialer.hang_up(0);
            answer
        }
        Err(Failed) => Err(AskFault::LinkFault),
    }
}

/// Asks a controller, which is peer 0, to carry out a command, and is told what it replied.
///
/// It dials, writes the request of the command once, and then reads once in each turn. It hangs up once its answer is fixed.
/// `LinkFault`: a call on the dialer failed. `BadReply`: a whole response was read that says nothing, or what was read is no response
/// or ends before it is one; the value is all octets read. `TurnsSpent`: all turns passed without a whole response.
pub fn ask_once<L: Dialer>(
    alloc: Global,
    c: &Command,
    dialer: &mut L,
    turns: u64,
) -> Result<Told, AskFault>
    requires command { IsSendable c.now }
    requires known { 0 < L.peers dialer.old }
    requires down { L.is_up dialer.old 0 ≡ false }
    // Every answer but that of a link that failed, and want of memory: peer 0 was dialled, exactly the octets of the command's request
    // were written to it, and only then it was read. What is told was said by a whole response that was read.
    ensures called { Called (request_text (command_message c.now)) (L.held dialer.old 0) turns (L.held dialer.new 0) result }
    // The link failed exactly where a call on it failed, and it was the last one but hanging up.
    ensures link { CallTells (L.faults dialer.old 0) (L.faults dialer.new 0) (L.last_failed dialer.old 0) (L.last_failed dialer.new 0)
        result }
    ensures down { L.is_up dialer.new 0 ≡ false }
    ensures others { StaysBut 0 (L.held dialer.old) (L.held dialer.new) × StaysBut 0 (L.is_up dialer.old) (L.is_up dialer.new) }
    ensures counts { StaysBut 0 (L.faults dialer.old) (L.faults dialer.new)
        × StaysBut 0 (L.last_failed dialer.old) (L.last_failed dialer.new) }
    ensures peers { L.peers dialer.new ≡ L.peers dialer.old }
{
    let request = match write_operation(alloc, c) {
        Ok(request) => request,
        Err(NoMemory) => return Err(AskFault::NoMemory),
    };
    call(alloc, request.as_slice(), dialer, turns)
}
