// What a gateway does, as messages, as datagrams sent and as acts.
ghost use Rattle.std.specs.Prelude.{◌≡◌, ◌++◌, ◌<◌, ◌^◌, All, OnOk, map};
ghost use Rattle.std.specs.List.{list_any};
ghost use Rattle.ikeless_tree.specs.declared.order.Lane.TheVariants as lanes;
ghost use Rattle.rc_http.specs.Written.{IsWritableResponse, response_text};
ghost use Rattle.rc_resource.specs.Messages.{reply_message};
ghost use Rattle.notice_lines.specs.Envelope.{IsNotice};
ghost use Rattle.hist_halves.specs.Sealed as halves;
ghost use Rattle.hist_wire.specs.Dates.{line_text};
ghost use Rattle.session_pipe.specs.UnderWay.{after_push};
ghost use Rattle.gw_history.specs.Told as law;
ghost use Rattle.world_steps.specs.Nodes.{all_piped, all_sent, piped, sent_of};
ghost use Rattle.world_steps.specs.Steps as steps;
ghost use Rattle.world_steps.specs.Conditions.{IsWritten};
ghost use Rattle.world_nodes.specs.Numbered.{naming_by};

use crate::naming::{Numbers, told};
use crate::sent::SentLog;
use gw_core::{GwAct, GwActs};
use hist_acts::Acts;
use ikeless_tree::{DropWhy, Lane, Notice};
use ikl_base::{Duplicate, Name, NoMemory};
use rc_resource::Reply;
use session_messages::{write_line, write_reply};
use session_pipe::Pipe;
use std::alloc::Global;

// Whether the tag of the datagram was right (RFC 4303 section 3.4.4).
fn is_opened(why: DropWhy) -> bool
    ensures { result ≡ halves.is_opened why }
{
    match why {
        DropWhy::Padding | DropWhy::Dummy | DropWhy::Inner | DropWhy::Selector => true,
        _ => false,
    }
}

fn did_open(act: &GwAct) -> bool
    ensures { result ≡ steps.did_open act.now }
{
    match act {
        GwAct::Gave { .. } => true,
        GwAct::Drop(why) => is_opened(*why),
        _ => false,
    }
}

/// Whether one of these acts says that the tag of a datagram was right.
pub fn has_opened(acts: &GwActs) -> bool
    ensures { result ≡ list_any steps.did_open acts.now }
{
    acts.as_slice().iter().any(did_open)
}

fn pipe_reply(alloc: Global, reply: &Reply, pipe: &mut Pipe) -> Result<(), NoMemory>
    requires { IsWritableResponse (reply_message reply.now) }
    ensures { OnOk result (pipe.new ≡ after_push lanes.Up (response_text (reply_message reply.now)) pipe.old) }
{
    let octets = write_reply(alloc, reply)?;
    pipe.push(Lane::Up, octets.as_slice())
}

fn pipe_notice(alloc: Global, notice: &Notice, now: u32, pipe: &mut Pipe) -> Result<(), NoMemory>
    requires { IsNotice notice.now }
    ensures { OnOk result (pipe.new ≡ after_push lanes.Note (line_text notice.now now) pipe.old) }
{
    let octets = write_line(alloc, notice, now)?;
    pipe.push(Lane::Note, octets.as_slice())
}

// A reply goes up as its response, and a notice as its line.
fn pipe_act(alloc: Global, now: u32, act: &GwAct, pipe: &mut Pipe) -> Result<(), NoMemory>
    requires { IsWritten act.now }
    ensures { OnOk result (pipe.new ≡ piped now act.now pipe.old) }
{
    match act {
        GwAct::Reply(reply) => pipe_reply(alloc, reply, pipe),
        GwAct::Notice(notice) => pipe_notice(alloc, notice, now, pipe),
        _ => Ok(()),
    }
}

fn log_act(alloc: Global, act: &GwAct, sent: &mut SentLog) -> Result<(), NoMemory>
    ensures { OnOk result (sent.new ≡ sent.old ++ sent_of act.now) }
{
    match act {
        GwAct::Sent {
            name: _,
            number: _,
            octets,
        } => sent.push(alloc, octets.copy()?),
        _ => Ok(()),
    }
}

/// The acts of a gateway put its replies and notices into its pipe.
pub fn pipe_acts(alloc: Global, now: u32, done: &GwActs, pipe: &mut Pipe) -> Result<(), NoMemory>
    requires { All IsWritten done.now }
    ensures { OnOk result (pipe.new ≡ all_piped now done.now pipe.old) }
{
    for act in done.as_slice() {
        pipe_act(alloc, now, act, pipe)?;
    }
    Ok(())
}

/// And its datagrams into the log.
pub fn log_acts(alloc: Global, done: &GwActs, sent: &mut SentLog) -> Result<(), NoMemory>
    ensures { OnOk result (sent.new ≡ sent.old ++ all_sent done.now) }
{
    for act in done.as_slice() {
        log_act(alloc, act, sent)?;
    }
    Ok(())
}

/// And they are told.
pub fn tell_acts(
    name: &Name,
    numbers: Numbers,
    done: GwActs,
    acts: &mut Acts,
) -> Result<(), NoMemory>
    requires { numbers.requests < 2 ^ 63 }
    ensures { OnOk result (acts.new ≡ acts.old ++ map (law.told (naming_by name.now numbers)) done) }
{
    for act in done.into_items() {
        acts.push(told(name, numbers, act)?)?;
    }
    Ok(())
}
