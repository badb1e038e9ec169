// Reads the words of a commanded tunnel.
ghost use Rattle.std.specs.Prelude.{◌≡◌};
ghost use Rattle.ikl_base.specs.Answers.{Gives};
ghost use Rattle.line_words.specs.Parts.{texts};
ghost use Rattle.event_lines.specs.Event.{mode_of, window_of, ends_of, flow_of, flow_in, tunnel_of, tunnel_from, tunnel_in};

use hist_acts::Event;
use ikeless_tree::{TunnelSpec, mode_named};
use ikl_base::{LineFault, Name, OrMemory, Prefix};
use line_words::{Lifetimes, gateway, lifetimes_from, prefix_from, u64_from};
use std::alloc::Global;
use yang_values::read_number;

const TUNNEL_WORDS: usize = 9;

/// What a tunnel goes between, under which number, and when it needs keys.
#[derive(Debug, Drop)]
pub struct Ends {
    pub reqid: u64,
    pub now: bool,
    pub first: Name,
    pub second: Name,
}

/// What a tunnel takes, and how its associations are made.
#[derive(Clone, Copy, Debug)]
pub struct Flow {
    pub first: Prefix,
    pub second: Prefix,
    pub window: u32,
    pub lifetimes: Lifetimes,
}

fn mode(word: &[u8]) -> Result<bool, LineFault>
    ensures { result ≡ mode_of word.now }
{
    match mode_named(word) {
        Some(now) => Ok(now),
        None => Err(LineFault::Mode),
    }
}

fn window(word: &[u8]) -> Result<u32, LineFault>
    ensures { result ≡ window_of word.now }
{
    match read_number(word, 4096) {
        Ok(size) if size >= 32 => Ok(size as u32),
        _ => Err(LineFault::Number),
    }
}

#[tactic(auto, unfolding(crate::specs::Event::ends_of))]
fn ends_from(
    alloc: Global,
    reqid: &[u8],
    when: &[u8],
    between: (&[u8], &[u8]),
) -> Result<Ends, OrMemory<LineFault>>
    ensures { Gives result (ends_of reqid.now when.now between.entry.0.now between.entry.1.now) }
{
    let reqid = u64_from(LineFault::Number, reqid)?;
    let now = mode(when)?;
    let first = gateway(alloc, between.0)?;
    let second = gateway(alloc, between.1)?;
    Ok(Ends {
        reqid,
        now,
        first,
        second,
    })
}

#[tactic(auto, unfolding(crate::specs::Event::flow_of))]
fn flow_from(
    alloc: Global,
    prefixes: (&[u8], &[u8]),
    size: &[u8],
    limits: (&[u8], &[u8]),
) -> Result<Flow, OrMemory<LineFault>>
    ensures { Gives result (flow_of prefixes.entry.0.now prefixes.entry.1.now size.now limits.entry.0.now limits.entry.1.now) }
{
    let first = prefix_from(LineFault::Prefix, prefixes.0)?;
    let second = prefix_from(LineFault::Prefix, prefixes.1)?;
    let window = window(size)?;
    let lifetimes = lifetimes_from(alloc, LineFault::Limits, limits.0, limits.1)?;
    Ok(Flow {
        first,
        second,
        window,
        lifetimes,
    })
}

#[tactic(auto, unfolding(crate::specs::Event::flow_in))]
fn flow_in_words(alloc: Global, words: &[&[u8]]) -> Result<Flow, OrMemory<LineFault>>
    ensures { Gives result (flow_in (texts words.now)) }
{
    match words {
        [near, far, size, hard, soft] => flow_from(alloc, (near, far), size, (hard, soft)),
        _ => Err(OrMemory::Refused(LineFault::Count)),
    }
}

#[tactic(auto, unfolding(crate::specs::Event::tunnel_of))]
fn tunnel_between(
    alloc: Global,
    reqid: &[u8],
    when: &[u8],
    between: (&[u8], &[u8]),
    more: &[&[u8]],
) -> Result<Event, OrMemory<LineFault>>
    ensures { Gives result (tunnel_of reqid.now when.now between.entry.0.now between.entry.1.now (texts more.now)) }
{
    let ends = ends_from(alloc, reqid, when, between)?;
    let flow = flow_in_words(alloc, more)?;
    Ok(Event::Tunnel(TunnelSpec {
        reqid: ends.reqid,
        now: ends.now,
        first: ends.first,
        second: ends.second,
        first_prefix: flow.first,
        second_prefix: flow.second,
        window: flow.window,
        hard: flow.lifetimes.hard,
        soft: flow.lifetimes.soft,
    }))
}

#[tactic(auto, unfolding(crate::specs::Event::tunnel_from))]
fn tunnel_in_words(alloc: Global, words: &[&[u8]]) -> Result<Event, OrMemory<LineFault>>
    ensures { Gives result (tunnel_from (texts words.now)) }
{
    match words {
        [reqid, when, first, second, more @ ..] => {
            tunnel_between(alloc, reqid, when, (first, second), more)
        }
        _ => Err(OrMemory::Refused(LineFault::Count)),
    }
}

/// The command of a tunnel that words stand for.
#[tactic(auto, unfolding(crate::specs::Event::tunnel_in))]
pub fn tunnel(alloc: Global, words: &[&[u8]]) -> Result<Event, OrMemory<LineFault>>
    ensures { Gives result (tunnel_in (texts words.now)) }
{
    if words.len() == TUNNEL_WORDS {
        tunnel_in_words(alloc, words)
    } else {
        Err(OrMemory::Refused(LineFault::Count))
    }
}
