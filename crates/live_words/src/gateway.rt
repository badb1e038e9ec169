// Reads the words of `gateway`.
ghost use Rattle.std.specs.Prelude.{◌≡◌};
ghost use Rattle.ikl_base.specs.Answers.{Gives};
ghost use Rattle.clap.specs.Words.{found_of, rows_of};
ghost use Rattle.live_words.specs.Apps.{gateway_app};
ghost use Rattle.live_words.specs.Values.{matched, GivesRows, Reads};
ghost use Rattle.live_words.specs.Gateway.{config_in, wires_in, gateway_in, gateway_words_of};

use crate::apps::gateway_command;
use crate::matching::{BadWords, begin_with, match_words};
use crate::values::{address_named, count_named, port_named};
use clap::ArgMatches;
use gw_packets::Config;
use ikl_base::{LineFault, OrMemory};
use std::alloc::Global;

/// What `gateway` is told: its address and sequence limit, its ports on 127.0.0.1, and how many turns it takes.
#[derive(Clone, Copy, Debug, PartialEq, Eq)]
pub struct GatewayWords {
    pub config: Config,
    pub inside: u16,
    pub inside_to: u16,
    pub outside: u16,
    pub outside_to: u16,
    pub control: u16,
    pub notice: u16,
    pub turns: u64,
}

/// The ports of the two wires, and where they send.
#[derive(Clone, Copy, Debug)]
pub struct WirePorts {
    pub inside: u16,
    pub inside_to: u16,
    pub outside: u16,
    pub outside_to: u16,
}

#[tactic(auto, unfolding(crate::specs::Gateway::config_in))]
fn config(matches: &ArgMatches<'_>) -> Result<Config, LineFault>
    ensures { result ≡ config_in (rows_of (found_of matches.now)) }
{
    let address = address_named(matches, "address")?;
    let seq_last = count_named(matches, "seq-last")?;
    Ok(Config { address, seq_last })
}

#[tactic(auto, unfolding(crate::specs::Gateway::wires_in))]
fn wires(matches: &ArgMatches<'_>) -> Result<WirePorts, LineFault>
    ensures { result ≡ wires_in (rows_of (found_of matches.now)) }
{
    let inside = port_named(matches, "inside")?;
    let inside_to = port_named(matches, "inside-to")?;
    let outside = port_named(matches, "outside")?;
    let outside_to = port_named(matches, "outside-to")?;
    Ok(WirePorts {
        inside,
        inside_to,
        outside,
        outside_to,
    })
}

#[tactic(auto, unfolding(crate::specs::Gateway::gateway_in))]
fn gateway(matches: &ArgMatches<'_>) -> Result<GatewayWords, LineFault>
    ensures { result ≡ gateway_in (rows_of (found_of matches.now)) }
{
    let config = config(matches)?;
    let wires = wires(matches)?;
    let control = port_named(matches, "control")?;
    let notice = port_named(matches, "notice")?;
    let turns = count_named(matches, "turns")?;
    Ok(GatewayWords {
        config,
        inside: wires.inside,
        inside_to: wires.inside_to,
        outside: wires.outside,
        outside_to: wires.outside_to,
        control,
        notice,
        turns,
    })
}

fn matches_of<'a>(alloc: Global, words: &'a [String]) -> Result<ArgMatches<'a>, OrMemory<LineFault>>
    ensures { GivesRows result (matched gateway_app words.entry.now) }
{
    match gateway_command(alloc) {
        Ok(command) => match_words(command, words),
        Err(_) => Err(OrMemory::NoMemory),
    }
}

fn stated(alloc: Global, words: &[String]) -> Result<GatewayWords, OrMemory<LineFault>>
    ensures { Gives result (gateway_words_of words.now) }
{
    if !begin_with(words, b"gateway") {
        return Err(OrMemory::Refused(LineFault::Word));
    }
    match matches_of(alloc, words) {
        Ok(matches) => Ok(gateway(&matches)?),
        Err(refused) => Err(refused),
    }
}

/// Reads the words of `gateway`, its name first. `BadWords`: they aren't the command's.
pub fn read_gateway_words(
    alloc: Global,
    words: &[String],
) -> Result<GatewayWords, OrMemory<BadWords>>
    ensures { Reads result (gateway_words_of words.now) }
{
    match stated(alloc, words) {
        Ok(value) => Ok(value),
        Err(OrMemory::NoMemory) => Err(OrMemory::NoMemory),
        Err(OrMemory::Refused(_)) => Err(OrMemory::Refused(BadWords)),
    }
}
