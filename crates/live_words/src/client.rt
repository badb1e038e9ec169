// Reads the words of `client`.
ghost use Rattle.std.specs.Prelude.{◌≡◌, ◌++◌, ℕ, List, [], IfOk, OnOk};
ghost use Rattle.std.specs.Borrow.{Bor};
ghost use Rattle.std.specs.List.{list_all};
ghost use Rattle.ikl_base.specs.Answers.{Gives};
ghost use Rattle.clap.specs.Words.{found_of, rows_of};
ghost use Rattle.json_codec.specs.CommandWritten.{IsWellFormed};
ghost use Rattle.event_lines.specs.Spelling.{IsEventUnder};
ghost use Rattle.line_words.specs.Parts.{texts};
ghost use Rattle.line_words.specs.Text.{line_text, spaced};
ghost use Rattle.live_words.specs.Apps.{client_app};
ghost use Rattle.live_words.specs.Values.{matched, GivesRows, Reads};
ghost use Rattle.live_words.specs.Client.{command_said, within_body, sent_of, has_no_space, command_in, command_at, client_in, client_words_of};

use crate::apps::client_command;
use crate::matching::{BadWords, begin_with, match_words, texts_at};
use crate::values::{count_named, port_named};
use clap::ArgMatches;
use event_lines::{read_event, read_events_are_spelled};
use hist_acts::{Event, Header};
use ikeless_tree::Command;
use ikl_base::{LineFault, ListOf, NoMemory, OrMemory};
use json_codec::write_command;
use line_words::{put, put_word};
use std::alloc::Global;

// The octets of the longest body of a request.
const MOST_BODY: usize = 1_048_576;

/// What `client` is told: the controller's port on 127.0.0.1, how many turns to wait, and a command.
#[derive(Debug, Drop)]
pub struct ClientWords {
    pub port: u16,
    pub turns: u64,
    pub command: Command,
}

// The command that an event is.
fn said(event: Event) -> Result<Command, LineFault>
    ensures { result ≡ command_said event }
{
    match event {
        Event::Policy(gateway, list) => Ok(Command::Policy { gateway, list }),
        Event::Tunnel(spec) => Ok(Command::Tunnel(spec)),
        Event::End(reqid) => Ok(Command::End(reqid)),
        Event::Rekey(reqid) => Ok(Command::Rekey(reqid)),
        Event::Keys(key) => Ok(Command::Keys(key)),
        _ => Err(LineFault::Word),
    }
}

fn is_single(word: &str) -> bool
    ensures { result ≡ has_no_space word.now }
{
    word.as_bytes().iter().all(|octet| *octet != b' ')
}

fn all_single(words: &[&str]) -> bool
    ensures { result ≡ list_all (λ (word : Bor (List ℕ)). has_no_space word.now) words.now }
{
    words.iter().all(|word| is_single(word))
}

fn are_single(words: &[&str]) -> bool
    ensures { result ≡ list_all has_no_space (texts words.now) }
{
    all_single(words)
}

// Words after the first, each after a space.
fn put_words(out: &mut Vec<u8>, words: &[&str]) -> Result<(), NoMemory>
    ensures { OnOk result (out.new.items ≡ out.old.items ++ spaced (texts words.now)) }
{
    for word in words {
        put_word(out, word.as_bytes())?;
    }
    Ok(())
}

// The line of these words.
fn line(alloc: Global, words: &[&str]) -> Result<Vec<u8>, NoMemory>
    ensures { IfOk result (λ line. line.items ≡ line_text (texts words.now)) }
{
    let mut out = Vec::new(alloc);
    if let [first, rest @ ..] = words {
        put(&mut out, first.as_bytes())?;
        put_words(&mut out, rest)?;
    }
    Ok(out)
}

// A command, where its request can be sent.
fn within(alloc: Global, command: Command) -> Result<Command, OrMemory<LineFault>>
    requires { IsWellFormed command }
    ensures { Gives result (within_body command) }
{
    let body = write_command(alloc, &command)?;
    if body.as_slice().len() <= MOST_BODY {
        Ok(command)
    } else {
        Err(OrMemory::Refused(LineFault::Long))
    }
}

// The command that an event is, where its request can be sent.
fn sendable(alloc: Global, event: Event) -> Result<Command, OrMemory<LineFault>>
    requires { IsEventUnder [] event }
    ensures { Gives result (sent_of event) }
{
    let command = said(event)?;
    within(alloc, command)
}

#[tactic(auto, unfolding(crate::specs::Client::command_in))]
fn command(alloc: Global, words: &[&str]) -> Result<Command, OrMemory<LineFault>>
    ensures { Gives result (command_in (texts words.now)) }
{
    if !are_single(words) {
        return Err(OrMemory::Refused(LineFault::Word));
    }
    let line = line(alloc, words)?;
    let header = Header {
        seq_last: 1,
        gateways: ListOf::new(alloc),
    };
    let event = read_event(alloc, &header, line.as_slice())?;
    read_events_are_spelled();
    sendable(alloc, event)
}

fn command_named(alloc: Global, matches: &ArgMatches<'_>) -> Result<Command, OrMemory<LineFault>>
    ensures { Gives result (command_at (rows_of (found_of matches.now))) }
{
    match texts_at(matches, "words") {
        Some(words) => command(alloc, words),
        None => Err(OrMemory::Refused(LineFault::Count)),
    }
}

#[tactic(auto, unfolding(crate::specs::Client::client_in))]
fn client(alloc: Global, matches: &ArgMatches<'_>) -> Result<ClientWords, OrMemory<LineFault>>
    ensures { Gives result (client_in (rows_of (found_of matches.now))) }
{
    let port = port_named(matches, "port")?;
    let turns = count_named(matches, "turns")?;
    let command = command_named(alloc, matches)?;
    Ok(ClientWords {
        port,
        turns,
        command,
    })
}

fn matches_of<'a>(alloc: Global, words: &'a [String]) -> Result<ArgMatches<'a>, OrMemory<LineFault>>
    ensures { GivesRows result (matched client_app words.entry.now) }
{
    match client_command(alloc) {
        Ok(command) => match_words(command, words),
        Err(_) => Err(OrMemory::NoMemory),
    }
}

fn stated(alloc: Global, words: &[String]) -> Result<ClientWords, OrMemory<LineFault>>
    ensures { Gives result (client_words_of words.now) }
{
    if !begin_with(words, b"client") {
        return Err(OrMemory::Refused(LineFault::Word));
    }
    match matches_of(alloc, words) {
        Ok(matches) => client(alloc, &matches),
        Err(refused) => Err(refused),
    }
}

/// Reads the words of `client`, its name first. `BadWords`: they aren't the command's.
pub fn read_client_words(alloc: Global, words: &[String]) -> Result<ClientWords, OrMemory<BadWords>>
    ensures { Reads result (client_words_of words.now) }
{
    match stated(alloc, words) {
        Ok(value) => Ok(value),
        Err(OrMemory::NoMemory) => Err(OrMemory::NoMemory),
        Err(OrMemory::Refused(_)) => Err(OrMemory::Refused(BadWords)),
    }
}
