// Help, and why words are refused.

use clap::{Command, Error};
use live_words::{client_command, controller_command, drill_command, gateway_command};
use std::alloc::{AllocError, Global};
use std::io;

const COMMANDS: &str = "Usage: ikeless COMMAND WORDS..

Commands:
  replay      Reads a script, and writes its transcript
  drill       Replays a large script in memory, and prints what is counted of it
  gateway     Runs a gateway
  controller  Runs the controller
  client      Sends a command to the controller, and prints its answer

`ikeless COMMAND --help` says what each word of a command means.";

// The command that a word names, as `clap` is told of it.
fn command_called<'a>(alloc: Global, name: &str) -> Result<Option<Command<'a>>, AllocError> {
    match name {
        "gateway" => Ok(Some(gateway_command(alloc)?)),
        "controller" => Ok(Some(controller_command(alloc)?)),
        "client" => Ok(Some(client_command(alloc)?)),
        "drill" => Ok(Some(drill_command(alloc)?)),
        _ => Ok(None),
    }
}

// What `clap` says of words that it refuses, or that ask for help: its text says which word is wrong, or what each word means. None
// where it takes them, and where they are those of no command that it reads.
fn complaint(alloc: Global, words: &[String]) -> Result<Option<Error>, AllocError> {
    let Some(name) = words.first() else {
        return Ok(None);
    };
    let Some(command) = command_called(alloc, name.as_str())? else {
        return Ok(None);
    };
    match command.try_get_matches_from(words) {
        Ok(_) => Ok(None),
        Err(error) => Ok(Some(error)),
    }
}

fn is_help(word: &String) -> bool {
    matches!(word.as_str(), "-h" | "--help" | "help")
}

/// Whether help is asked for: by the first word, or by the one after a command's name.
pub fn asks_for_help(words: &[String]) -> bool {
    words.iter().take(2).any(is_help)
}

/// Prints help on standard output: that of the command that the first word names, or of all.
pub fn print_help(rt: &HostRuntime, words: &[String]) -> io::Result<()> {
    match complaint(rt.alloc(), words) {
        Ok(Some(said)) => println!(rt; "{said}"),
        _ => println!(rt; "{COMMANDS}"),
    }
}

/// Says on standard error which word is wrong, where `clap` finds one, or which commands there are.
pub fn print_refusal(rt: &HostRuntime, words: &[String]) -> io::Result<()> {
    match complaint(rt.alloc(), words) {
        Ok(Some(said)) => eprintln!(rt; "{said}"),
        _ => eprintln!(rt; "{COMMANDS}"),
    }
}
