// Reads the words of `drill`.
ghost use Rattle.std.specs.Prelude.{◌≡◌};
ghost use Rattle.ikl_base.specs.Answers.{Gives};
ghost use Rattle.live_words.specs.Apps.{drill_app};
ghost use Rattle.live_words.specs.Values.{matched, GivesRows, Reads};
ghost use Rattle.live_words.specs.Client.{drill_words_of};

use crate::apps::drill_command;
use crate::matching::{BadWords, begin_with, match_words};
use crate::values::number_named;
use clap::ArgMatches;
use ikl_base::{LineFault, OrMemory};
use std::alloc::Global;

fn matches_of<'a>(alloc: Global, words: &'a [String]) -> Result<ArgMatches<'a>, OrMemory<LineFault>>
    ensures { GivesRows result (matched drill_app words.entry.now) }
{
    match drill_command(alloc) {
        Ok(command) => match_words(command, words),
        Err(_) => Err(OrMemory::NoMemory),
    }
}

fn stated(alloc: Global, words: &[String]) -> Result<u64, OrMemory<LineFault>>
    ensures { Gives result (drill_words_of words.now) }
{
    if !begin_with(words, b"drill") {
        return Err(OrMemory::Refused(LineFault::Word));
    }
    match matches_of(alloc, words) {
        Ok(matches) => Ok(number_named(&matches, "N")?),
        Err(refused) => Err(refused),
    }
}

/// Reads the words of `drill`, its name first, and gives its number. `BadWords`: they aren't the command's.
pub fn read_drill_words(alloc: Global, words: &[String]) -> Result<u64, OrMemory<BadWords>>
    ensures { Reads result (drill_words_of words.now) }
{
    match stated(alloc, words) {
        Ok(value) => Ok(value),
        Err(OrMemory::NoMemory) => Err(OrMemory::NoMemory),
        Err(OrMemory::Refused(_)) => Err(OrMemory::Refused(BadWords)),
    }
}
