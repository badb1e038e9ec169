// What `clap` matches of the words of a command.
ghost use Rattle.std.specs.Prelude.{◌≡◌, true, List, ℕ, map, option_map};
ghost use Rattle.clap.specs.Words.{all_of, app_of, first_of, found_of, is_simple_and_free, rows_of};
ghost use Rattle.line_words.specs.Parts.{texts};
ghost use Rattle.live_words.specs.Values.{begins_with, matched, GivesRows};

use clap::error::ErrorKind;
use clap::{ArgMatches, Command};
use ikl_base::{LineFault, OrMemory};

/// Words that aren't those of a command.
#[derive(Clone, Copy, Debug, PartialEq, Eq)]
pub struct BadWords;

/// Whether the first word is the name of a command.
pub fn begin_with(words: &[String], name: &[u8]) -> bool
    ensures { result ≡ begins_with name.now words.now }
{
    match words {
        [] => false,
        [first, ..] => first.as_bytes() == name,
    }
}

/// Matches the words after the first.
pub fn match_words<'a>(
    command: Command<'a>,
    words: &'a [String],
) -> Result<ArgMatches<'a>, OrMemory<LineFault>>
    requires { is_simple_and_free (app_of command) ≡ true }
    ensures { GivesRows result (matched (app_of command.entry) words.entry.now) }
{
    match command.try_get_matches_from(words) {
        Ok(matches) => Ok(matches),
        Err(error) => match error.kind() {
            ErrorKind::OutOfMemory => Err(OrMemory::NoMemory),
            _ => Err(OrMemory::Refused(LineFault::Word)),
        },
    }
}

/// The value of an argument.
pub fn text_at<'a>(matches: &ArgMatches<'a>, name: &str) -> Option<&'a str>
    ensures { option_map (λ s. s.now) result ≡ first_of name.now (rows_of (found_of matches.now)) }
{
    matches.get_str(name)
}

/// The values of an argument that has several.
pub fn texts_at<'m, 'a>(matches: &'m ArgMatches<'a>, name: &str) -> Option<&'m [&'a str]>
    ensures { option_map (λ s. texts s.now) result ≡ all_of name.now (rows_of (found_of matches.now)) }
{
    matches.get_strs(name)
}
