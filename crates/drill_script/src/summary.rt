// Writes the line of a drill.
ghost use Rattle.std.specs.Prelude.{◌≡◌, ◌++◌, ◌∷◌, IfOk, OnOk, [], codes};
ghost use Rattle.std.specs.Fmt.{decimal};
ghost use Rattle.line_words.specs.Text.{line_text, spaced};
ghost use Rattle.drill_script.specs.Tallies.{begin_words, given_words, other_words, summary_text};

use crate::tallying::Tally;
use ikl_base::{NoMemory, Octets};
use line_words::{put, put_number_word, put_octet, put_word};
use std::alloc::Global;

// The lines of a script of the drill after its header.
const EVENTS: u64 = 20_073;

// A word and a number, each after a space.
fn put_count(out: &mut Vec<u8>, word: &[u8], count: u64) -> Result<(), NoMemory>
    ensures { OnOk result (out.new.items ≡ out.old.items ++ spaced (word.now ∷ decimal count ∷ [])) }
{
    put_word(out, word)?;
    put_number_word(out, count)
}

fn put_begin(out: &mut Vec<u8>, n: u64) -> Result<(), NoMemory>
    ensures { OnOk result (out.new.items ≡ out.old.items ++ line_text (codes "drill" ∷ begin_words n)) }
{
    put(out, b"drill")?;
    put_number_word(out, n)?;
    put_count(out, b"events", EVENTS)
}

fn put_given(out: &mut Vec<u8>, tally: &Tally) -> Result<(), NoMemory>
    ensures { OnOk result (out.new.items ≡ out.old.items ++ spaced (given_words tally.now)) }
{
    put_count(out, b"sent", tally.sent)?;
    put_count(out, b"gave", tally.gave)?;
    put_count(out, b"clear", tally.clear)
}

fn put_others(out: &mut Vec<u8>, tally: &Tally) -> Result<(), NoMemory>
    ensures { OnOk result (out.new.items ≡ out.old.items ++ spaced (other_words tally.now)) }
{
    put_count(out, b"drop", tally.dropped)?;
    put_count(out, b"order", tally.orders)
}

/// The line of a drill: its number, its events, what is counted of its transcript, and the exit number of its run.
#[tactic(auto, unfolding(crate::specs::Tallies::summary_text))]
pub fn write_summary(alloc: Global, n: u64, tally: &Tally, status: u8) -> Result<Octets, NoMemory>
    ensures { IfOk result (λ line. line ≡ summary_text n tally.now status) }
{
    let mut out = Vec::new(alloc);
    put_begin(&mut out, n)?;
    put_given(&mut out, tally)?;
    put_others(&mut out, tally)?;
    put_count(&mut out, b"status", u64::from(status))?;
    put_octet(&mut out, b'\n')?;
    Ok(Octets::from_items(out))
}
