// Counts what the lines of a transcript say.
ghost use Rattle.std.specs.Prelude.{◌≡◌, List, ℕ, IfOk, nat_eq, count_by};
ghost use Rattle.std.specs.List.{starts_with};
ghost use Rattle.std.specs.Borrow.{Bor};
ghost use Rattle.line_words.specs.Parts.{texts};
ghost use Rattle.drill_script.specs.Tallies.{begins, lines_with, tally_in, tally_of_text};

use ikl_base::NoMemory;
use line_words::parts;
use std::alloc::Global;

/// How many acts of five kinds there are.
#[derive(Clone, Copy, Debug, PartialEq, Eq)]
pub struct Tally {
    pub sent: u64,
    pub gave: u64,
    pub clear: u64,
    pub dropped: u64,
    pub orders: u64,
}

// How many lines begin with these octets.
fn beginning(lines: &[&[u8]], front: &[u8]) -> u64
    ensures { result ≡ count_by (λ (line : Bor (List ℕ)). starts_with nat_eq line.now front.now) lines.now }
{
    lines.iter().filter(|line| line.starts_with(front)).count() as u64
}

// The same, of the texts of the lines.
fn count_with(lines: &[&[u8]], front: &[u8]) -> u64
    ensures { result ≡ lines_with front.now (texts lines.now) }
{
    beginning(lines, front)
}

fn tally_lines(lines: &[&[u8]]) -> Tally
    ensures { result ≡ tally_in (texts lines.now) }
{
    Tally {
        sent: count_with(lines, b"sent "),
        gave: count_with(lines, b"gave "),
        clear: count_with(lines, b"clear "),
        dropped: count_with(lines, b"drop "),
        orders: count_with(lines, b"order "),
    }
}

/// How many lines of a transcript say an act of each kind.
pub fn count_lines(alloc: Global, transcript: &[u8]) -> Result<Tally, NoMemory>
    ensures { IfOk result (λ t. t ≡ tally_of_text transcript.now) }
{
    let lines = parts(alloc, transcript, b'\n')?;
    Ok(tally_lines(lines.as_slice()))
}
