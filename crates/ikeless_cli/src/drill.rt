// The command `drill`.
ghost use Rattle.std.specs.Prelude.{◌≡◌, ◌⊎◌, ◌++◌, List, ℕ, Ok, IfOk};
ghost use Rattle.ikl_base.specs.Outside.{Gains, HasRisen};
ghost use Rattle.ikl_base.specs.declared.status.Status.TheVariants as statuses;
ghost use Rattle.live_words.specs.Client.{drill_words_of};
ghost use Rattle.ikeless_cli.specs.Drill.{DrillWrote, IsDrilled, wants_memory};
ghost use Rattle.ikeless_cli.specs.Reader.{SinkTells};
ghost use Rattle.ikeless_cli.specs.Run.{is_write_fault};

use crate::replay::run;
use crate::status::exit_number;
use drill_script::{Growing, count_lines, lines_count_acts, write_drill, write_summary};
use ikl_base::{Failed, MemorySource, NoMemory, Octets, OrMemory, Sink, Status, write_all};
use live_words::read_drill_words;
use std::alloc::Global;

const PIECE: usize = 65_536;

// Whether memory ran out in a run whose sink fails only for that.
fn is_cut_short(status: &Status) -> bool
    ensures { result ≡ wants_memory status.now }
{
    matches!(status, Status::NoMemory | Status::WriteFault)
}

// The line of the drill of a number: its script is run, and the acts of its transcript are counted.
fn line_of(alloc: Global, n: u64) -> Result<Octets, NoMemory>
    ensures { IfOk result (λ line. IsDrilled n line) }
{
    let script = write_drill(alloc, n)?;
    let mut input = MemorySource::new(script.as_slice(), PIECE);
    let mut transcript = Growing::new(alloc);
    let status = run(alloc, &mut input, &mut transcript);
    if is_cut_short(&status) {
        return Err(NoMemory);
    }
    acts_spell::reads_what_is_spelled();
    acts_spell::every_history_is_spelled();
    lines_count_acts();
    let tally = count_lines(alloc, transcript.octets.as_slice())?;
    write_summary(alloc, n, &tally, exit_number(&status))
}

// Writes the line.
fn put_line<K: Sink>(output: &mut K, line: &[u8]) -> Status
    ensures done { result ≡ statuses.Done → Gains (K.written output.old) (K.written output.new) line.now }
    ensures fault { result ≡ statuses.WriteFault → (part more : List ℕ) × (part ++ more ≡ line.now) × Gains (K.written output.old) (K.written output.new) part }
    ensures either { (result ≡ statuses.Done) ⊎ (result ≡ statuses.WriteFault) }
    ensures sink { SinkTells (K.faults output.old) (K.faults output.new) (K.last_failed output.old) (K.last_failed output.new) (is_write_fault result) }
{
    match write_all(output, line) {
        Ok(()) => Status::Done,
        Err(Failed) => Status::WriteFault,
    }
}

/// Runs the drill of a number in memory, and writes its line.
///
/// `Done`: the line was written. `Words`: the words aren't `drill` and a number. `WriteFault`: the sink failed. `NoMemory`: memory
/// ran out, and nothing was written.
pub fn run_drill<K: Sink>(alloc: Global, words: &[String], output: &mut K) -> Status
    // The line says the counts of the one history that `replay` has for the script, and its exit number. It was written whole where
    // the drill is done, a front of it where the sink failed, and else nothing.
    ensures drilled { DrillWrote result (drill_words_of words.now) (K.written output.old) (K.written output.new) }
    // With the command's words and a sink that doesn't fail the drill is done, unless memory runs out.
    ensures complete { (n : ℕ) → drill_words_of words.now ≡ Ok n → (HasRisen (K.faults output.old) (K.faults output.new) → ⊥)
        → (result ≡ statuses.Done) ⊎ (result ≡ statuses.NoMemory) }
    ensures untouched { result ≡ statuses.Words → output.new ≡ output.old }
    ensures sink { SinkTells (K.faults output.old) (K.faults output.new) (K.last_failed output.old) (K.last_failed output.new) (is_write_fault result) }
{
    let n = match read_drill_words(alloc, words) {
        Ok(n) => n,
        Err(OrMemory::Refused(_)) => return Status::Words,
        Err(OrMemory::NoMemory) => return Status::NoMemory,
    };
    match line_of(alloc, n) {
        Ok(line) => put_line(output, line.as_slice()),
        Err(NoMemory) => Status::NoMemory,
    }
}
