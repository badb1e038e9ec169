// The command `replay`.
ghost use Rattle.std.specs.Prelude.{◌≡◌, ◌↔◌, ◌⊎◌, List, ℕ, IfSome, Some, true, false};
ghost use Rattle.ikl_base.specs.Outside.{Gains, Loses, HasRisen};
ghost use Rattle.ikl_base.specs.declared.status.Status.TheVariants as statuses;
ghost use Rattle.hist_acts.specs.declared.act.Act.{Act};
ghost use Rattle.script_lines.specs.Text.{text_of};
ghost use Rattle.ikeless_cli.specs.Script.{Taken};
ghost use Rattle.ikeless_cli.specs.Run.{Cause, IsHistoryOf, IsSafe, IsWhole, IsWritten, Ran, is_read_fault, is_write_fault};
ghost use Rattle.ikeless_cli.specs.Reader.{SinkTells};
ghost use Rattle.ikeless_cli.specs.Words.{is_replay};

use crate::reader::Reader;
use ikl_base::{Failed, Sink, Source, Status};
use std::alloc::Global;

const PIECE: usize = 65_536;
// One more than the octets of the longest script.
const TURNS: u64 = 67_108_865;

// Whether the words are `replay` alone.
fn are_replay(words: &[String]) -> bool
    ensures { result ≡ is_replay words.now }
{
    match words {
        [word] => word.as_bytes() == b"replay".as_slice(),
        _ => false,
    }
}

/// Reads a script to its end, and writes its transcript.
pub fn run<S: Source, K: Sink>(alloc: Global, input: &mut S, output: &mut K) -> Status
    ensures ran { (octets written : List ℕ) × Loses (S.left input.old) (S.left input.new) octets
        × Gains (K.written output.old) (K.written output.new) written × Ran result (S.left input.new) octets written }
    ensures source { is_read_fault result ≡ true → HasRisen (S.faults input.old) (S.faults input.new) }
    ensures sink { SinkTells (K.faults output.old) (K.faults output.new) (K.last_failed output.old) (K.last_failed output.new) (is_write_fault result) }
    ensures last { IfSome (S.last_failed input.new) (λ failed. failed ≡ is_read_fault result) }
{
    let mut reader = Reader::new(alloc);
    let mut buf = [0u8; PIECE];
    'turns: for _turn in 0..TURNS {
        let n = match input.read(&mut buf) {
            Ok(n) => n,
            Err(Failed) => return Status::ReadFault,
        };
        if n == 0 {
            return reader.at_end();
        }
        let (piece, _) = buf.split_at(n);
        match reader.take_piece(alloc, piece, output) {
            Ok(()) => (),
            Err(status) => return status,
        }
    }
    unreachable!()
}

/// Runs the script that the input gives, and writes its transcript. The words are `replay` alone.
///
/// `Done`: the input was read to its end and every line was taken. `Words`: the words aren't `replay`
/// alone; nothing is read or written. `Line`: the first line that isn't one of a script. `ReadFault`,
/// `WriteFault`: a device failed. `Forged`: the first forged arrival, with its line and octets.
/// `TooLong`: the octet after 64 MiB was read. `NoMemory`: memory ran out.
pub fn run_replay<S: Source, K: Sink>(
    alloc: Global,
    words: &[String],
    input: &mut S,
    output: &mut K,
) -> Status
    // The headline. The octets read are whole lines, which are a script up to there, and a rest. What was written is the text of
    // the one history of the events that the lines say, and that history is safe in its five parts: no packet whose first matching
    // policy says protect leaves in clear, no key and IV seal twice, each packet given from a tunnel was let in at its peer and is
    // given once, and each sealed packet that arrives unchanged, inside its window, before its inbound half is ordered removed is
    // given, unless that peer rebooted or met a hard lifetime. Each status has its cause.
    ensures headline { is_replay words.now ≡ true → (octets written : List ℕ) × Loses (S.left input.old) (S.left input.new) octets
        × Gains (K.written output.old) (K.written output.new) written
        × (taken : Taken octets) × (happened : List Act) × IsHistoryOf taken.header taken.events happened × IsSafe taken.header happened
        × IsWritten result written (text_of happened) × Cause result taken happened (S.left input.new) }
    // A whole script without a forged arrival is taken whole, over devices that don't fail, unless memory runs out.
    ensures complete { (script : List ℕ) → is_replay words.now ≡ true → S.left input.old ≡ Some script → IsWhole script
        → (HasRisen (S.faults input.old) (S.faults input.new) → ⊥) → (HasRisen (K.faults output.old) (K.faults output.new) → ⊥)
        → (result ≡ statuses.Done) ⊎ (result ≡ statuses.NoMemory) }
    ensures words { (result ≡ statuses.Words) ↔ (is_replay words.now ≡ false) }
    ensures untouched { result ≡ statuses.Words → (input.new ≡ input.old) × (output.new ≡ output.old) }
    ensures source { is_read_fault result ≡ true → HasRisen (S.faults input.old) (S.faults input.new) }
    ensures sink { SinkTells (K.faults output.old) (K.faults output.new) (K.last_failed output.old) (K.last_failed output.new) (is_write_fault result) }
    ensures last { is_replay words.now ≡ true → IfSome (S.last_failed input.new) (λ failed. failed ≡ is_read_fault result) }
{
    if are_replay(words) {
        run(alloc, input, output)
    } else {
        Status::Words
    }
}
