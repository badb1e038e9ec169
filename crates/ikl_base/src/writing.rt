// Writes of whole pieces to a sink.
ghost use Rattle.std.specs.Prelude.{◌≡◌, ◌++◌, List, ℕ, OnErr, OnOk};
ghost use Rattle.ikl_base.specs.Outside.{Gains, HasCause, HasFailed, IsCalm};

use crate::fault::Failed;
use crate::outside::Sink;

/// Writes all of a piece, in as many calls as the sink needs. Where one fails, a front of the piece was written.
pub fn write_all<K: Sink>(output: &mut K, piece: &[u8]) -> Result<(), Failed>
    ensures ok { OnOk result (Gains (K.written output.old) (K.written output.new) piece.now) }
    ensures err { OnErr result ((part more : List ℕ) × (part ++ more ≡ piece.now) × Gains (K.written output.old) (K.written output.new)
        part) }
    ensures cause { HasCause (K.faults output.old) (K.faults output.new) result }
    ensures calm { IsCalm (K.last_failed output.old) → OnOk result (IsCalm (K.last_failed output.new)) }
    ensures failed { OnErr result (HasFailed (K.last_failed output.new)) }
{
    let mut rest = piece;
    while !rest.is_empty() {
        match output.write(rest) {
            Ok(n) => {
                let (_, tail) = rest.split_at(n);
                rest = tail;
            }
            Err(Failed) => return Err(Failed),
        }
    }
    Ok(())
}
