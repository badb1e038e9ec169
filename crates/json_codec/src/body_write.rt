// Writes bodies that are read again as what was written: the numbers of every value fit its types, so no call asks for that.
ghost use Rattle.std.specs.Prelude.{◌≡◌, ◌∷◌, [], None, Some, Ok, IfOk, IsUtf8};
ghost use Rattle.serde_json.specs.Read.{read};
ghost use Rattle.serde_json.specs.Written.{compact_text};
ghost use Rattle.ikeless_tree.specs.Check.{spd_fault, sad_fault};
ghost use Rattle.json_values.specs.Written.{one_policy, all_policies};
ghost use Rattle.json_tree.specs.SadEntryWritten.{one_sad_entry};
ghost use Rattle.json_codec.specs.Bodies.{spd_of, spd_entry_of, sad_entry_of};

use crate::laws::{one_policy_reads_again, one_sad_entry_reads_again, policies_read_again};
use ikeless_tree::{Entries, SadEntry, SpdEntry, policies_fit};
use ikl_base::{NoMemory, Octets};
use std::alloc::Global;

/// The body that has all policies.
pub fn write_spd(alloc: Global, list: &Entries) -> Result<Octets, NoMemory>
    requires { spd_fault list.now ≡ None }
    ensures text { IfOk result (λ text. text ≡ compact_text (all_policies list.now)) }
    ensures reads { IfOk result (λ text. read text ≡ Some (all_policies list.now)) }
    ensures utf8 { IfOk result (λ text. IsUtf8 text) }
    ensures again { IfOk result (λ text. spd_of text ≡ Ok list.now) }
{
    policies_fit(list);
    policies_read_again();
    json_tree::write_spd(alloc, list)
}

/// The body that has one policy, a list of one.
pub fn write_spd_entry(alloc: Global, e: &SpdEntry) -> Result<Octets, NoMemory>
    requires { spd_fault (e.now ∷ []) ≡ None }
    ensures text { IfOk result (λ text. text ≡ compact_text (one_policy e.now)) }
    ensures reads { IfOk result (λ text. read text ≡ Some (one_policy e.now)) }
    ensures utf8 { IfOk result (λ text. IsUtf8 text) }
    ensures again { IfOk result (λ text. spd_entry_of text ≡ Ok e.now) }
{
    e.numbers_fit();
    one_policy_reads_again();
    json_tree::write_spd_entry(alloc, e)
}

/// The body that has one half with its key, a list of one.
pub fn write_sad_entry(alloc: Global, e: &SadEntry) -> Result<Octets, NoMemory>
    requires { sad_fault e.now ≡ None }
    ensures text { IfOk result (λ text. text ≡ compact_text (one_sad_entry e.now)) }
    ensures reads { IfOk result (λ text. read text ≡ Some (one_sad_entry e.now)) }
    ensures utf8 { IfOk result (λ text. IsUtf8 text) }
    ensures again { IfOk result (λ text. sad_entry_of text ≡ Ok e.now) }
{
    e.numbers_fit();
    one_sad_entry_reads_again();
    json_tree::write_sad_entry(alloc, e)
}
