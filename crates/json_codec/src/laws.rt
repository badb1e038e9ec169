// What is accepted, said apart from how it is read.
ghost use Rattle.std.specs.Prelude.{◌≡◌, ◌∷◌, [], ℕ, List, Some, Ok, None, IsTrue, IsUtf8};
ghost use Rattle.ikeless_tree.specs.declared.entry.SpdEntry.{SpdEntry};
ghost use Rattle.ikeless_tree.specs.declared.sad.SadEntry.{SadEntry};
ghost use Rattle.ikeless_tree.specs.declared.command.Command.{Command};
ghost use Rattle.ikeless_tree.specs.Check.{spd_fault, sad_fault};
ghost use Rattle.json_codec.specs.CommandRead.{is_operation, operation_of, HasWindow, command_fault};
ghost use Rattle.json_codec.specs.Bodies.{spd_of, spd_entry_of, sad_entry_of, command_of};
ghost use Rattle.serde_json.specs.Read.{read};
ghost use Rattle.json_values.specs.Written.{one_policy, all_policies};
ghost use Rattle.json_tree.specs.SadEntryWritten.{one_sad_entry};
ghost use Rattle.json_codec.specs.CommandWritten.{command_data, IsWellFormed};
ghost use Rattle.ikeless_tree.specs.Typed.{IsTypedPolicy, AreTypedPolicies, IsTypedHalf, IsTypedCommand};
ghost use Rattle.json_values.specs.Json.{StandsFor, IsSpd, IsOneSpdEntry, IsOneSadEntry, IsCommand};

/// A body is read as a list of policies exactly where it stands for that list, and the list has no fault.
pub fn policies_are_accepted()
    ensures sound { (body : List ℕ) (es : List SpdEntry) → spd_of body ≡ Ok es
        → StandsFor body (λ d. IsSpd es d × (spd_fault es ≡ None)) }
    ensures complete { (body : List ℕ) (es : List SpdEntry)
        → StandsFor body (λ d. IsSpd es d × (spd_fault es ≡ None)) → spd_of body ≡ Ok es }
{}

/// A body is read as one policy exactly where it stands for that policy, which has no fault.
pub fn one_policy_is_accepted()
    ensures sound { (body : List ℕ) (e : SpdEntry) → spd_entry_of body ≡ Ok e
        → StandsFor body (λ d. IsOneSpdEntry e d × (spd_fault (e ∷ []) ≡ None)) }
    ensures complete { (body : List ℕ) (e : SpdEntry)
        → StandsFor body (λ d. IsOneSpdEntry e d × (spd_fault (e ∷ []) ≡ None)) → spd_entry_of body ≡ Ok e }
{}

/// A body is read as one half exactly where it stands for that half, which has no fault.
pub fn one_sad_entry_is_accepted()
    ensures sound { (body : List ℕ) (e : SadEntry) → sad_entry_of body ≡ Ok e
        → StandsFor body (λ d. IsOneSadEntry e d × (sad_fault e ≡ None)) }
    ensures complete { (body : List ℕ) (e : SadEntry)
        → StandsFor body (λ d. IsOneSadEntry e d × (sad_fault e ≡ None)) → sad_entry_of body ≡ Ok e }
{}

/// A body is read as a command of an operation exactly where it stands for that command, whose list has no fault.
pub fn commands_are_accepted()
    ensures sound { (op body : List ℕ) (c : Command) → IsTrue (is_operation op) → command_of op body ≡ Ok c
        → StandsFor body (λ d. IsCommand op c d × (command_fault c ≡ None)) }
    ensures complete { (op body : List ℕ) (c : Command)
        → StandsFor body (λ d. IsCommand op c d × (command_fault c ≡ None)) → command_of op body ≡ Ok c }
{}

/// What is written for policies is read as them: their numbers are those of their types, and the list has no fault.
pub fn policies_read_again()
    ensures { (text : List ℕ) (es : List SpdEntry) → AreTypedPolicies es → spd_fault es ≡ None
        → IsUtf8 text → read text ≡ Some (all_policies es) → spd_of text ≡ Ok es }
{}

/// What is written for one policy is read as it.
pub fn one_policy_reads_again()
    ensures { (text : List ℕ) (e : SpdEntry) → IsTypedPolicy e → spd_fault (e ∷ []) ≡ None
        → IsUtf8 text → read text ≡ Some (one_policy e) → spd_entry_of text ≡ Ok e }
{}

/// What is written for one half is read as it.
pub fn one_sad_entry_reads_again()
    ensures { (text : List ℕ) (e : SadEntry) → IsTypedHalf e → sad_fault e ≡ None
        → IsUtf8 text → read text ≡ Some (one_sad_entry e) → sad_entry_of text ≡ Ok e }
{
    yang_values::hex_read_again();
}

/// What is written for a command is read as it, where its window is one.
pub fn commands_read_again()
    ensures { (text : List ℕ) (c : Command) → IsTypedCommand c → IsWellFormed c → HasWindow c
        → IsUtf8 text → read text ≡ Some (command_data c) → command_of (operation_of c) text ≡ Ok c }
{
    yang_values::hex_read_again();
}
