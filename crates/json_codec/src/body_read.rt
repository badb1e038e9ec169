// Reads bodies.
ghost use Rattle.std.specs.Prelude.{◌≡◌, Some, IsTrue, MatchResult};
ghost use Rattle.serde_json.specs.View.{view};
ghost use Rattle.ikl_base.specs.Answers.{Gives};
ghost use Rattle.json_codec.specs.CommandRead.{is_operation};
ghost use Rattle.json_codec.specs.Bodies.{json_of, IsNoJson, spd_of, spd_entry_of, sad_entry_of, command_of};

use crate::command_read::command;
use ikeless_tree::{Command, Entries, SadEntry, SpdEntry};
use ikl_base::{Name, OrMemory};
use json_tree::{sad_entry, spd, spd_entry};
use json_values::{CodecFault, answer, not_json};
use serde_json::Value;
use std::alloc::Global;

#[tactic(auto, using(crate::proofs::JsonText::json_is_read, crate::proofs::JsonText::json_is_unread))]
fn json(alloc: Global, body: &[u8]) -> Result<Value, OrMemory<CodecFault>>
    ensures { MatchResult result (λ v. json_of body.now ≡ Some (view v)) (λ e. IsNoJson e (json_of body.now)) }
{
    match Value::from_slice(alloc, body) {
        Ok(value) => Ok(value),
        Err(e) => {
            if e.is_memory() {
                Err(OrMemory::NoMemory)
            } else {
                Err(OrMemory::Refused(not_json()))
            }
        }
    }
}

/// Reads the policies of a body.
///
/// The fault is the first of the walk through the value: at an object its unknown members, then the absent ones, then
/// the values in ascending order of the members' names; at a leaf its kind or spelling, then its range, then a value
/// that isn't supported. What is wrong with the list as a whole comes last.
pub fn read_spd(alloc: Global, body: &[u8]) -> Result<Entries, OrMemory<CodecFault>>
    ensures { Gives result (spd_of body.now) }
{
    match json(alloc, body) {
        Ok(value) => answer(spd(alloc, &value)),
        Err(refused) => Err(refused),
    }
}

/// Reads the one policy of a body, a list of one. The fault is the first, as in `read_spd`.
pub fn read_spd_entry(alloc: Global, body: &[u8]) -> Result<SpdEntry, OrMemory<CodecFault>>
    ensures { Gives result (spd_entry_of body.now) }
{
    match json(alloc, body) {
        Ok(value) => answer(spd_entry(alloc, &value)),
        Err(refused) => Err(refused),
    }
}

/// Reads the one half of a body, a list of one, with its key. The fault is the first, as in `read_spd`.
pub fn read_sad_entry(alloc: Global, body: &[u8]) -> Result<SadEntry, OrMemory<CodecFault>>
    ensures { Gives result (sad_entry_of body.now) }
{
    match json(alloc, body) {
        Ok(value) => answer(sad_entry(alloc, &value)),
        Err(refused) => Err(refused),
    }
}

/// Reads the command that a body gives to an operation. The fault is the first, as in `read_spd`.
pub fn read_command(
    alloc: Global,
    operation: &Name,
    body: &[u8],
) -> Result<Command, OrMemory<CodecFault>>
    requires { IsTrue (is_operation operation.now) }
    ensures { Gives result (command_of operation.now body.now) }
{
    match json(alloc, body) {
        Ok(value) => answer(command(alloc, operation.as_slice(), &value)),
        Err(refused) => Err(refused),
    }
}
