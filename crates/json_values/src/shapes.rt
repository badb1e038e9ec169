// Objects by the names of their members.
ghost use Rattle.std.specs.Prelude.{◌≡◌, [], MatchResult, Result, Ok};
ghost use Rattle.std.specs.List.{list_any};
ghost use Rattle.std.specs.Fmt.{decimal};
ghost use Rattle.serde_json.specs.View.{view, members_view};
ghost use Rattle.ikl_base.specs.Answers.{Gives, Refuses};
ghost use Rattle.ikl_base.specs.declared.fault.OrMemory.TheVariants as failures;
ghost use Rattle.json_values.specs.Faults.{here, within};
ghost use Rattle.json_values.specs.Shapes.{names_in, is_among, has_unknown, lacks, shape, only_in};
ghost use Rattle.json_values.specs.declared.fault.Fault.{Fault};

use crate::build::Members;
use crate::fault::{Fault, Kind, at_value, within};
use ikl_base::{NoMemory, OrMemory};
use serde_json::Value;
use std::alloc::Global;
use yang_values::write_u64;

fn is_known(names: &[&str], key: &str) -> bool
    ensures { result ≡ is_among (names_in names.now) key.now }
{
    match names {
        [] => false,
        [name, rest @ ..] => key == *name || is_known(rest, key),
    }
}

fn some_is_unknown(names: &[&str], members: &Members) -> bool
    ensures { result ≡ has_unknown (names_in names.now) (members_view members.now.entries) }
{
    for (key, _) in members.iter() {
        if !is_known(names, key.as_str()) {
            return true;
        }
    }
    false
}

fn is_lacking(value: &Value, name: &str) -> bool
    ensures { result ≡ lacks (view value.now) name.now }
{
    value.get(name).is_none()
}

fn some_is_lacking(needed: &[&str], value: &Value) -> bool
    ensures { result ≡ list_any (lacks (view value.now)) (names_in needed.now) }
{
    match needed {
        [] => false,
        [name, rest @ ..] => is_lacking(value, name) || some_is_lacking(rest, value),
    }
}

/// A refusal of the value that is looked at.
pub fn refused(alloc: Global, kind: Kind) -> OrMemory<Fault>
    ensures { result ≡ failures.Refused (here kind) }
{
    OrMemory::Refused(at_value(alloc, kind))
}

/// Whether a value is an object of members with these names alone, the needed ones among them.
#[tactic(auto, unfolding(crate::specs::Shapes::shape))]
pub fn has_shape(
    alloc: Global,
    names: &[&str],
    needed: &[&str],
    value: &Value,
) -> Result<(), OrMemory<Fault>>
    ensures { Gives result (shape (names_in names.now) (names_in needed.now) (view value.now)) }
{
    match value.as_object() {
        None => Err(refused(alloc, Kind::Form)),
        Some(members) => {
            if some_is_unknown(names, members) {
                Err(refused(alloc, Kind::Unknown))
            } else if some_is_lacking(needed, value) {
                Err(refused(alloc, Kind::Missing))
            } else {
                Ok(())
            }
        }
    }
}

/// The value of the only member of an object.
#[tactic(auto, unfolding(crate::specs::Shapes::only_in))]
pub fn only<'a>(alloc: Global, name: &str, value: &'a Value) -> Result<&'a Value, OrMemory<Fault>>
    ensures { MatchResult result (λ v. only_in name.now (view value.now) ≡ Ok (view v.now))
        (λ e. Refuses e (only_in name.now (view value.now))) }
{
    match has_shape(alloc, &[name], &[name], value) {
        Err(refused) => Err(refused),
        Ok(()) => match value.get(name) {
            Some(inner) => Ok(inner),
            None => Err(refused(alloc, Kind::Missing)),
        },
    }
}

/// What was read of the item of this place.
pub fn at_item<T: Drop>(
    alloc: Global,
    place: usize,
    found: Result<T, OrMemory<Fault>>,
) -> Result<T, OrMemory<Fault>>
    ensures { (stated : Result T Fault) → Gives found stated → Gives result (within (decimal place) stated) }
{
    match found {
        Ok(x) => Ok(x),
        Err(e) => match write_u64(alloc, place as u64) {
            Ok(digits) => within(alloc, digits.as_slice(), Err(e)),
            Err(NoMemory) => Err(OrMemory::NoMemory),
        },
    }
}
