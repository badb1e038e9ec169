// Names and octets, which are copied out of a value.
ghost use Rattle.std.specs.Prelude.{◌≡◌, length, Ok, Err, MatchResult};
ghost use Rattle.serde_json.specs.View.{view};
ghost use Rattle.ikl_base.specs.Answers.{Gives};
ghost use Rattle.ikeless_tree.specs.Check.{is_spd_name, is_sad_name, is_key_length, is_gateway};
ghost use Rattle.json_values.specs.Shapes.{seen};
ghost use Rattle.json_values.specs.Leaves.{name_leaf, octets_leaf, octets_from, key_leaf, name_in};

use crate::fault::{Fault, Kind, at_made, kind_of_value};
use crate::leaves::text_of;
use ikeless_tree::{names_gateway, names_half, names_policy};
use ikl_base::{Name, Octets, OrMemory};
use serde_json::Value;
use std::alloc::Global;
use yang_values::read_hex;

fn policy_text(leaf: Option<&Value>) -> Result<&str, Kind>
    ensures { MatchResult result (λ t. name_leaf is_spd_name (seen leaf.entry) ≡ Ok t.now)
        (λ kind. name_leaf is_spd_name (seen leaf.entry) ≡ Err kind) }
{
    match text_of(leaf) {
        Ok(text) if names_policy(text.as_bytes()) => Ok(text),
        Ok(_) => Err(Kind::Name),
        Err(kind) => Err(kind),
    }
}

fn half_text(leaf: Option<&Value>) -> Result<&str, Kind>
    ensures { MatchResult result (λ t. name_leaf is_sad_name (seen leaf.entry) ≡ Ok t.now)
        (λ kind. name_leaf is_sad_name (seen leaf.entry) ≡ Err kind) }
{
    match text_of(leaf) {
        Ok(text) if names_half(text.as_bytes()) => Ok(text),
        Ok(_) => Err(Kind::Name),
        Err(kind) => Err(kind),
    }
}

fn gateway_text(leaf: Option<&Value>) -> Result<&str, Kind>
    ensures { MatchResult result (λ t. name_leaf is_gateway (seen leaf.entry) ≡ Ok t.now)
        (λ kind. name_leaf is_gateway (seen leaf.entry) ≡ Err kind) }
{
    match text_of(leaf) {
        Ok(text) if names_gateway(text.as_bytes()) => Ok(text),
        Ok(_) => Err(Kind::Name),
        Err(kind) => Err(kind),
    }
}

fn policy_leaf(alloc: Global, leaf: Option<&Value>) -> Result<Name, OrMemory<Kind>>
    ensures { Gives result (name_leaf is_spd_name (seen leaf.entry)) }
{
    match policy_text(leaf) {
        Ok(text) => Ok(Name::from_slice(alloc, text.as_bytes())?),
        Err(kind) => Err(OrMemory::Refused(kind)),
    }
}

fn half_leaf(alloc: Global, leaf: Option<&Value>) -> Result<Name, OrMemory<Kind>>
    ensures { Gives result (name_leaf is_sad_name (seen leaf.entry)) }
{
    match half_text(leaf) {
        Ok(text) => Ok(Name::from_slice(alloc, text.as_bytes())?),
        Err(kind) => Err(OrMemory::Refused(kind)),
    }
}

fn gateway_leaf(alloc: Global, leaf: Option<&Value>) -> Result<Name, OrMemory<Kind>>
    ensures { Gives result (name_leaf is_gateway (seen leaf.entry)) }
{
    match gateway_text(leaf) {
        Ok(text) => Ok(Name::from_slice(alloc, text.as_bytes())?),
        Err(kind) => Err(OrMemory::Refused(kind)),
    }
}

/// The name of a policy, in the member of this name.
pub fn policy_name(alloc: Global, name: &str, value: &Value) -> Result<Name, OrMemory<Fault>>
    ensures { Gives result (name_in name.now is_spd_name (view value.now)) }
{
    at_made(alloc, name.as_bytes(), policy_leaf(alloc, value.get(name)))
}

/// The name of a half, in the member of this name.
pub fn half_name(alloc: Global, name: &str, value: &Value) -> Result<Name, OrMemory<Fault>>
    ensures { Gives result (name_in name.now is_sad_name (view value.now)) }
{
    at_made(alloc, name.as_bytes(), half_leaf(alloc, value.get(name)))
}

/// The name of a gateway, in the member of this name.
pub fn gateway(alloc: Global, name: &str, value: &Value) -> Result<Name, OrMemory<Fault>>
    ensures { Gives result (name_in name.now is_gateway (view value.now)) }
{
    at_made(alloc, name.as_bytes(), gateway_leaf(alloc, value.get(name)))
}

fn octets_of(alloc: Global, text: &str) -> Result<Octets, OrMemory<Kind>>
    ensures { Gives result (octets_from text.now) }
{
    match read_hex(alloc, text.as_bytes()) {
        Ok(octets) => Ok(octets),
        Err(OrMemory::NoMemory) => Err(OrMemory::NoMemory),
        Err(OrMemory::Refused(e)) => Err(OrMemory::Refused(kind_of_value(e))),
    }
}

/// The octets of a `hex-string` that is needed.
pub fn octets(alloc: Global, leaf: Option<&Value>) -> Result<Octets, OrMemory<Kind>>
    ensures { Gives result (octets_leaf (seen leaf.entry)) }
{
    match text_of(leaf) {
        Ok(text) => octets_of(alloc, text),
        Err(kind) => Err(OrMemory::Refused(kind)),
    }
}

fn has_length(key: &Octets) -> bool
    ensures { result ≡ is_key_length (length key.now) }
{
    let count = key.as_slice().len();
    count == 20 || count == 36
}

/// An AES key and its salt, as a `hex-string` that is needed.
pub fn key(alloc: Global, leaf: Option<&Value>) -> Result<Octets, OrMemory<Kind>>
    ensures { Gives result (key_leaf (seen leaf.entry)) }
{
    match octets(alloc, leaf) {
        Ok(key) => {
            if has_length(&key) {
                Ok(key)
            } else {
                Err(OrMemory::Refused(Kind::Range))
            }
        }
        Err(refused) => Err(refused),
    }
}
