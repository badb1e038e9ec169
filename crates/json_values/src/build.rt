// Values of JSON, built member by member.
ghost use Rattle.std.specs.Prelude.{◌≡◌, ◌≤◌, false, Some, IfOk, OnOk, IsUtf8};
ghost use Rattle.serde_json.specs.Read.{read, max_depth};
ghost use Rattle.serde_json.specs.Written.{compact_text, has_float};
ghost use Rattle.serde_json.specs.Data.{depth, string, put as with_member};
ghost use Rattle.serde_json.specs.View.{view, members_view};
ghost use Rattle.json_values.specs.Written.{count, wide, only};
ghost use Rattle.ikeless_tree.specs.Typed.{AreOctets};

use ikl_base::{NoMemory, Octets};
use serde_json::{Map, Value};
use std::alloc::Global;
use yang_values::write_u64;

/// The members of an object.
pub type Members = Map<String, Value>;

/// A string of these octets.
pub(crate) fn text(alloc: Global, octets: &[u8]) -> Result<Value, NoMemory>
    requires { IsUtf8 octets.now }
    ensures { IfOk result (λ v. view v ≡ string octets.now) }
{
    match String::from_utf8(Vec::from_slice(alloc, octets)?) {
        Ok(string) => Ok(Value::String(string)),
        Err(_) => Err(NoMemory),
    }
}

/// Puts a member into an object.
pub fn put(members: &mut Members, alloc: Global, name: &str, value: Value) -> Result<(), NoMemory>
    ensures { OnOk result (members_view members.new.entries
        ≡ with_member name.now (view value) (members_view members.old.entries)) }
{
    Ok(serde_json::put(members, alloc, name, value)?)
}

/// Puts a string into an object.
pub fn put_word(
    members: &mut Members,
    alloc: Global,
    name: &str,
    word: &str,
) -> Result<(), NoMemory>
    ensures { OnOk result (members_view members.new.entries
        ≡ with_member name.now (string word.now) (members_view members.old.entries)) }
{
    let value = Value::try_from_str(alloc, word)?;
    put(members, alloc, name, value)
}

/// Puts a string of octets into an object.
pub fn put_text(
    members: &mut Members,
    alloc: Global,
    name: &str,
    octets: &[u8],
) -> Result<(), NoMemory>
    requires { IsUtf8 octets.now }
    ensures { OnOk result (members_view members.new.entries
        ≡ with_member name.now (string octets.now) (members_view members.old.entries)) }
{
    let value = text(alloc, octets)?;
    put(members, alloc, name, value)
}

/// Puts a number of at most 32 bits into an object.
pub fn put_count(members: &mut Members, alloc: Global, name: &str, n: u32) -> Result<(), NoMemory>
    ensures { OnOk result (members_view members.new.entries
        ≡ with_member name.now (count n) (members_view members.old.entries)) }
{
    put(members, alloc, name, Value::from(n))
}

/// Puts a number of 64 bits into an object, as a string.
pub fn put_wide(members: &mut Members, alloc: Global, name: &str, n: u64) -> Result<(), NoMemory>
    ensures { OnOk result (members_view members.new.entries
        ≡ with_member name.now (wide n) (members_view members.old.entries)) }
{
    let digits = write_u64(alloc, n)?;
    put_text(members, alloc, name, digits.as_slice())
}

/// An object of one member.
pub fn single(alloc: Global, name: &str, value: Value) -> Result<Value, NoMemory>
    ensures { IfOk result (λ v. view v ≡ only name.now (view value)) }
{
    let mut members = Map::new(alloc);
    put(&mut members, alloc, name, value)?;
    Ok(Value::Object(members))
}

/// The compact text of a value, which is read again as that value.
pub fn written(alloc: Global, value: &Value) -> Result<Octets, NoMemory>
    requires plain { has_float (view value.now) ≡ false }
    requires shallow { depth (view value.now) ≤ max_depth }
    ensures text { IfOk result (λ text. text ≡ compact_text (view value.now)) }
    ensures reads { IfOk result (λ text. read text ≡ Some (view value.now)) }
    ensures utf8 { IfOk result (λ text. IsUtf8 text) }
{
    Ok(Octets::from_items(value.to_vec(alloc)?))
}

/// Each octet is below 256.
pub fn are_octets(octets: &[u8])
    ensures { AreOctets octets.now }
{
    let _count = octets.len();
}
