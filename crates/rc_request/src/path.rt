// List keys in paths, and the paths of entries as they are written.
ghost use Rattle.std.specs.Prelude.{◌≡◌, ◌==◌, ◌++◌, IfOk, OnOk, string_bytes};
ghost use Rattle.std.specs.List.{list_any};
ghost use Rattle.percent_encoding.specs.Percent as percent;
ghost use Rattle.ikeless_tree.specs.Check.{is_spd_name, is_sad_name};
ghost use Rattle.rc_request.specs.Paths.{escaped, key_of, policy_path, half_path};

use ikeless_tree::{names_half, names_policy};
use ikl_base::{Name, NoMemory, Octets};
use percent_encoding::{AsciiSet, NON_ALPHANUMERIC, ascii_set, percent_decode, percent_encode};
use std::alloc::Global;

/// What is escaped in a list key: all but letters, digits and `-._~` (RFC 3986 section 2.3).
const KEY: AsciiSet = ascii_set!(
    NON_ALPHANUMERIC
        .remove(b'-')
        .remove(b'.')
        .remove(b'_')
        .remove(b'~')
);

/// A text without its escapes.
pub(crate) fn decoded(alloc: Global, text: &[u8]) -> Result<Vec<u8>, NoMemory>
    ensures { IfOk result (λ octets. octets.items ≡ percent.percent_decode text.now) }
{
    let mut octets = Vec::new(alloc);
    percent_decode(text).append_to(&mut octets)?;
    Ok(octets)
}

fn has_slash(text: &[u8]) -> bool
    ensures { result ≡ list_any (λ c. c == 47) text.now }
{
    text.iter().any(|octet| *octet == b'/')
}

/// The name of a policy that stands in a path.
#[tactic(auto, unfolding(crate::specs::Paths::key_of))]
pub(crate) fn policy_key(alloc: Global, text: &[u8]) -> Result<Option<Name>, NoMemory>
    ensures { IfOk result (λ name. name ≡ key_of is_spd_name text.now) }
{
    if has_slash(text) {
        return Ok(None);
    }
    let name = decoded(alloc, text)?;
    if names_policy(name.as_slice()) {
        Ok(Some(Name::from_slice(alloc, name.as_slice())?))
    } else {
        Ok(None)
    }
}

/// The name of a half that stands in a path.
#[tactic(auto, unfolding(crate::specs::Paths::key_of))]
pub(crate) fn half_key(alloc: Global, text: &[u8]) -> Result<Option<Name>, NoMemory>
    ensures { IfOk result (λ name. name ≡ key_of is_sad_name text.now) }
{
    if has_slash(text) {
        return Ok(None);
    }
    let name = decoded(alloc, text)?;
    if names_half(name.as_slice()) {
        Ok(Some(Name::from_slice(alloc, name.as_slice())?))
    } else {
        Ok(None)
    }
}

// Appends a name as it is written in a path.
fn put_key(path: &mut String, name: &[u8]) -> Result<(), NoMemory>
    ensures { OnOk result (string_bytes path.new ≡ string_bytes path.old ++ escaped name.now) }
{
    Ok(percent_encode(name, KEY).append_to(path)?)
}

fn path_of(alloc: Global, front: &str, name: &Name) -> Result<Octets, NoMemory>
    ensures { IfOk result (λ path. path ≡ front.now ++ escaped name.now) }
{
    let mut path = String::from_str(alloc, front)?;
    put_key(&mut path, name.as_slice())?;
    Octets::from_slice(alloc, path.as_bytes())
}

/// The path of a policy.
pub fn path_of_policy(alloc: Global, name: &Name) -> Result<Octets, NoMemory>
    ensures { IfOk result (λ path. path ≡ policy_path name.now) }
{
    path_of(
        alloc,
        "/restconf/data/ietf-i2nsf-ikeless:ipsec-ikeless/spd/spd-entry=",
        name,
    )
}

/// The path of a half.
pub fn path_of_half(alloc: Global, name: &Name) -> Result<Octets, NoMemory>
    ensures { IfOk result (λ path. path ≡ half_path name.now) }
{
    path_of(
        alloc,
        "/restconf/data/ietf-i2nsf-ikeless:ipsec-ikeless/sad/sad-entry=",
        name,
    )
}
