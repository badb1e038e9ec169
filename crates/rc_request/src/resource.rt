// Which resource a path means.
ghost use Rattle.std.specs.Prelude.{◌≡◌, ◌==◌, codes, Option, Some, IfOk};
ghost use Rattle.std.specs.Option.{option_copied, option_map};
ghost use Rattle.ikeless_tree.specs.Check.{is_spd_name, is_sad_name};
ghost use Rattle.rc_request.specs.Paths.{after_front, key_of, database_at, or_half, resource_in, resource_of};
ghost use Rattle.rc_request.specs.declared.resource.Resource.TheVariants as resources;

use crate::path::{half_key, policy_key};
use ikl_base::{Name, NoMemory};
use std::alloc::Global;

/// A resource of the container ipsec-ikeless (RFC 9061 section 5.3).
#[derive(Debug, Drop)]
pub enum Resource {
    Spd,
    SpdEntry(Name),
    Sad,
    SadEntry(Name),
}

/// What stands behind a front, where the text has it.
pub(crate) fn behind<'a>(front: &[u8], text: &'a [u8]) -> Option<&'a [u8]>
    ensures { option_copied result ≡ after_front front.now text.now }
{
    text.strip_prefix(front)
}

fn database(text: &[u8]) -> Option<Resource>
    ensures { result ≡ database_at text.now }
{
    if text == b"/spd".as_slice() {
        Some(Resource::Spd)
    } else if text == b"/sad".as_slice() {
        Some(Resource::Sad)
    } else {
        None
    }
}

fn policy(alloc: Global, key: &[u8]) -> Result<Option<Resource>, NoMemory>
    ensures { IfOk result (λ r. r ≡ option_map resources.SpdEntry (key_of is_spd_name key.now)) }
{
    match policy_key(alloc, key)? {
        Some(name) => Ok(Some(Resource::SpdEntry(name))),
        None => Ok(None),
    }
}

fn half(alloc: Global, key: &[u8]) -> Result<Option<Resource>, NoMemory>
    ensures { IfOk result (λ r. r ≡ option_map resources.SadEntry (key_of is_sad_name key.now)) }
{
    match half_key(alloc, key)? {
        Some(name) => Ok(Some(Resource::SadEntry(name))),
        None => Ok(None),
    }
}

fn half_or_database(alloc: Global, text: &[u8]) -> Result<Option<Resource>, NoMemory>
    ensures { IfOk result (λ r. r ≡ or_half text.now (after_front (codes "/sad/sad-entry=") text.now)) }
{
    match behind(b"/sad/sad-entry=", text) {
        Some(key) => half(alloc, key),
        None => Ok(database(text)),
    }
}

fn inside(alloc: Global, text: &[u8]) -> Result<Option<Resource>, NoMemory>
    ensures { IfOk result (λ r. r ≡ resource_in text.now) }
{
    match behind(b"/spd/spd-entry=", text) {
        Some(key) => policy(alloc, key),
        None => half_or_database(alloc, text),
    }
}

/// The resource of a path.
#[tactic(auto, unfolding(crate::specs::Paths::resource_of))]
pub(crate) fn resource_at(alloc: Global, path: &[u8]) -> Result<Option<Resource>, NoMemory>
    ensures { IfOk result (λ r. r ≡ resource_of path.now) }
{
    match behind(b"/restconf/data/ietf-i2nsf-ikeless:ipsec-ikeless", path) {
        Some(text) => inside(alloc, text),
        None => Ok(None),
    }
}
