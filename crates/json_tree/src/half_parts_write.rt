// Parts of halves as JSON: lifetimes, counts, addresses and keys.
ghost use Rattle.std.specs.Prelude.{◌≡◌, ◌++◌, OnOk, codes, option_map};
ghost use Rattle.serde_json.specs.Data.{string, no_members};
ghost use Rattle.yang_values.specs.Addresses.{address_text};
ghost use Rattle.yang_values.specs.HexText.{hex_colons};
ghost use Rattle.json_values.specs.Written.{only};
ghost use Rattle.json_values.specs.Tokens.{value_tokens, member_tokens, tokens_of_members};
ghost use Rattle.json_tree.specs.SadEntryWritten.{with_count, with_wide, limits_members, has_no_limits, with_lifetime, with_soft, tunnel_data, encryption_data, with_key, counts_data};

use ikeless_tree::{Limits, SadEntry};
use ikl_base::{Addr, NoMemory};
use json_values::{Tokens, are_octets};
use std::alloc::Global;
use yang_values::{plain_texts, write_address, write_hex};

const AES_GCM: u32 = 20;

// A member that is a number, unless that is 0.
fn add_count_if(out: &mut Tokens, name: &str, n: u32) -> Result<(), NoMemory>
    ensures { OnOk result (out.new ≡ out.old ++ tokens_of_members (with_count name.now n no_members)) }
{
    if n == 0 {
        return Ok(());
    }
    out.count(name, n)
}

// A member that is a number of 64 bits, unless that is 0.
fn add_wide_if(out: &mut Tokens, name: &str, n: u64) -> Result<(), NoMemory>
    ensures { OnOk result (out.new ≡ out.old ++ tokens_of_members (with_wide name.now n no_members)) }
{
    if n == 0 {
        return Ok(());
    }
    out.wide(name, n)
}

// The members that limits have.
fn add_limits(out: &mut Tokens, limits: &Limits) -> Result<(), NoMemory>
    ensures { OnOk result (out.new ≡ out.old ++ tokens_of_members (limits_members limits.now)) }
{
    add_wide_if(out, "bytes", limits.bytes)?;
    add_count_if(out, "idle", limits.idle)?;
    add_count_if(out, "packets", limits.packets)?;
    add_count_if(out, "time", limits.time)
}

fn is_unlimited(limits: &Limits) -> bool
    ensures { result ≡ has_no_limits limits.now }
{
    limits.time == 0 && limits.bytes == 0 && limits.packets == 0 && limits.idle == 0
}

/// Adds a lifetime, unless it has no limits.
pub fn add_lifetime(out: &mut Tokens, name: &str, lifetime: &Limits) -> Result<(), NoMemory>
    ensures { OnOk result (out.new
        ≡ out.old ++ tokens_of_members (with_lifetime name.now lifetime.now no_members)) }
{
    if is_unlimited(lifetime) {
        return Ok(());
    }
    out.open_object(name)?;
    add_limits(out, lifetime)?;
    out.end_object()
}

/// Adds a soft lifetime, unless it has no limits.
pub(crate) fn add_soft(out: &mut Tokens, lifetime: &Limits) -> Result<(), NoMemory>
    ensures { OnOk result (out.new
        ≡ out.old ++ tokens_of_members (with_soft lifetime.now no_members)) }
{
    if is_unlimited(lifetime) {
        return Ok(());
    }
    out.open_object("sa-lifetime-soft")?;
    out.word("action", "replace")?;
    add_limits(out, lifetime)?;
    out.end_object()
}

/// Adds the counts of a half, each of which is written.
pub(crate) fn add_counts(out: &mut Tokens, counts: &Limits) -> Result<(), NoMemory>
    ensures { OnOk result (out.new
        ≡ out.old ++ member_tokens (codes "sa-lifetime-current") (counts_data counts.now)) }
{
    out.open_object("sa-lifetime-current")?;
    out.wide("bytes", counts.bytes)?;
    out.count("idle", counts.idle)?;
    out.count("packets", counts.packets)?;
    out.count("time", counts.time)?;
    out.end_object()
}

fn add_address(out: &mut Tokens, alloc: Global, name: &str, address: &Addr) -> Result<(), NoMemory>
    ensures { OnOk result (out.new
        ≡ out.old ++ member_tokens name.now (string (address_text address.now))) }
{
    address.numbers_fit();
    plain_texts();
    let text = write_address(alloc, address)?;
    out.text(name, text.as_slice())
}

/// Adds the ends of the tunnel of a half.
#[tactic(auto, unfolding(crate::specs::SadEntryWritten::tunnel_data))]
pub(crate) fn add_tunnel(out: &mut Tokens, alloc: Global, entry: &SadEntry) -> Result<(), NoMemory>
    ensures { OnOk result (out.new ≡ out.old ++ member_tokens (codes "tunnel") (tunnel_data entry.now)) }
{
    out.open_object("tunnel")?;
    out.word("df-bit", entry.df.text())?;
    add_address(out, alloc, "local", &entry.local)?;
    add_address(out, alloc, "remote", &entry.remote)?;
    out.end_object()
}

/// Adds a member of octets, as a `hex-string`.
pub fn add_hex(out: &mut Tokens, alloc: Global, name: &str, octets: &[u8]) -> Result<(), NoMemory>
    ensures { OnOk result (out.new ≡ out.old ++ member_tokens name.now (string (hex_colons octets.now))) }
{
    are_octets(octets);
    let text = write_hex(alloc, octets)?;
    out.text(name, text.as_slice())
}

fn add_key(out: &mut Tokens, alloc: Global, key: Option<&[u8]>) -> Result<(), NoMemory>
    ensures { OnOk result (out.new
        ≡ out.old ++ tokens_of_members (with_key (option_map (λ k. k.now) key.entry) no_members)) }
{
    match key {
        None => Ok(()),
        Some(octets) => add_hex(out, alloc, "key", octets),
    }
}

fn add_encryption(out: &mut Tokens, alloc: Global, octets: Option<&[u8]>) -> Result<(), NoMemory>
    ensures { OnOk result (out.new
        ≡ out.old ++ member_tokens (codes "encryption") (encryption_data (option_map (λ k. k.now) octets.entry))) }
{
    out.open_object("encryption")?;
    out.count("encryption-algorithm", AES_GCM)?;
    add_key(out, alloc, octets)?;
    out.end_object()
}

/// Adds what seals, with a key or without one.
pub(crate) fn add_suite(out: &mut Tokens, alloc: Global, key: Option<&[u8]>) -> Result<(), NoMemory>
    ensures { OnOk result (out.new ≡ out.old ++ member_tokens (codes "esp-sa")
        (only (codes "encryption") (encryption_data (option_map (λ k. k.now) key.entry)))) }
{
    out.open_object("esp-sa")?;
    add_encryption(out, alloc, key)?;
    out.end_object()
}
