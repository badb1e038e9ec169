// Addresses of both families.
ghost use Rattle.std.specs.Prelude.{◌≡◌, IfOk, ◌++◌};
ghost use Rattle.std.specs.List.{list_any, slice_split};
ghost use Rattle.yang_values.specs.HexText.{is_colon};
ghost use Rattle.yang_values.specs.Addresses.{is_dot, quad_of, double_colon, eight_from, v4_of, v6_of, address_of, address_text};
ghost use Rattle.ikl_base.specs.Answers.{Adds};

use crate::groups::{put_groups, read_eight, to_octets};
use crate::quad::{put_quad, read_quad};
use crate::value::BadValue;
use ikl_base::{Addr, NoMemory, Octets};
use std::alloc::Global;

// Whether the text has a colon.
fn has_colon(t: &[u8]) -> bool
    ensures { result ≡ list_any is_colon t.now }
{
    t.iter().any(|c| *c == b':')
}

// An IPv4 address.
fn read_v4(t: &[u8]) -> Result<Addr, BadValue>
    ensures { result ≡ v4_of (quad_of (slice_split is_dot t.now)) }
{
    match read_quad(t) {
        Ok(octets) => Ok(Addr::V4(octets)),
        Err(e) => Err(e),
    }
}

// An IPv6 address.
fn read_v6(t: &[u8]) -> Result<Addr, BadValue>
    ensures { result ≡ v6_of (eight_from t.now (double_colon t.now)) }
{
    match read_eight(t) {
        Some(groups) => Ok(Addr::V6(to_octets(&groups))),
        None => Err(BadValue::Form),
    }
}

/// Reads an address without a zone (RFC 6991 section 4): four decimal numbers without leading zeros, or IPv6 groups
/// with at most one `::`, which stands for at least one group.
///
/// `Form`: another spelling. `Range`: a decimal number above 255.
#[tactic(auto, unfolding(crate::specs::Addresses::address_of))]
pub fn read_address(t: &[u8]) -> Result<Addr, BadValue>
    ensures { result ≡ address_of t.now }
{
    if has_colon(t) { read_v6(t) } else { read_v4(t) }
}

/// Adds the canonical text of an address.
#[tactic(auto, unfolding(crate::specs::Addresses::address_text))]
pub fn put_address(out: &mut Vec<u8>, a: &Addr) -> Result<(), NoMemory>
    ensures { Adds result out.old.items (address_text a.now) out.new.items }
{
    match a {
        Addr::V4(octets) => put_quad(out, octets),
        Addr::V6(octets) => put_groups(out, octets),
    }
}

/// The canonical text of an address (RFC 5952 section 4 for IPv6): lower case without leading zeros, and `::` for the
/// longest run of two or more zero groups, the first of equal runs.
pub fn write_address(alloc: Global, a: &Addr) -> Result<Octets, NoMemory>
    ensures { IfOk result (λ text. text ≡ address_text a.now) }
{
    let mut out = Vec::new(alloc);
    put_address(&mut out, a)?;
    Ok(Octets::from_items(out))
}
