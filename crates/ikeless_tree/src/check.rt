// The faults of what is to be put into the databases.
ghost use Rattle.std.specs.Prelude.{◌≡◌, MatchResult, OnOk, None, Some, []};
ghost use Rattle.std.specs.List.{list_any, list_all};
ghost use Rattle.ikl_base.specs.Address.{AreOneFamily};
ghost use Rattle.ikeless_tree.specs.Check.{is_word_octet, is_path_octet, is_spd_name, is_serial, has_front, is_sad_name, is_window, is_empty_range, has_empty_range, has_many_ranges, is_named, entry_fault, entries_fault, spd_fault, is_gateway_octet, is_gateway, is_key_length, sad_fault};

use crate::entry::{Entries, Range, Selector, SpdEntry};
use crate::fault::{Feature, TreeFault};
use crate::sad::SadEntry;

const MOST_ENTRIES: usize = 256;

const MOST_RANGES: usize = 8;

fn is_word(octet: u8) -> bool
    ensures { result ≡ is_word_octet octet }
{
    octet.is_ascii_uppercase()
        || octet.is_ascii_lowercase()
        || octet.is_ascii_digit()
        || octet == b'.'
        || octet == b'_'
        || octet == b'-'
}

fn is_path(octet: u8) -> bool
    ensures { result ≡ is_path_octet octet }
{
    is_word(octet) || octet == b'/'
}

fn are_words(text: &[u8]) -> bool
    ensures { result ≡ list_all is_word_octet text.now }
{
    text.iter().all(|octet| is_word(*octet))
}

fn are_paths(text: &[u8]) -> bool
    ensures { result ≡ list_all is_path_octet text.now }
{
    text.iter().all(|octet| is_path(*octet))
}

/// Whether this is the name of a policy: 1 to 64 letters, digits and `.`, `_`, `/`, `-`.
pub fn names_policy(name: &[u8]) -> bool
    ensures { result ≡ is_spd_name name.now }
{
    1 <= name.len() && name.len() <= 64 && are_paths(name)
}

fn names_serial(text: &[u8]) -> bool
    ensures { result ≡ is_serial text.now }
{
    1 <= text.len() && text.len() <= 60 && are_words(text)
}

fn begins_with(front: &[u8], name: &[u8]) -> bool
    ensures { result ≡ has_front front.now name.now }
{
    if front.len() > name.len() {
        return false;
    }
    let (start, serial) = name.split_at(front.len());
    start == front && names_serial(serial)
}

/// Whether this is the name of an association: `in/` or `out/`, and 1 to 60 letters, digits and `.`, `_`, `-`.
pub fn names_half(name: &[u8]) -> bool
    ensures { result ≡ is_sad_name name.now }
{
    begins_with(b"in/", name) || begins_with(b"out/", name)
}

fn is_gateway_letter(octet: u8) -> bool
    ensures { result ≡ is_gateway_octet octet }
{
    octet.is_ascii_lowercase() || octet.is_ascii_digit()
}

fn are_gateway_letters(text: &[u8]) -> bool
    ensures { result ≡ list_all is_gateway_octet text.now }
{
    text.iter().all(|octet| is_gateway_letter(*octet))
}

/// Whether this is the name of a gateway: 1 to 32 lower case letters and digits.
pub fn names_gateway(name: &[u8]) -> bool
    ensures { result ≡ is_gateway name.now }
{
    1 <= name.len() && name.len() <= 32 && are_gateway_letters(name)
}

fn fits_window(size: u32) -> bool
    ensures { result ≡ is_window size }
{
    32 <= size && size <= 4096
}

fn some_is_empty(ranges: &[Range]) -> bool
    ensures { result ≡ list_any is_empty_range ranges.now }
{
    ranges.iter().any(|range| range.end < range.start)
}

fn has_empty(selector: &Selector) -> bool
    ensures { result ≡ has_empty_range selector.now }
{
    some_is_empty(selector.local_ports.as_slice())
        || some_is_empty(selector.remote_ports.as_slice())
}

fn has_many(selector: &Selector) -> bool
    ensures { result ≡ has_many_ranges selector.now }
{
    selector.local_ports.len() > MOST_RANGES || selector.remote_ports.len() > MOST_RANGES
}

fn some_is_named(before: &[SpdEntry], name: &[u8]) -> bool
    ensures { result ≡ list_any (is_named name.now) before.now }
{
    before.iter().any(|entry| entry.name.as_slice() == name)
}

#[tactic(auto, unfolding(crate::specs::Check::entry_fault))]
fn fault_of(before: &[SpdEntry], entry: &SpdEntry) -> Option<TreeFault>
    ensures { result ≡ entry_fault before.now entry.now }
{
    if some_is_named(before, entry.name.as_slice()) {
        Some(TreeFault::DuplicateName)
    } else if !names_policy(entry.name.as_slice()) {
        Some(TreeFault::BadName)
    } else if !fits_window(entry.window) {
        Some(TreeFault::BadWindow)
    } else if has_empty(&entry.selector) {
        Some(TreeFault::EmptyRange)
    } else if has_many(&entry.selector) {
        Some(TreeFault::Unsupported(Feature::Ports))
    } else {
        None
    }
}

fn first_fault(list: &[SpdEntry]) -> Option<TreeFault>
    ensures { result ≡ entries_fault [] list.now }
{
    for (i, entry) in list.iter().enumerate() {
        let (before, _) = list.split_at(i);
        let fault = fault_of(before, entry);
        if fault.is_some() {
            return fault;
        }
    }
    None
}

/// The first fault of a list of policies: too many entries before all others, then the first entry
/// with a fault, and in it the first fault in the order of the variants.
#[tactic(auto, unfolding(crate::specs::Check::spd_fault))]
pub fn check_spd(list: &Entries) -> Result<(), TreeFault>
    ensures { MatchResult result (λ _. spd_fault list.now ≡ None) (λ fault. spd_fault list.now ≡ Some fault) }
{
    if list.len() > MOST_ENTRIES {
        return Err(TreeFault::TooMany);
    }
    match first_fault(list.as_slice()) {
        None => Ok(()),
        Some(fault) => Err(fault),
    }
}

/// The first fault of an association, in the order of the variants.
#[tactic(auto, unfolding(crate::specs::Check::sad_fault))]
pub fn check_sad(e: &SadEntry) -> Result<(), TreeFault>
    ensures first { MatchResult result (λ _. sad_fault e.now ≡ None) (λ fault. sad_fault e.now ≡ Some fault) }
    ensures family { OnOk result (AreOneFamily e.now.local e.now.remote) }
{
    let key = e.key.as_slice().len();
    if !names_half(e.name.as_slice()) {
        Err(TreeFault::BadName)
    } else if e.spi < 256 {
        Err(TreeFault::BadSpi)
    } else if key != 20 && key != 36 {
        Err(TreeFault::BadKeyLength)
    } else if !fits_window(e.window) {
        Err(TreeFault::BadWindow)
    } else if has_empty(&e.selector) {
        Err(TreeFault::EmptyRange)
    } else if has_many(&e.selector) {
        Err(TreeFault::Unsupported(Feature::Ports))
    } else if !e.local.is_same_family(&e.remote) {
        Err(TreeFault::Unsupported(Feature::Tunnel))
    } else {
        Ok(())
    }
}
