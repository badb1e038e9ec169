// Writes single words and the words of policies.
ghost use Rattle.std.specs.Prelude.{◌≡◌, ◌++◌, ◌∷◌, [], OnOk, map};
ghost use Rattle.std.specs.Fmt.{decimal};
ghost use Rattle.line_words.specs.Text.{hex_text, spaced, proto_text, range_text, more_ranges_text, ports_text, prefixes_text, both_ports_text, selector_text, name_text, use_text, entry_text, entries_text};
ghost use Rattle.ikeless_tree.specs.Words.{action_text, direction_text, lane_text};

use ikeless_tree::{Action, Direction, Lane, Ports, Range, Selector, SpdEntry};
use ikl_base::{NoMemory, Octets};
use yang_values::{put_digits, put_number, put_prefix};

/// Adds a text.
pub fn put(out: &mut Vec<u8>, text: &[u8]) -> Result<(), NoMemory>
    ensures { OnOk result (out.new.items ≡ out.old.items ++ text.now) }
{
    Ok(out.extend_from_slice(text)?)
}

/// Adds an octet.
pub fn put_octet(out: &mut Vec<u8>, octet: u8) -> Result<(), NoMemory>
    ensures { OnOk result (out.new.items ≡ out.old.items ++ octet ∷ []) }
{
    Ok(out.push(octet)?)
}

fn put_hex(out: &mut Vec<u8>, octets: &[u8]) -> Result<(), NoMemory>
    ensures { OnOk result (out.new.items ≡ out.old.items ++ hex_text octets.now) }
{
    match octets {
        [] => put(out, b"-"),
        [_, ..] => put_digits(out, octets),
    }
}

fn put_direction(out: &mut Vec<u8>, direction: Direction) -> Result<(), NoMemory>
    ensures { OnOk result (out.new.items ≡ out.old.items ++ direction_text direction) }
{
    put(out, direction.text().as_bytes())
}

fn put_action(out: &mut Vec<u8>, action: Action) -> Result<(), NoMemory>
    ensures { OnOk result (out.new.items ≡ out.old.items ++ action_text action) }
{
    put(out, action.text().as_bytes())
}

fn put_proto(out: &mut Vec<u8>, proto: Option<u8>) -> Result<(), NoMemory>
    ensures { OnOk result (out.new.items ≡ out.old.items ++ proto_text proto) }
{
    match proto {
        None => put(out, b"any"),
        Some(n) => put_number(out, u64::from(n)),
    }
}

fn put_range(out: &mut Vec<u8>, range: &Range) -> Result<(), NoMemory>
    ensures { OnOk result (out.new.items ≡ out.old.items ++ range_text range.now) }
{
    put_number(out, u64::from(range.start))?;
    put_octet(out, b'-')?;
    put_number(out, u64::from(range.end))
}

fn put_more_ranges(out: &mut Vec<u8>, ranges: &[Range]) -> Result<(), NoMemory>
    ensures { OnOk result (out.new.items ≡ out.old.items ++ more_ranges_text ranges.now) }
{
    for range in ranges {
        put_octet(out, b'+')?;
        put_range(out, range)?;
    }
    Ok(())
}

fn put_ports(out: &mut Vec<u8>, ports: &Ports) -> Result<(), NoMemory>
    ensures { OnOk result (out.new.items ≡ out.old.items ++ ports_text ports.now) }
{
    match ports.as_slice() {
        [] => put(out, b"any"),
        [first, more @ ..] => {
            put_range(out, first)?;
            put_more_ranges(out, more)
        }
    }
}

fn put_prefixes(out: &mut Vec<u8>, selector: &Selector) -> Result<(), NoMemory>
    ensures { OnOk result (out.new.items ≡ out.old.items ++ prefixes_text selector.now) }
{
    put_prefix(out, &selector.local)?;
    put_octet(out, b',')?;
    put_prefix(out, &selector.remote)
}

fn put_both_ports(out: &mut Vec<u8>, selector: &Selector) -> Result<(), NoMemory>
    ensures { OnOk result (out.new.items ≡ out.old.items ++ both_ports_text selector.now) }
{
    put_ports(out, &selector.local_ports)?;
    put_octet(out, b',')?;
    put_ports(out, &selector.remote_ports)
}

/// A selector, with commas between its parts.
#[tactic(auto, unfolding(crate::specs::Text::selector_text))]
pub fn put_selector(out: &mut Vec<u8>, selector: &Selector) -> Result<(), NoMemory>
    ensures { OnOk result (out.new.items ≡ out.old.items ++ selector_text selector.now) }
{
    put_prefixes(out, selector)?;
    put_octet(out, b',')?;
    put_proto(out, selector.proto)?;
    put_octet(out, b',')?;
    put_both_ports(out, selector)
}

fn put_name(out: &mut Vec<u8>, entry: &SpdEntry) -> Result<(), NoMemory>
    ensures { OnOk result (out.new.items ≡ out.old.items ++ name_text entry.now) }
{
    put(out, entry.name.as_slice())?;
    put_octet(out, b',')?;
    put_direction(out, entry.direction)
}

fn put_use(out: &mut Vec<u8>, entry: &SpdEntry) -> Result<(), NoMemory>
    ensures { OnOk result (out.new.items ≡ out.old.items ++ use_text entry.now) }
{
    put_number(out, entry.reqid)?;
    put_octet(out, b',')?;
    put_action(out, entry.action)
}

#[tactic(auto, unfolding(crate::specs::Text::entry_text))]
fn put_entry(out: &mut Vec<u8>, entry: &SpdEntry) -> Result<(), NoMemory>
    ensures { OnOk result (out.new.items ≡ out.old.items ++ entry_text entry.now) }
{
    put_name(out, entry)?;
    put_octet(out, b',')?;
    put_use(out, entry)?;
    put_octet(out, b',')?;
    put_selector(out, &entry.selector)
}

fn put_entries(out: &mut Vec<u8>, list: &[SpdEntry]) -> Result<(), NoMemory>
    ensures { OnOk result (out.new.items ≡ out.old.items ++ entries_text list.now) }
{
    for entry in list {
        put_octet(out, b' ')?;
        put_entry(out, entry)?;
    }
    Ok(())
}

/// A word after a space.
pub fn put_word(out: &mut Vec<u8>, word: &[u8]) -> Result<(), NoMemory>
    ensures { OnOk result (out.new.items ≡ out.old.items ++ 32 ∷ word.now) }
{
    put_octet(out, b' ')?;
    put(out, word)
}

/// A number after a space.
pub fn put_number_word(out: &mut Vec<u8>, n: u64) -> Result<(), NoMemory>
    ensures { OnOk result (out.new.items ≡ out.old.items ++ 32 ∷ decimal n) }
{
    put_octet(out, b' ')?;
    put_number(out, n)
}

/// Octets as digits after a space.
pub fn put_hex_word(out: &mut Vec<u8>, octets: &Octets) -> Result<(), NoMemory>
    ensures { OnOk result (out.new.items ≡ out.old.items ++ 32 ∷ hex_text octets.now) }
{
    put_octet(out, b' ')?;
    put_hex(out, octets.as_slice())
}

/// A lane after a space.
pub fn put_lane_word(out: &mut Vec<u8>, lane: Lane) -> Result<(), NoMemory>
    ensures { OnOk result (out.new.items ≡ out.old.items ++ 32 ∷ lane_text lane) }
{
    put_word(out, lane.text().as_bytes())
}

/// Entries, each after a space.
pub fn put_entry_words(out: &mut Vec<u8>, list: &[SpdEntry]) -> Result<(), NoMemory>
    ensures { OnOk result (out.new.items ≡ out.old.items ++ spaced (map entry_text list.now)) }
{
    put_entries(out, list)?;
    Ok(())
}
