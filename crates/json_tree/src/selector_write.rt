// Selectors as JSON.
ghost use Rattle.std.specs.Prelude.{◌≡◌, ◌++◌, OnOk, codes};
ghost use Rattle.serde_json.specs.Data.{string, no_members};
ghost use Rattle.yang_values.specs.Prefixes.{prefix_text};
ghost use Rattle.json_values.specs.Written.{range_data, range_items, with_ports, proto_data, selector_data};
ghost use Rattle.json_values.specs.Tokens.{value_tokens, member_tokens, tokens_of_members, tokens_of_items};

use ikeless_tree::{Range, Selector};
use ikl_base::{NoMemory, Prefix};
use json_values::Tokens;
use std::alloc::Global;
use yang_values::{plain_texts, write_prefix};

fn add_range(out: &mut Tokens, range: &Range) -> Result<(), NoMemory>
    ensures { OnOk result (out.new ≡ out.old ++ value_tokens (range_data range.now)) }
{
    out.begin_object()?;
    out.count("end", u32::from(range.end))?;
    out.count("start", u32::from(range.start))?;
    out.end_object()
}

// Ranges, up to the bracket that closes their list.
fn add_ranges(out: &mut Tokens, list: &[Range]) -> Result<(), NoMemory>
    ensures { OnOk result (out.new ≡ out.old ++ tokens_of_items (range_items list.now)) }
{
    for item in list {
        add_range(out, item)?;
    }
    out.end_array()
}

fn add_ports(out: &mut Tokens, name: &str, list: &[Range]) -> Result<(), NoMemory>
    ensures { OnOk result (out.new
        ≡ out.old ++ tokens_of_members (with_ports name.now list.now no_members)) }
{
    if list.is_empty() {
        return Ok(());
    }
    out.open_array(name)?;
    add_ranges(out, list)
}

/// Adds a member that is a prefix.
pub fn add_prefix(
    out: &mut Tokens,
    alloc: Global,
    name: &str,
    prefix: &Prefix,
) -> Result<(), NoMemory>
    ensures { OnOk result (out.new ≡ out.old ++ member_tokens name.now (string (prefix_text prefix.now))) }
{
    prefix.addr.numbers_fit();
    plain_texts();
    let text = write_prefix(alloc, prefix)?;
    out.text(name, text.as_slice())
}

fn add_protocol(out: &mut Tokens, proto: Option<u8>) -> Result<(), NoMemory>
    ensures { OnOk result (out.new ≡ out.old ++ member_tokens (codes "inner-protocol") (proto_data proto)) }
{
    match proto {
        None => out.word("inner-protocol", "any"),
        Some(n) => out.count("inner-protocol", u32::from(n)),
    }
}

/// Adds the object of a selector.
#[tactic(auto, unfolding(json_values::specs::Written::selector_data))]
pub(crate) fn add_selector(
    out: &mut Tokens,
    alloc: Global,
    selector: &Selector,
) -> Result<(), NoMemory>
    ensures { OnOk result (out.new ≡ out.old ++ value_tokens (selector_data selector.now)) }
{
    out.begin_object()?;
    add_protocol(out, selector.proto)?;
    add_ports(out, "local-ports", selector.local_ports.as_slice())?;
    add_prefix(out, alloc, "local-prefix", &selector.local)?;
    add_ports(out, "remote-ports", selector.remote_ports.as_slice())?;
    add_prefix(out, alloc, "remote-prefix", &selector.remote)?;
    out.end_object()
}
