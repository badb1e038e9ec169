// Selectors and counts as values of JSON.
ghost use Rattle.std.specs.Prelude.{◌≡◌, IfOk, OnOk};
ghost use Rattle.serde_json.specs.Data.{string, put as with_member};
ghost use Rattle.serde_json.specs.View.{view, items_view, members_view};
ghost use Rattle.yang_values.specs.Prefixes.{prefix_text};
ghost use Rattle.json_values.specs.Written.{range_data, range_items, with_ports, proto_data, selector_data};
ghost use Rattle.json_tree.specs.SadEntryWritten.{counts_data};

use ikeless_tree::{Limits, Range, Selector};
use ikl_base::{NoMemory, Prefix};
use json_values::{Members, put, put_count, put_text, put_wide};
use serde_json::{Map, Value};
use std::alloc::Global;
use yang_values::{plain_texts, write_prefix};

fn range_value(alloc: Global, range: &Range) -> Result<Value, NoMemory>
    ensures { IfOk result (λ v. view v ≡ range_data range.now) }
{
    let mut members = Map::new(alloc);
    put_count(&mut members, alloc, "start", u32::from(range.start))?;
    put_count(&mut members, alloc, "end", u32::from(range.end))?;
    Ok(Value::Object(members))
}

fn range_values(alloc: Global, ranges: &[Range]) -> Result<Vec<Value>, NoMemory>
    ensures { IfOk result (λ v. items_view v.items ≡ range_items ranges.now) }
{
    let mut values = Vec::new(alloc);
    for range in ranges {
        values.push(range_value(alloc, range)?)?;
    }
    Ok(values)
}

fn put_ports(
    members: &mut Members,
    alloc: Global,
    name: &str,
    ranges: &[Range],
) -> Result<(), NoMemory>
    ensures { OnOk result (members_view members.new.entries
        ≡ with_ports name.now ranges.now (members_view members.old.entries)) }
{
    if ranges.is_empty() {
        return Ok(());
    }
    let values = range_values(alloc, ranges)?;
    put(members, alloc, name, Value::Array(values))
}

fn put_prefix(
    members: &mut Members,
    alloc: Global,
    name: &str,
    prefix: &Prefix,
) -> Result<(), NoMemory>
    ensures { OnOk result (members_view members.new.entries
        ≡ with_member name.now (string (prefix_text prefix.now)) (members_view members.old.entries)) }
{
    prefix.addr.numbers_fit();
    plain_texts();
    let text = write_prefix(alloc, prefix)?;
    put_text(members, alloc, name, text.as_slice())
}

fn proto_value(alloc: Global, proto: Option<u8>) -> Result<Value, NoMemory>
    ensures { IfOk result (λ v. view v ≡ proto_data proto) }
{
    match proto {
        None => Ok(Value::try_from_str(alloc, "any")?),
        Some(n) => Ok(Value::from(n)),
    }
}

/// The object of a selector.
#[tactic(auto, unfolding(json_values::specs::Written::selector_data))]
pub fn selector_value(alloc: Global, selector: &Selector) -> Result<Value, NoMemory>
    ensures { IfOk result (λ v. view v ≡ selector_data selector.now) }
{
    let mut members = Map::new(alloc);
    put_prefix(&mut members, alloc, "remote-prefix", &selector.remote)?;
    put_ports(
        &mut members,
        alloc,
        "remote-ports",
        selector.remote_ports.as_slice(),
    )?;
    put_prefix(&mut members, alloc, "local-prefix", &selector.local)?;
    put_ports(
        &mut members,
        alloc,
        "local-ports",
        selector.local_ports.as_slice(),
    )?;
    put(
        &mut members,
        alloc,
        "inner-protocol",
        proto_value(alloc, selector.proto)?,
    )?;
    Ok(Value::Object(members))
}

/// The object of counts, each of which is written.
pub fn counts_value(alloc: Global, counts: &Limits) -> Result<Value, NoMemory>
    ensures { IfOk result (λ v. view v ≡ counts_data counts.now) }
{
    let mut members = Map::new(alloc);
    put_count(&mut members, alloc, "time", counts.time)?;
    put_count(&mut members, alloc, "packets", counts.packets)?;
    put_count(&mut members, alloc, "idle", counts.idle)?;
    put_wide(&mut members, alloc, "bytes", counts.bytes)?;
    Ok(Value::Object(members))
}
