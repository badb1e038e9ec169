// Reads selectors, lifetimes and counts.
ghost use Rattle.serde_json.specs.View.{view, items_view};
ghost use Rattle.serde_json.specs.Find.{get, as_array};
ghost use Rattle.ikl_base.specs.Answers.{Gives};
ghost use Rattle.json_values.specs.Shapes.{seen, each_item, items_read};
ghost use Rattle.json_tree.specs.SelectorRead.{range_in, ports_in, side_in, selector_in, selector_of, limits_from, counts_in};

use ikeless_tree::{Limits, Ports, Range, Selector};
use ikl_base::{ListOf, OrMemory, Prefix};
use json_values::leaves::{count_or_zero, port, prefix, protocol, wide_or_zero};
use json_values::members::{is_counts, is_range, is_selector};
use json_values::{Fault, Kind, at_item, at_member, refused, within};
use serde_json::Value;
use std::alloc::Global;

/// The ports and the prefix of one side of a selector.
#[derive(Debug, Drop)]
struct Side {
    ports: Ports,
    prefix: Prefix,
}

#[tactic(auto, unfolding(crate::specs::SelectorRead::range_in))]
fn range(alloc: Global, value: &Value) -> Result<Range, OrMemory<Fault>>
    ensures { Gives result (range_in (view value.now)) }
{
    is_range(alloc, value)?;
    let end = at_member(alloc, b"end", port(value.get("end")))?;
    let start = at_member(alloc, b"start", port(value.get("start")))?;
    Ok(Range { start, end })
}

fn ranges(alloc: Global, items: &[Value]) -> Result<Ports, OrMemory<Fault>>
    ensures { Gives result (each_item range_in 0 (items_view items.now)) }
{
    let mut list = ListOf::new(alloc);
    for (place, item) in items.iter().enumerate() {
        match at_item(alloc, place, range(alloc, item)) {
            Ok(range) => list.push(range)?,
            Err(refused) => return Err(refused),
        }
    }
    Ok(list)
}

fn ranges_of(alloc: Global, value: &Value) -> Result<Ports, OrMemory<Fault>>
    ensures { Gives result (items_read range_in (as_array (view value.now))) }
{
    match value.as_array() {
        Some(items) => ranges(alloc, items.as_slice()),
        None => Err(refused(alloc, Kind::Form)),
    }
}

fn ports(alloc: Global, name: &str, leaf: Option<&Value>) -> Result<Ports, OrMemory<Fault>>
    ensures { Gives result (ports_in name.now (seen leaf.entry)) }
{
    match leaf {
        Some(value) => within(alloc, name.as_bytes(), ranges_of(alloc, value)),
        None => Ok(ListOf::new(alloc)),
    }
}

#[tactic(auto, unfolding(crate::specs::SelectorRead::side_in))]
fn side_of(
    alloc: Global,
    ports_name: &str,
    prefix_name: &str,
    value: &Value,
) -> Result<Side, OrMemory<Fault>>
    ensures { Gives result (side_in ports_name.now prefix_name.now (view value.now)) }
{
    let ports = ports(alloc, ports_name, value.get(ports_name))?;
    let prefix = at_member(
        alloc,
        prefix_name.as_bytes(),
        prefix(value.get(prefix_name)),
    )?;
    Ok(Side { ports, prefix })
}

/// Reads a selector.
#[tactic(auto, unfolding(crate::specs::SelectorRead::selector_in))]
pub fn read_selector(alloc: Global, value: &Value) -> Result<Selector, OrMemory<Fault>>
    ensures { Gives result (selector_in (view value.now)) }
{
    is_selector(alloc, value)?;
    let proto = at_member(
        alloc,
        b"inner-protocol",
        protocol(value.get("inner-protocol")),
    )?;
    let local = side_of(alloc, "local-ports", "local-prefix", value)?;
    let remote = side_of(alloc, "remote-ports", "remote-prefix", value)?;
    Ok(Selector {
        local: local.prefix,
        remote: remote.prefix,
        proto,
        local_ports: local.ports,
        remote_ports: remote.ports,
    })
}

/// Reads the selector of a member that is needed.
pub fn read_selector_member(
    alloc: Global,
    leaf: Option<&Value>,
) -> Result<Selector, OrMemory<Fault>>
    ensures { Gives result (selector_of (seen leaf.entry)) }
{
    match leaf {
        Some(value) => within(alloc, b"traffic-selector", read_selector(alloc, value)),
        None => Err(refused(alloc, Kind::Missing)),
    }
}

/// Reads the counts of an object, of which an absent one is 0.
#[tactic(auto, unfolding(crate::specs::SelectorRead::limits_from))]
pub(crate) fn limits_of(alloc: Global, value: &Value) -> Result<Limits, OrMemory<Fault>>
    ensures { Gives result (limits_from (view value.now)) }
{
    let bytes = at_member(alloc, b"bytes", wide_or_zero(value.get("bytes")))?;
    let idle = at_member(alloc, b"idle", count_or_zero(value.get("idle")))?;
    let packets = at_member(alloc, b"packets", count_or_zero(value.get("packets")))?;
    let time = at_member(alloc, b"time", count_or_zero(value.get("time")))?;
    Ok(Limits {
        time,
        bytes,
        packets,
        idle,
    })
}

/// Reads counts, all of which are needed.
#[tactic(auto, unfolding(crate::specs::SelectorRead::counts_in))]
pub fn read_counts(alloc: Global, value: &Value) -> Result<Limits, OrMemory<Fault>>
    ensures { Gives result (counts_in (view value.now)) }
{
    is_counts(alloc, value)?;
    limits_of(alloc, value)
}
