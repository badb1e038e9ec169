// The events of notifications, read.
ghost use Rattle.std.specs.Prelude.{◌≡◌, Ok, Err};
ghost use Rattle.std.specs.List.{list_any};
ghost use Rattle.serde_json.specs.Find.{get};
ghost use Rattle.serde_json.specs.View.{view};
ghost use Rattle.ikl_base.specs.Answers.{Gives};
ghost use Rattle.ikeless_tree.specs.Check.{is_empty_range, has_empty_range, has_many_ranges};
ghost use Rattle.json_values.specs.Faults.{at_member};
ghost use Rattle.json_values.specs.Shapes.{seen};
ghost use Rattle.notice_lines.specs.Envelope.{needed_truth, whole, acquire_shape, acquire_in, expire_shape, counts_of, expire_in, overflow_shape, overflow_in, bad_spi_shape, bad_spi_in};

use ikeless_tree::{Limits, Notice, Range, Selector};
use ikl_base::OrMemory;
use json_tree::{read_counts, read_selector_member};
use json_values::names::{half_name, policy_name};
use json_values::{Fault, Kind, at_member, has_shape, number_of, within};
use serde_json::Value;
use std::alloc::Global;

const MOST_RANGES: usize = 8;

fn some_is_empty(ranges: &[Range]) -> bool
    ensures { result ≡ list_any is_empty_range ranges.now }
{
    ranges.iter().any(|range| range.end < range.start)
}

fn has_empty(selector: &Selector) -> bool
    ensures { result ≡ has_empty_range selector.now }
{
    some_is_empty(selector.local_ports.as_slice())
        || some_is_empty(selector.remote_ports.as_slice())
}

fn has_many(selector: &Selector) -> bool
    ensures { result ≡ has_many_ranges selector.now }
{
    selector.local_ports.len() > MOST_RANGES || selector.remote_ports.len() > MOST_RANGES
}

fn whole(alloc: Global, selector: Selector) -> Result<Selector, OrMemory<Fault>>
    ensures { Gives result (whole selector) }
{
    if has_empty(&selector) {
        return at_member(alloc, b"traffic-selector", Err(Kind::Range));
    }
    if has_many(&selector) {
        return at_member(alloc, b"traffic-selector", Err(Kind::Unsupported));
    }
    Ok(selector)
}

#[tactic(auto, unfolding(crate::specs::Envelope::acquire_shape))]
fn is_acquire(alloc: Global, value: &Value) -> Result<(), OrMemory<Fault>>
    ensures { Gives result (acquire_shape (view value.now)) }
{
    has_shape(
        alloc,
        &["ipsec-policy-name", "traffic-selector"],
        &["ipsec-policy-name", "traffic-selector"],
        value,
    )
}

#[tactic(auto, unfolding(crate::specs::Envelope::acquire_in))]
pub(crate) fn acquire(alloc: Global, value: &Value) -> Result<Notice, OrMemory<Fault>>
    ensures { Gives result (acquire_in (view value.now)) }
{
    is_acquire(alloc, value)?;
    let policy = policy_name(alloc, "ipsec-policy-name", value)?;
    let found = read_selector_member(alloc, value.get("traffic-selector"))?;
    let selector = whole(alloc, found)?;
    Ok(Notice::Acquire { policy, selector })
}

#[tactic(auto, unfolding(crate::specs::Envelope::expire_shape))]
fn is_expire(alloc: Global, value: &Value) -> Result<(), OrMemory<Fault>>
    ensures { Gives result (expire_shape (view value.now)) }
{
    has_shape(
        alloc,
        &["ipsec-sa-name", "lifetime-current", "soft-lifetime-expire"],
        &["ipsec-sa-name", "lifetime-current", "soft-lifetime-expire"],
        value,
    )
}

fn counts(alloc: Global, leaf: Option<&Value>) -> Result<Limits, OrMemory<Fault>>
    ensures { Gives result (counts_of (seen leaf.entry)) }
{
    match leaf {
        Some(value) => within(alloc, b"lifetime-current", read_counts(alloc, value)),
        None => at_member(alloc, b"lifetime-current", Err(Kind::Missing)),
    }
}

fn truth(leaf: Option<&Value>) -> Result<bool, Kind>
    ensures { result ≡ needed_truth (seen leaf.entry) }
{
    let Some(value) = leaf else {
        return Err(Kind::Missing);
    };
    match value.as_bool() {
        Some(truth) => Ok(truth),
        None => Err(Kind::Form),
    }
}

#[tactic(auto, unfolding(crate::specs::Envelope::expire_in))]
pub(crate) fn expire(alloc: Global, value: &Value) -> Result<Notice, OrMemory<Fault>>
    ensures { Gives result (expire_in (view value.now)) }
{
    is_expire(alloc, value)?;
    let name = half_name(alloc, "ipsec-sa-name", value)?;
    let current = counts(alloc, value.get("lifetime-current"))?;
    let soft = at_member(
        alloc,
        b"soft-lifetime-expire",
        truth(value.get("soft-lifetime-expire")),
    )?;
    Ok(Notice::Expire {
        name,
        soft,
        current,
    })
}

#[tactic(auto, unfolding(crate::specs::Envelope::overflow_shape))]
fn is_overflow(alloc: Global, value: &Value) -> Result<(), OrMemory<Fault>>
    ensures { Gives result (overflow_shape (view value.now)) }
{
    has_shape(alloc, &["ipsec-sa-name"], &["ipsec-sa-name"], value)
}

#[tactic(auto, unfolding(crate::specs::Envelope::overflow_in))]
pub(crate) fn overflow(alloc: Global, value: &Value) -> Result<Notice, OrMemory<Fault>>
    ensures { Gives result (overflow_in (view value.now)) }
{
    is_overflow(alloc, value)?;
    let name = half_name(alloc, "ipsec-sa-name", value)?;
    Ok(Notice::SeqOverflow { name })
}

#[tactic(auto, unfolding(crate::specs::Envelope::bad_spi_shape))]
fn is_bad_spi(alloc: Global, value: &Value) -> Result<(), OrMemory<Fault>>
    ensures { Gives result (bad_spi_shape (view value.now)) }
{
    has_shape(alloc, &["spi"], &["spi"], value)
}

#[tactic(auto, unfolding(crate::specs::Envelope::bad_spi_in))]
pub(crate) fn bad_spi(alloc: Global, value: &Value) -> Result<Notice, OrMemory<Fault>>
    ensures { Gives result (bad_spi_in (view value.now)) }
{
    is_bad_spi(alloc, value)?;
    let spi = at_member(alloc, b"spi", number_of(value.get("spi"), 0, u32::MAX))?;
    Ok(Notice::BadSpi { spi })
}
