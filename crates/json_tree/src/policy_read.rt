// Reads policies.
ghost use Rattle.std.specs.Prelude.{◌∷◌, [], codes, Some};
ghost use Rattle.serde_json.specs.View.{view, items_view};
ghost use Rattle.serde_json.specs.Find.{get, as_array};
ghost use Rattle.ikl_base.specs.Answers.{Gives};
ghost use Rattle.ikeless_tree.specs.Check.{spd_fault};
ghost use Rattle.json_values.specs.Faults.{at_member, checked};
ghost use Rattle.json_values.specs.Shapes.{seen, each_item, one_read};
ghost use Rattle.json_values.specs.Leaves.{direction_leaf, action_leaf};
ghost use Rattle.json_tree.specs.PolicyRead.{unset_in, word_in, window_in, reqid_in, suite_front, suite_back, suite_in, suite_of, processing_in, processing_of, policy_in, policy_of, spd_entry_in, entries_in, entries_of, database_in, all_entries, spd_in, one_entry, one_spd_entry_in};

use crate::selector_read::read_selector_member;
use ikeless_tree::{Action, Direction, Entries, Selector, SpdEntry, check_spd};
use ikl_base::{ListOf, OrMemory};
use json_values::leaves::{action, direction, has_word, is_unset, wide_or_zero, window_or_usual};
use json_values::members::{is_policy, is_processing, is_spd_entry, is_suite};
use json_values::names::policy_name;
use json_values::{Fault, Kind, at_item, at_made, at_member, kind_of_tree, only, refused, within};
use serde_json::Value;
use std::alloc::Global;

/// What is configured for a policy.
#[derive(Debug, Drop)]
struct PolicyConfig {
    window: u32,
    action: Action,
    selector: Selector,
}

/// A member that is false, as an absent one is.
pub(crate) fn unset(alloc: Global, name: &str, value: &Value) -> Result<(), OrMemory<Fault>>
    ensures { Gives result (unset_in name.now (view value.now)) }
{
    at_member(alloc, name.as_bytes(), is_unset(value.get(name)))
}

/// A member that has one word, as an absent one has.
pub(crate) fn worded(
    alloc: Global,
    name: &str,
    word: &str,
    value: &Value,
) -> Result<(), OrMemory<Fault>>
    ensures { Gives result (word_in name.now word.now (view value.now)) }
{
    at_member(alloc, name.as_bytes(), has_word(value.get(name), word))
}

pub(crate) fn window(alloc: Global, value: &Value) -> Result<u32, OrMemory<Fault>>
    ensures { Gives result (window_in (view value.now)) }
{
    at_member(
        alloc,
        b"anti-replay-window-size",
        window_or_usual(value.get("anti-replay-window-size")),
    )
}

pub(crate) fn reqid(alloc: Global, value: &Value) -> Result<u64, OrMemory<Fault>>
    ensures { Gives result (reqid_in (view value.now)) }
{
    at_member(alloc, b"reqid", wide_or_zero(value.get("reqid")))
}

#[tactic(auto, unfolding(crate::specs::PolicyRead::suite_front))]
fn suite_begins(alloc: Global, value: &Value) -> Result<(), OrMemory<Fault>>
    ensures { Gives result (suite_front (view value.now)) }
{
    unset(alloc, "ext-seq-num", value)?;
    worded(alloc, "mode", "tunnel", value)?;
    unset(alloc, "pfp-flag", value)
}

#[tactic(auto, unfolding(crate::specs::PolicyRead::suite_back))]
fn suite_ends(alloc: Global, value: &Value) -> Result<(), OrMemory<Fault>>
    ensures { Gives result (suite_back (view value.now)) }
{
    worded(alloc, "protocol-parameters", "esp", value)?;
    unset(alloc, "seq-overflow", value)?;
    unset(alloc, "stateful-frag-check", value)
}

#[tactic(auto, unfolding(crate::specs::PolicyRead::suite_in))]
fn suite(alloc: Global, value: &Value) -> Result<(), OrMemory<Fault>>
    ensures { Gives result (suite_in (view value.now)) }
{
    is_suite(alloc, value)?;
    suite_begins(alloc, value)?;
    suite_ends(alloc, value)
}

fn suite_member(alloc: Global, leaf: Option<&Value>) -> Result<(), OrMemory<Fault>>
    ensures { Gives result (suite_of (seen leaf.entry)) }
{
    match leaf {
        Some(value) => within(alloc, b"ipsec-sa-cfg", suite(alloc, value)),
        None => Ok(()),
    }
}

fn action_member(alloc: Global, value: &Value) -> Result<Action, OrMemory<Fault>>
    ensures { Gives result (at_member (codes "action") (action_leaf (get (codes "action") (view value.now)))) }
{
    at_member(alloc, b"action", action(value.get("action")))
}

#[tactic(auto, unfolding(crate::specs::PolicyRead::processing_in))]
fn processing(alloc: Global, value: &Value) -> Result<Action, OrMemory<Fault>>
    ensures { Gives result (processing_in (view value.now)) }
{
    is_processing(alloc, value)?;
    let action = action_member(alloc, value)?;
    suite_member(alloc, value.get("ipsec-sa-cfg"))?;
    Ok(action)
}

fn processing_member(alloc: Global, leaf: Option<&Value>) -> Result<Action, OrMemory<Fault>>
    ensures { Gives result (processing_of (seen leaf.entry)) }
{
    match leaf {
        Some(value) => within(alloc, b"processing-info", processing(alloc, value)),
        None => Ok(Action::Discard),
    }
}

#[tactic(auto, unfolding(crate::specs::PolicyRead::policy_in))]
fn policy(alloc: Global, value: &Value) -> Result<PolicyConfig, OrMemory<Fault>>
    ensures { Gives result (policy_in (view value.now)) }
{
    is_policy(alloc, value)?;
    let window = window(alloc, value)?;
    let action = processing_member(alloc, value.get("processing-info"))?;
    let selector = read_selector_member(alloc, value.get("traffic-selector"))?;
    Ok(PolicyConfig {
        window,
        action,
        selector,
    })
}

fn policy_member(alloc: Global, leaf: Option<&Value>) -> Result<PolicyConfig, OrMemory<Fault>>
    ensures { Gives result (policy_of (seen leaf.entry)) }
{
    match leaf {
        Some(value) => within(alloc, b"ipsec-policy-config", policy(alloc, value)),
        None => Err(refused(alloc, Kind::Missing)),
    }
}

fn direction_member(alloc: Global, value: &Value) -> Result<Direction, OrMemory<Fault>>
    ensures { Gives result (at_member (codes "direction") (direction_leaf (get (codes "direction") (view value.now)))) }
{
    at_member(alloc, b"direction", direction(value.get("direction")))
}

#[tactic(auto, unfolding(crate::specs::PolicyRead::spd_entry_in))]
fn entry(alloc: Global, value: &Value) -> Result<SpdEntry, OrMemory<Fault>>
    ensures { Gives result (spd_entry_in (view value.now)) }
{
    is_spd_entry(alloc, value)?;
    let direction = direction_member(alloc, value)?;
    let policy = policy_member(alloc, value.get("ipsec-policy-config"))?;
    let name = policy_name(alloc, "name", value)?;
    let reqid = reqid(alloc, value)?;
    Ok(SpdEntry {
        name,
        direction,
        reqid,
        window: policy.window,
        selector: policy.selector,
        action: policy.action,
    })
}

fn entries(alloc: Global, items: &[Value]) -> Result<Entries, OrMemory<Fault>>
    ensures { Gives result (each_item spd_entry_in 0 (items_view items.now)) }
{
    let mut list = ListOf::new(alloc);
    for (place, item) in items.iter().enumerate() {
        match at_item(alloc, place, entry(alloc, item)) {
            Ok(entry) => list.push(entry)?,
            Err(refused) => return Err(refused),
        }
    }
    Ok(list)
}

fn entries_from(alloc: Global, value: &Value) -> Result<Entries, OrMemory<Fault>>
    ensures { Gives result (entries_in (view value.now)) }
{
    match value.as_array() {
        Some(items) => entries(alloc, items.as_slice()),
        None => Err(refused(alloc, Kind::Form)),
    }
}

/// The policies of a member that is needed.
pub fn entries_member(alloc: Global, leaf: Option<&Value>) -> Result<Entries, OrMemory<Fault>>
    ensures { Gives result (entries_of (seen leaf.entry)) }
{
    match leaf {
        Some(value) => within(alloc, b"spd-entry", entries_from(alloc, value)),
        None => Err(refused(alloc, Kind::Missing)),
    }
}

#[tactic(auto, unfolding(crate::specs::PolicyRead::database_in))]
fn database(alloc: Global, value: &Value) -> Result<Entries, OrMemory<Fault>>
    ensures { Gives result (database_in (view value.now)) }
{
    match only(alloc, "spd-entry", value) {
        Ok(list) => within(alloc, b"spd-entry", entries_from(alloc, list)),
        Err(refused) => Err(refused),
    }
}

#[tactic(auto, unfolding(crate::specs::PolicyRead::all_entries))]
fn all(alloc: Global, value: &Value) -> Result<Entries, OrMemory<Fault>>
    ensures { Gives result (all_entries (view value.now)) }
{
    match only(alloc, "ietf-i2nsf-ikeless:spd", value) {
        Ok(inner) => within(alloc, b"ietf-i2nsf-ikeless:spd", database(alloc, inner)),
        Err(refused) => Err(refused),
    }
}

fn check(alloc: Global, list: Entries) -> Result<Entries, OrMemory<Fault>>
    ensures { Gives result (checked list (spd_fault list)) }
{
    match check_spd(&list) {
        Ok(()) => Ok(list),
        Err(fault) => Err(refused(alloc, kind_of_tree(fault))),
    }
}

/// All policies of a body.
#[tactic(auto, unfolding(crate::specs::PolicyRead::spd_in))]
pub fn spd(alloc: Global, value: &Value) -> Result<Entries, OrMemory<Fault>>
    ensures { Gives result (spd_in (view value.now)) }
{
    match all(alloc, value) {
        Ok(list) => check(alloc, list),
        Err(refused) => Err(refused),
    }
}

fn one_of(alloc: Global, value: &Value) -> Result<SpdEntry, OrMemory<Fault>>
    ensures { Gives result (one_read spd_entry_in (as_array (view value.now))) }
{
    let Some(items) = value.as_array() else {
        return Err(refused(alloc, Kind::Form));
    };
    match items.as_slice() {
        [item] => at_item(alloc, 0, entry(alloc, item)),
        [] => Err(refused(alloc, Kind::Missing)),
        [_, _, ..] => Err(refused(alloc, Kind::Missing)),
    }
}

#[tactic(auto, unfolding(crate::specs::PolicyRead::one_entry))]
fn one(alloc: Global, value: &Value) -> Result<SpdEntry, OrMemory<Fault>>
    ensures { Gives result (one_entry (view value.now)) }
{
    match only(alloc, "ietf-i2nsf-ikeless:spd-entry", value) {
        Ok(list) => within(alloc, b"ietf-i2nsf-ikeless:spd-entry", one_of(alloc, list)),
        Err(refused) => Err(refused),
    }
}

fn alone(alloc: Global, entry: SpdEntry) -> Result<Entries, OrMemory<Fault>>
    ensures { Gives result (checked (entry ∷ []) (spd_fault (entry ∷ []))) }
{
    let mut list = ListOf::new(alloc);
    list.push(entry)?;
    check(alloc, list)
}

fn check_one(alloc: Global, entry: SpdEntry) -> Result<SpdEntry, OrMemory<Fault>>
    ensures { Gives result (checked entry (spd_fault (entry ∷ []))) }
{
    match alone(alloc, entry) {
        Ok(list) => match list.into_items().pop() {
            Some(entry) => Ok(entry),
            None => Err(refused(alloc, Kind::Missing)),
        },
        Err(refused) => Err(refused),
    }
}

/// The one policy of a body.
#[tactic(auto, unfolding(crate::specs::PolicyRead::one_spd_entry_in))]
pub fn spd_entry(alloc: Global, value: &Value) -> Result<SpdEntry, OrMemory<Fault>>
    ensures { Gives result (one_spd_entry_in (view value.now)) }
{
    match one(alloc, value) {
        Ok(entry) => check_one(alloc, entry),
        Err(refused) => Err(refused),
    }
}
