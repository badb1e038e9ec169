// Policies as JSON.
ghost use Rattle.std.specs.Prelude.{◌≡◌, ◌++◌, ◌∷◌, [], IsTrue, None, Some, IfOk, OnOk, IsUtf8, codes};
ghost use Rattle.std.specs.List.{list_all};
ghost use Rattle.serde_json.specs.Read.{read};
ghost use Rattle.serde_json.specs.Written.{compact_text};
ghost use Rattle.ikeless_tree.specs.Check.{is_spd_name, spd_fault};
ghost use Rattle.ikeless_tree.specs.Words.{action_text};
ghost use Rattle.json_values.specs.Written.{policy_data, spd_entry_data, spd_entry_items, spd_entries_data, one_policy, all_policies, only, word, is_named_well};
ghost use Rattle.json_values.specs.Tokens.{value_tokens, member_tokens, tokens_of_items};

use crate::selector_write::add_selector;
use ikeless_tree::{Action, Entries, SpdEntry, policies_fit};
use ikl_base::{NoMemory, Octets};
use json_values::Tokens;
use std::alloc::Global;

fn add_action(out: &mut Tokens, action: Action) -> Result<(), NoMemory>
    ensures { OnOk result (out.new
        ≡ out.old ++ member_tokens (codes "processing-info") (only (codes "action") (word (action_text action)))) }
{
    out.open_object("processing-info")?;
    out.word("action", action.text())?;
    out.end_object()
}

#[tactic(auto, unfolding(json_values::specs::Written::policy_data))]
fn add_policy(out: &mut Tokens, alloc: Global, entry: &SpdEntry) -> Result<(), NoMemory>
    ensures { OnOk result (out.new ≡ out.old ++ value_tokens (policy_data entry.now)) }
{
    out.begin_object()?;
    out.count("anti-replay-window-size", entry.window)?;
    add_action(out, entry.action)?;
    out.name("traffic-selector")?;
    add_selector(out, alloc, &entry.selector)?;
    out.end_object()
}

#[tactic(auto, unfolding(json_values::specs::Written::spd_entry_data))]
fn add_entry(out: &mut Tokens, alloc: Global, entry: &SpdEntry) -> Result<(), NoMemory>
    requires { IsTrue (is_spd_name entry.now.name) }
    ensures { OnOk result (out.new ≡ out.old ++ value_tokens (spd_entry_data entry.now)) }
{
    out.begin_object()?;
    out.word("direction", entry.direction.word())?;
    out.name("ipsec-policy-config")?;
    add_policy(out, alloc, entry)?;
    out.text("name", entry.name.as_slice())?;
    out.wide("reqid", entry.reqid)?;
    out.end_object()
}

// Policies, up to the bracket that closes their list.
fn add_entries(out: &mut Tokens, alloc: Global, list: &[SpdEntry]) -> Result<(), NoMemory>
    requires { IsTrue (list_all is_named_well list.now) }
    ensures { OnOk result (out.new ≡ out.old ++ tokens_of_items (spd_entry_items list.now)) }
{
    for item in list {
        add_entry(out, alloc, item)?;
    }
    out.end_array()
}

/// Adds the list of all policies.
pub fn add_policies(out: &mut Tokens, alloc: Global, list: &Entries) -> Result<(), NoMemory>
    requires { spd_fault list.now ≡ None }
    ensures { OnOk result (out.new ≡ out.old ++ value_tokens (spd_entries_data list.now)) }
{
    out.begin_array()?;
    add_entries(out, alloc, list.as_slice())
}

/// The body that has one policy, a list of one.
pub fn write_spd_entry(alloc: Global, e: &SpdEntry) -> Result<Octets, NoMemory>
    requires { spd_fault (e.now ∷ []) ≡ None }
    ensures text { IfOk result (λ text. text ≡ compact_text (one_policy e.now)) }
    ensures reads { IfOk result (λ text. read text ≡ Some (one_policy e.now)) }
    ensures utf8 { IfOk result (λ text. IsUtf8 text) }
{
    e.numbers_fit();
    let mut out = Tokens::new(alloc);
    out.begin_object()?;
    out.open_array("ietf-i2nsf-ikeless:spd-entry")?;
    add_entry(&mut out, alloc, e)?;
    out.end_array()?;
    out.end_object()?;
    Ok(out.into_octets())
}

/// The body that has all policies.
pub fn write_spd(alloc: Global, list: &Entries) -> Result<Octets, NoMemory>
    requires { spd_fault list.now ≡ None }
    ensures text { IfOk result (λ text. text ≡ compact_text (all_policies list.now)) }
    ensures reads { IfOk result (λ text. read text ≡ Some (all_policies list.now)) }
    ensures utf8 { IfOk result (λ text. IsUtf8 text) }
{
    policies_fit(list);
    let mut out = Tokens::new(alloc);
    out.begin_object()?;
    out.open_object("ietf-i2nsf-ikeless:spd")?;
    out.name("spd-entry")?;
    add_policies(&mut out, alloc, list)?;
    out.end_object()?;
    out.end_object()?;
    Ok(out.into_octets())
}
