// Halves as JSON.
ghost use Rattle.std.specs.Prelude.{◌≡◌, ◌++◌, None, Some, true, IsTrue, IfOk, OnOk, IsUtf8, codes, option_map};
ghost use Rattle.std.specs.List.{list_all};
ghost use Rattle.serde_json.specs.Read.{read};
ghost use Rattle.serde_json.specs.Data.{Data, no_members};
ghost use Rattle.serde_json.specs.Written.{compact_text};
ghost use Rattle.ikeless_tree.specs.Check.{is_sad_name, sad_fault};
ghost use Rattle.json_values.specs.Tokens.{value_tokens, member_tokens, tokens_of_members, tokens_of_items};
ghost use Rattle.json_tree.specs.SadEntryWritten.{with_fixed, with_lifetime, with_soft, with_sealing, with_ends, config_data, sad_entry_data, state_data, row_data, row_items, one_sad_entry, one_row, all_rows, is_row_named, ArePassed, is_free_of};

use crate::half_parts_write::{add_counts, add_lifetime, add_soft, add_suite, add_tunnel};
use crate::selector_write::add_selector;
use ikeless_tree::{Rows, SaState, SadEntry, SadRow, rows_fit};
use ikl_base::{NoMemory, Octets};
use json_values::Tokens;
use std::alloc::Global;

// In which window and how is sealed.
#[tactic(auto, unfolding(crate::specs::SadEntryWritten::with_sealing))]
fn add_sealing(
    out: &mut Tokens,
    alloc: Global,
    window: u32,
    key: Option<&[u8]>,
) -> Result<(), NoMemory>
    ensures { OnOk result (out.new
        ≡ out.old ++ tokens_of_members (with_sealing window (option_map (λ k. k.now) key.entry) no_members)) }
{
    out.count("anti-replay-window-size", window)?;
    add_suite(out, alloc, key)
}

// The index, the selector and the tunnel's ends.
#[tactic(auto, unfolding(crate::specs::SadEntryWritten::with_ends))]
fn add_ends(out: &mut Tokens, alloc: Global, entry: &SadEntry) -> Result<(), NoMemory>
    ensures { OnOk result (out.new ≡ out.old ++ tokens_of_members (with_ends entry.now no_members)) }
{
    out.count("spi", entry.spi)?;
    out.name("traffic-selector")?;
    add_selector(out, alloc, &entry.selector)?;
    add_tunnel(out, alloc, entry)
}

// What is configured between the suite and the ends.
fn add_lasting(out: &mut Tokens, entry: &SadEntry) -> Result<(), NoMemory>
    ensures { OnOk result (out.new ≡ out.old ++ tokens_of_members
        (with_fixed (with_lifetime (codes "sa-lifetime-hard") entry.now.hard (with_soft entry.now.soft no_members)))) }
{
    out.flag("ext-seq-num", false)?;
    out.word("mode", "tunnel")?;
    out.word("protocol-parameters", "esp")?;
    add_lifetime(out, "sa-lifetime-hard", &entry.hard)?;
    add_soft(out, &entry.soft)?;
    out.flag("seq-overflow", false)
}

#[tactic(auto, unfolding(crate::specs::SadEntryWritten::config_data))]
fn add_config(
    out: &mut Tokens,
    alloc: Global,
    entry: &SadEntry,
    key: Option<&[u8]>,
) -> Result<(), NoMemory>
    ensures { OnOk result (out.new
        ≡ out.old ++ member_tokens (codes "ipsec-sa-config") (config_data entry.now (option_map (λ k. k.now) key.entry))) }
{
    out.open_object("ipsec-sa-config")?;
    add_sealing(out, alloc, entry.window, key)?;
    add_lasting(out, entry)?;
    add_ends(out, alloc, entry)?;
    out.end_object()
}

#[tactic(auto, unfolding(crate::specs::SadEntryWritten::sad_entry_data))]
fn add_half(out: &mut Tokens, alloc: Global, entry: &SadEntry) -> Result<(), NoMemory>
    requires { IsTrue (is_sad_name entry.now.name) }
    ensures { OnOk result (out.new ≡ out.old ++ value_tokens (sad_entry_data entry.now)) }
{
    out.begin_object()?;
    add_config(out, alloc, entry, Some(entry.key.as_slice()))?;
    out.text("name", entry.name.as_slice())?;
    out.wide("reqid", entry.reqid)?;
    out.end_object()
}

#[tactic(auto, unfolding(crate::specs::SadEntryWritten::state_data))]
fn add_state(out: &mut Tokens, state: &SaState) -> Result<(), NoMemory>
    ensures { OnOk result (out.new ≡ out.old ++ member_tokens (codes "ipsec-sa-state") (state_data state.now)) }
{
    out.open_object("ipsec-sa-state")?;
    out.open_object("replay-stats")?;
    out.wide("last-sequence", state.top)?;
    out.end_object()?;
    add_counts(out, &state.current)?;
    out.end_object()
}

#[tactic(auto, unfolding(crate::specs::SadEntryWritten::row_data, crate::specs::SadEntryWritten::with_state))]
fn add_row(out: &mut Tokens, alloc: Global, row: &SadRow) -> Result<(), NoMemory>
    requires { IsTrue (is_row_named row.now) }
    ensures { OnOk result (out.new ≡ out.old ++ value_tokens (row_data row.now)) }
{
    out.begin_object()?;
    add_config(out, alloc, &row.entry, None)?;
    add_state(out, &row.state)?;
    out.text("name", row.entry.name.as_slice())?;
    out.wide("reqid", row.entry.reqid)?;
    out.end_object()
}

// Rows, up to the bracket that closes their list.
fn add_rows(out: &mut Tokens, alloc: Global, list: &[SadRow]) -> Result<(), NoMemory>
    requires { IsTrue (list_all is_row_named list.now) }
    ensures { OnOk result (out.new ≡ out.old ++ tokens_of_items (row_items list.now)) }
{
    for item in list {
        add_row(out, alloc, item)?;
    }
    out.end_array()
}

/// The body that has one half with its key, a list of one.
pub fn write_sad_entry(alloc: Global, e: &SadEntry) -> Result<Octets, NoMemory>
    requires { sad_fault e.now ≡ None }
    ensures text { IfOk result (λ text. text ≡ compact_text (one_sad_entry e.now)) }
    ensures reads { IfOk result (λ text. read text ≡ Some (one_sad_entry e.now)) }
    ensures utf8 { IfOk result (λ text. IsUtf8 text) }
{
    e.numbers_fit();
    let mut out = Tokens::new(alloc);
    out.begin_object()?;
    out.open_array("ietf-i2nsf-ikeless:sad-entry")?;
    add_half(&mut out, alloc, e)?;
    out.end_array()?;
    out.end_object()?;
    Ok(out.into_octets())
}

/// The body that has all halves with their states, and no keys.
pub fn write_sad(alloc: Global, rows: &Rows) -> Result<Octets, NoMemory>
    requires { ArePassed rows.now }
    ensures text { IfOk result (λ text. text ≡ compact_text (all_rows rows.now)) }
    ensures reads { IfOk result (λ text. read text ≡ Some (all_rows rows.now)) }
    ensures keyless { IfOk result (λ text. (d : Data) × (read text ≡ Some d) × (is_free_of (codes "key") d ≡ true)) }
    ensures utf8 { IfOk result (λ text. IsUtf8 text) }
{
    rows_fit(rows);
    let mut out = Tokens::new(alloc);
    out.begin_object()?;
    out.open_object("ietf-i2nsf-ikeless:sad")?;
    out.open_array("sad-entry")?;
    add_rows(&mut out, alloc, rows.as_slice())?;
    out.end_object()?;
    out.end_object()?;
    Ok(out.into_octets())
}

/// The body that has one half with its state and without its key, a list of one.
pub fn write_sad_row(alloc: Global, row: &SadRow) -> Result<Octets, NoMemory>
    requires { sad_fault row.now.entry ≡ None }
    ensures text { IfOk result (λ text. text ≡ compact_text (one_row row.now)) }
    ensures reads { IfOk result (λ text. read text ≡ Some (one_row row.now)) }
    ensures keyless { IfOk result (λ text. (d : Data) × (read text ≡ Some d) × (is_free_of (codes "key") d ≡ true)) }
    ensures utf8 { IfOk result (λ text. IsUtf8 text) }
{
    row.numbers_fit();
    let mut out = Tokens::new(alloc);
    out.begin_object()?;
    out.open_array("ietf-i2nsf-ikeless:sad-entry")?;
    add_row(&mut out, alloc, row)?;
    out.end_array()?;
    out.end_object()?;
    Ok(out.into_octets())
}
