// Notices as lines.
ghost use Rattle.std.specs.Prelude.{◌≡◌, true, IfOk, IsUtf8};
ghost use Rattle.serde_json.specs.View.{view};
ghost use Rattle.ikeless_tree.specs.Check.{is_spd_name, is_sad_name};
ghost use Rattle.notice_lines.specs.Envelope.{event_name, event_data, acquire_data, expire_data, overflow_data, bad_spi_data, envelope_data, notice_data, IsNotice};
ghost use Rattle.notice_lines.specs.Reading.{IsLine, IsHeard};

use crate::laws::written_is_heard;
use crate::moment::stamp;
use ikeless_tree::{Limits, Notice, Selector};
use ikl_base::{Name, NoMemory, Octets};
use json_tree::{counts_value, selector_value};
use json_values::{put, put_count, put_text, single, written};
use serde_json::{Map, Value};
use std::alloc::Global;

#[tactic(auto, unfolding(crate::specs::Envelope::acquire_data))]
fn acquire_value(alloc: Global, policy: &Name, selector: &Selector) -> Result<Value, NoMemory>
    requires { is_spd_name policy.now ≡ true }
    ensures { IfOk result (λ v. view v ≡ acquire_data policy.now selector.now) }
{
    let mut members = Map::new(alloc);
    put(
        &mut members,
        alloc,
        "traffic-selector",
        selector_value(alloc, selector)?,
    )?;
    put_text(&mut members, alloc, "ipsec-policy-name", policy.as_slice())?;
    Ok(Value::Object(members))
}

#[tactic(auto, unfolding(crate::specs::Envelope::expire_data))]
fn expire_value(alloc: Global, name: &Name, soft: bool, current: &Limits) -> Result<Value, NoMemory>
    requires { is_sad_name name.now ≡ true }
    ensures { IfOk result (λ v. view v ≡ expire_data name.now soft current.now) }
{
    let mut members = Map::new(alloc);
    put(
        &mut members,
        alloc,
        "soft-lifetime-expire",
        Value::from(soft),
    )?;
    let counts = counts_value(alloc, current)?;
    put(&mut members, alloc, "lifetime-current", counts)?;
    put_text(&mut members, alloc, "ipsec-sa-name", name.as_slice())?;
    Ok(Value::Object(members))
}

fn overflow_value(alloc: Global, name: &Name) -> Result<Value, NoMemory>
    requires { is_sad_name name.now ≡ true }
    ensures { IfOk result (λ v. view v ≡ overflow_data name.now) }
{
    let mut members = Map::new(alloc);
    put_text(&mut members, alloc, "ipsec-sa-name", name.as_slice())?;
    Ok(Value::Object(members))
}

fn bad_spi_value(alloc: Global, spi: u32) -> Result<Value, NoMemory>
    ensures { IfOk result (λ v. view v ≡ bad_spi_data spi) }
{
    let mut members = Map::new(alloc);
    put_count(&mut members, alloc, "spi", spi)?;
    Ok(Value::Object(members))
}

fn event_value(alloc: Global, n: &Notice) -> Result<Value, NoMemory>
    requires { IsNotice n.now }
    ensures { IfOk result (λ v. view v ≡ event_data n.now) }
{
    match n {
        Notice::Acquire { policy, selector } => acquire_value(alloc, policy, selector),
        Notice::Expire {
            name,
            soft,
            current,
        } => expire_value(alloc, name, *soft, current),
        Notice::SeqOverflow { name } => overflow_value(alloc, name),
        Notice::BadSpi { spi } => bad_spi_value(alloc, *spi),
    }
}

fn event_text(n: &Notice) -> &'static str
    ensures { result.now ≡ event_name n.now }
{
    match n {
        Notice::Acquire { .. } => "ietf-i2nsf-ikeless:sadb-acquire",
        Notice::Expire { .. } => "ietf-i2nsf-ikeless:sadb-expire",
        Notice::SeqOverflow { .. } => "ietf-i2nsf-ikeless:sadb-seq-overflow",
        Notice::BadSpi { .. } => "ietf-i2nsf-ikeless:sadb-bad-spi",
    }
}

#[tactic(auto, unfolding(crate::specs::Envelope::envelope_data))]
fn envelope_value(alloc: Global, stamp: &[u8], name: &str, event: Value) -> Result<Value, NoMemory>
    requires { IsUtf8 stamp.now }
    ensures { IfOk result (λ v. view v ≡ envelope_data stamp.now name.now (view event)) }
{
    let mut members = Map::new(alloc);
    put(&mut members, alloc, name, event)?;
    put_text(&mut members, alloc, "eventTime", stamp)?;
    Ok(Value::Object(members))
}

fn notice_value(alloc: Global, n: &Notice, stamp: &[u8]) -> Result<Value, NoMemory>
    requires notice { IsNotice n.now }
    requires stamp { IsUtf8 stamp.now }
    ensures { IfOk result (λ v. view v ≡ notice_data n.now stamp.now) }
{
    let event = event_value(alloc, n)?;
    let envelope = envelope_value(alloc, stamp, event_text(n), event)?;
    single(alloc, "ietf-restconf:notification", envelope)
}

fn notice_line(alloc: Global, n: &Notice, now: u32) -> Result<Octets, NoMemory>
    requires { IsNotice n.now }
    ensures { IfOk result (λ line. IsLine n.now now line) }
{
    let stamp = stamp(now);
    let value = notice_value(alloc, n, &stamp)?;
    let mut line = written(alloc, &value)?.into_items();
    line.push(b'\n')?;
    Ok(Octets::from_items(line))
}

/// The line of a notice at a moment, with its LF. The clock `now` counts seconds from 1970-01-01 on. A reader hears the line as
/// that notice, in any pieces.
pub fn write_notice(alloc: Global, n: &Notice, now: u32) -> Result<Octets, NoMemory>
    requires { IsNotice n.now }
    ensures line { IfOk result (λ line. IsLine n.now now line) }
    ensures heard { IfOk result (λ line. IsHeard n.now line) }
{
    n.numbers_fit();
    written_is_heard();
    notice_line(alloc, n, now)
}
