// The notification round an event.
ghost use Rattle.serde_json.specs.Find.{get};
ghost use Rattle.serde_json.specs.View.{view};
ghost use Rattle.ikl_base.specs.Answers.{Gives};
ghost use Rattle.notice_lines.specs.Envelope.{overflow_name, expire_name, bad_spi_name, time_shape, event_shape, acquire_event, expire_event, overflow_event, bad_spi_event, bad_spi_else, overflow_else, expire_else, envelope_in, notice_in};

use crate::event::{acquire, bad_spi, expire, overflow};
use ikeless_tree::Notice;
use ikl_base::OrMemory;
use json_values::{Fault, Kind, at_member, has_shape, only, text_of};
use serde_json::Value;
use std::alloc::Global;

const ACQUIRE: &str = "ietf-i2nsf-ikeless:sadb-acquire";

const EXPIRE: &str = "ietf-i2nsf-ikeless:sadb-expire";

const OVERFLOW: &str = "ietf-i2nsf-ikeless:sadb-seq-overflow";

const BAD_SPI: &str = "ietf-i2nsf-ikeless:sadb-bad-spi";

fn has_time(alloc: Global, value: &Value) -> Result<(), OrMemory<Fault>>
    ensures { Gives result (time_shape (view value.now)) }
{
    match text_of(value.get("eventTime")) {
        Ok(_) => Ok(()),
        Err(kind) => at_member(alloc, b"eventTime", Err(kind)),
    }
}

// Whether an object has a time and the event of this name alone.
#[tactic(auto, unfolding(crate::specs::Envelope::event_shape))]
fn is_event(alloc: Global, name: &str, value: &Value) -> Result<(), OrMemory<Fault>>
    ensures { Gives result (event_shape name.now (view value.now)) }
{
    has_shape(alloc, &["eventTime", name], &["eventTime", name], value)?;
    has_time(alloc, value)
}

fn acquire_event(alloc: Global, value: &Value, event: &Value) -> Result<Notice, OrMemory<Fault>>
    ensures { Gives result (acquire_event (view event.now) (view value.now)) }
{
    is_event(alloc, ACQUIRE, value)?;
    acquire(alloc, event)
}

fn expire_event(alloc: Global, value: &Value, event: &Value) -> Result<Notice, OrMemory<Fault>>
    ensures { Gives result (expire_event (view event.now) (view value.now)) }
{
    is_event(alloc, EXPIRE, value)?;
    expire(alloc, event)
}

fn overflow_event(alloc: Global, value: &Value, event: &Value) -> Result<Notice, OrMemory<Fault>>
    ensures { Gives result (overflow_event (view event.now) (view value.now)) }
{
    is_event(alloc, OVERFLOW, value)?;
    overflow(alloc, event)
}

fn bad_spi_event(alloc: Global, value: &Value, event: &Value) -> Result<Notice, OrMemory<Fault>>
    ensures { Gives result (bad_spi_event (view event.now) (view value.now)) }
{
    is_event(alloc, BAD_SPI, value)?;
    bad_spi(alloc, event)
}

fn last(alloc: Global, value: &Value) -> Result<Notice, OrMemory<Fault>>
    ensures { Gives result (bad_spi_else (get bad_spi_name (view value.now)) (view value.now)) }
{
    match value.get(BAD_SPI) {
        Some(event) => bad_spi_event(alloc, value, event),
        None => at_member(alloc, b"eventTime", Err(Kind::Missing)),
    }
}

fn third(alloc: Global, value: &Value) -> Result<Notice, OrMemory<Fault>>
    ensures { Gives result (overflow_else (get overflow_name (view value.now)) (view value.now)) }
{
    match value.get(OVERFLOW) {
        Some(event) => overflow_event(alloc, value, event),
        None => last(alloc, value),
    }
}

fn second(alloc: Global, value: &Value) -> Result<Notice, OrMemory<Fault>>
    ensures { Gives result (expire_else (get expire_name (view value.now)) (view value.now)) }
{
    match value.get(EXPIRE) {
        Some(event) => expire_event(alloc, value, event),
        None => third(alloc, value),
    }
}

#[tactic(auto, unfolding(crate::specs::Envelope::envelope_in))]
fn envelope(alloc: Global, value: &Value) -> Result<Notice, OrMemory<Fault>>
    ensures { Gives result (envelope_in (view value.now)) }
{
    match value.get(ACQUIRE) {
        Some(event) => acquire_event(alloc, value, event),
        None => second(alloc, value),
    }
}

/// The notice of a notification.
#[tactic(auto, unfolding(crate::specs::Envelope::notice_in))]
pub(crate) fn notice(alloc: Global, value: &Value) -> Result<Notice, OrMemory<Fault>>
    ensures { Gives result (notice_in (view value.now)) }
{
    match only(alloc, "ietf-restconf:notification", value) {
        Ok(inner) => envelope(alloc, inner),
        Err(refused) => Err(refused),
    }
}
