// Reads halves.
ghost use Rattle.std.specs.Prelude.{◌≡◌};
ghost use Rattle.serde_json.specs.View.{view};
ghost use Rattle.serde_json.specs.Find.{get, as_array};
ghost use Rattle.ikl_base.specs.Answers.{Gives};
ghost use Rattle.ikeless_tree.specs.Check.{sad_fault};
ghost use Rattle.json_values.specs.Faults.{checked};
ghost use Rattle.json_values.specs.Shapes.{seen, one_read};
ghost use Rattle.json_tree.specs.SadEntryRead.{algorithm_in, key_in, encryption_in, suite_key, suite_key_of, sealing_in, limits_in, limits_of, soft_in, soft_of, lifetimes_in, df_in, address_in, tunnel_in, tunnel_of, spi_in, traffic_in, config_in, config_of, half_of, sad_entry_in, one_half, one_sad_entry_in};

use crate::policy_read::{reqid, unset, window, worded};
use crate::selector_read::{limits_of, read_selector_member};
use ikeless_tree::{Df, Limits, SadEntry, Selector, check_sad};
use ikl_base::{Addr, Name, Octets, OrMemory};
use json_values::leaves::{address, df, has_number, number_of};
use json_values::members::{is_config, is_encryption, is_limits, is_sad_entry, is_soft, is_tunnel};
use json_values::names::{half_name, key};
use json_values::{Fault, Kind, at_item, at_made, at_member, kind_of_tree, only, refused, within};
use serde_json::Value;
use std::alloc::Global;

const NO_LIMITS: Limits = Limits {
    time: 0,
    bytes: 0,
    packets: 0,
    idle: 0,
};

/// In which window packets are taken, and by which key they are opened.
#[derive(Debug, Drop)]
struct Sealing {
    window: u32,
    key: Octets,
}

/// Both lifetimes.
#[derive(Clone, Copy, Debug)]
struct Lifetimes {
    hard: Limits,
    soft: Limits,
}

/// The ends of a tunnel.
#[derive(Clone, Copy, Debug)]
struct TunnelEnds {
    df: Df,
    local: Addr,
    remote: Addr,
}

/// Which packets are meant, and where they go.
#[derive(Debug, Drop)]
struct Traffic {
    spi: u32,
    selector: Selector,
    tunnel: TunnelEnds,
}

/// What is configured for a half.
#[derive(Debug, Drop)]
struct HalfConfig {
    sealing: Sealing,
    lifetimes: Lifetimes,
    traffic: Traffic,
}

fn algorithm(alloc: Global, value: &Value) -> Result<(), OrMemory<Fault>>
    ensures { Gives result (algorithm_in (view value.now)) }
{
    at_member(
        alloc,
        b"encryption-algorithm",
        has_number(value.get("encryption-algorithm"), 20),
    )
}

fn key_member(alloc: Global, value: &Value) -> Result<Octets, OrMemory<Fault>>
    ensures { Gives result (key_in (view value.now)) }
{
    at_made(alloc, b"key", key(alloc, value.get("key")))
}

#[tactic(auto, unfolding(crate::specs::SadEntryRead::encryption_in))]
fn encryption(alloc: Global, value: &Value) -> Result<Octets, OrMemory<Fault>>
    ensures { Gives result (encryption_in (view value.now)) }
{
    is_encryption(alloc, value)?;
    algorithm(alloc, value)?;
    key_member(alloc, value)
}

#[tactic(auto, unfolding(crate::specs::SadEntryRead::suite_key))]
fn suite(alloc: Global, value: &Value) -> Result<Octets, OrMemory<Fault>>
    ensures { Gives result (suite_key (view value.now)) }
{
    match only(alloc, "encryption", value) {
        Ok(inner) => within(alloc, b"encryption", encryption(alloc, inner)),
        Err(refused) => Err(refused),
    }
}

fn suite_member(alloc: Global, leaf: Option<&Value>) -> Result<Octets, OrMemory<Fault>>
    ensures { Gives result (suite_key_of (seen leaf.entry)) }
{
    match leaf {
        Some(value) => within(alloc, b"esp-sa", suite(alloc, value)),
        None => Err(refused(alloc, Kind::Missing)),
    }
}

#[tactic(auto, unfolding(crate::specs::SadEntryRead::sealing_in))]
fn sealing_of(alloc: Global, value: &Value) -> Result<Sealing, OrMemory<Fault>>
    ensures { Gives result (sealing_in (view value.now)) }
{
    let window = window(alloc, value)?;
    let key = suite_member(alloc, value.get("esp-sa"))?;
    unset(alloc, "ext-seq-num", value)?;
    worded(alloc, "mode", "tunnel", value)?;
    worded(alloc, "protocol-parameters", "esp", value)?;
    Ok(Sealing { window, key })
}

#[tactic(auto, unfolding(crate::specs::SadEntryRead::limits_in))]
fn limits(alloc: Global, value: &Value) -> Result<Limits, OrMemory<Fault>>
    ensures { Gives result (limits_in (view value.now)) }
{
    is_limits(alloc, value)?;
    limits_of(alloc, value)
}

/// The lifetime of a member; an absent one has no limits.
pub fn limits_member(
    alloc: Global,
    name: &str,
    leaf: Option<&Value>,
) -> Result<Limits, OrMemory<Fault>>
    ensures { Gives result (limits_of name.now (seen leaf.entry)) }
{
    match leaf {
        Some(value) => within(alloc, name.as_bytes(), limits(alloc, value)),
        None => Ok(NO_LIMITS),
    }
}

#[tactic(auto, unfolding(crate::specs::SadEntryRead::soft_in))]
fn soft(alloc: Global, value: &Value) -> Result<Limits, OrMemory<Fault>>
    ensures { Gives result (soft_in (view value.now)) }
{
    is_soft(alloc, value)?;
    worded(alloc, "action", "replace", value)?;
    limits_of(alloc, value)
}

fn soft_member(alloc: Global, leaf: Option<&Value>) -> Result<Limits, OrMemory<Fault>>
    ensures { Gives result (soft_of (seen leaf.entry)) }
{
    match leaf {
        Some(value) => within(alloc, b"sa-lifetime-soft", soft(alloc, value)),
        None => Ok(NO_LIMITS),
    }
}

#[tactic(auto, unfolding(crate::specs::SadEntryRead::lifetimes_in))]
fn lifetimes_of(alloc: Global, value: &Value) -> Result<Lifetimes, OrMemory<Fault>>
    ensures { Gives result (lifetimes_in (view value.now)) }
{
    let hard = limits_member(alloc, "sa-lifetime-hard", value.get("sa-lifetime-hard"))?;
    let soft = soft_member(alloc, value.get("sa-lifetime-soft"))?;
    unset(alloc, "seq-overflow", value)?;
    Ok(Lifetimes { hard, soft })
}

fn df_member(alloc: Global, value: &Value) -> Result<Df, OrMemory<Fault>>
    ensures { Gives result (df_in (view value.now)) }
{
    at_member(alloc, b"df-bit", df(value.get("df-bit")))
}

fn address_member(alloc: Global, name: &str, value: &Value) -> Result<Addr, OrMemory<Fault>>
    ensures { Gives result (address_in name.now (view value.now)) }
{
    at_member(alloc, name.as_bytes(), address(value.get(name)))
}

#[tactic(auto, unfolding(crate::specs::SadEntryRead::tunnel_in))]
fn tunnel(alloc: Global, value: &Value) -> Result<TunnelEnds, OrMemory<Fault>>
    ensures { Gives result (tunnel_in (view value.now)) }
{
    is_tunnel(alloc, value)?;
    let df = df_member(alloc, value)?;
    let local = address_member(alloc, "local", value)?;
    let remote = address_member(alloc, "remote", value)?;
    Ok(TunnelEnds { df, local, remote })
}

fn tunnel_member(alloc: Global, leaf: Option<&Value>) -> Result<TunnelEnds, OrMemory<Fault>>
    ensures { Gives result (tunnel_of (seen leaf.entry)) }
{
    match leaf {
        Some(value) => within(alloc, b"tunnel", tunnel(alloc, value)),
        None => Err(refused(alloc, Kind::Missing)),
    }
}

fn spi(alloc: Global, value: &Value) -> Result<u32, OrMemory<Fault>>
    ensures { Gives result (spi_in (view value.now)) }
{
    at_member(alloc, b"spi", number_of(value.get("spi"), 256, u32::MAX))
}

#[tactic(auto, unfolding(crate::specs::SadEntryRead::traffic_in))]
fn traffic_of(alloc: Global, value: &Value) -> Result<Traffic, OrMemory<Fault>>
    ensures { Gives result (traffic_in (view value.now)) }
{
    let spi = spi(alloc, value)?;
    let selector = read_selector_member(alloc, value.get("traffic-selector"))?;
    let tunnel = tunnel_member(alloc, value.get("tunnel"))?;
    Ok(Traffic {
        spi,
        selector,
        tunnel,
    })
}

#[tactic(auto, unfolding(crate::specs::SadEntryRead::config_in))]
fn config(alloc: Global, value: &Value) -> Result<HalfConfig, OrMemory<Fault>>
    ensures { Gives result (config_in (view value.now)) }
{
    is_config(alloc, value)?;
    let sealing = sealing_of(alloc, value)?;
    let lifetimes = lifetimes_of(alloc, value)?;
    let traffic = traffic_of(alloc, value)?;
    Ok(HalfConfig {
        sealing,
        lifetimes,
        traffic,
    })
}

fn config_member(alloc: Global, leaf: Option<&Value>) -> Result<HalfConfig, OrMemory<Fault>>
    ensures { Gives result (config_of (seen leaf.entry)) }
{
    match leaf {
        Some(value) => within(alloc, b"ipsec-sa-config", config(alloc, value)),
        None => Err(refused(alloc, Kind::Missing)),
    }
}

fn half(config: HalfConfig, name: Name, reqid: u64) -> SadEntry
    ensures { result ≡ half_of config name reqid }
{
    let HalfConfig {
        sealing,
        lifetimes,
        traffic,
    } = config;
    SadEntry {
        name,
        reqid,
        spi: traffic.spi,
        window: sealing.window,
        selector: traffic.selector,
        key: sealing.key,
        local: traffic.tunnel.local,
        remote: traffic.tunnel.remote,
        df: traffic.tunnel.df,
        hard: lifetimes.hard,
        soft: lifetimes.soft,
    }
}

#[tactic(auto, unfolding(crate::specs::SadEntryRead::sad_entry_in))]
fn entry(alloc: Global, value: &Value) -> Result<SadEntry, OrMemory<Fault>>
    ensures { Gives result (sad_entry_in (view value.now)) }
{
    is_sad_entry(alloc, value)?;
    let config = config_member(alloc, value.get("ipsec-sa-config"))?;
    let name = half_name(alloc, "name", value)?;
    let reqid = reqid(alloc, value)?;
    Ok(half(config, name, reqid))
}

fn one_of(alloc: Global, value: &Value) -> Result<SadEntry, OrMemory<Fault>>
    ensures { Gives result (one_read sad_entry_in (as_array (view value.now))) }
{
    let Some(items) = value.as_array() else {
        return Err(refused(alloc, Kind::Form));
    };
    match items.as_slice() {
        [item] => at_item(alloc, 0, entry(alloc, item)),
        [] => Err(refused(alloc, Kind::Missing)),
        [_, _, ..] => Err(refused(alloc, Kind::Missing)),
    }
}

#[tactic(auto, unfolding(crate::specs::SadEntryRead::one_half))]
fn one(alloc: Global, value: &Value) -> Result<SadEntry, OrMemory<Fault>>
    ensures { Gives result (one_half (view value.now)) }
{
    match only(alloc, "ietf-i2nsf-ikeless:sad-entry", value) {
        Ok(list) => within(alloc, b"ietf-i2nsf-ikeless:sad-entry", one_of(alloc, list)),
        Err(refused) => Err(refused),
    }
}

fn check(alloc: Global, entry: SadEntry) -> Result<SadEntry, OrMemory<Fault>>
    ensures { Gives result (checked entry (sad_fault entry)) }
{
    match check_sad(&entry) {
        Ok(()) => Ok(entry),
        Err(fault) => Err(refused(alloc, kind_of_tree(fault))),
    }
}

/// The one half of a body.
#[tactic(auto, unfolding(crate::specs::SadEntryRead::one_sad_entry_in))]
pub fn sad_entry(alloc: Global, value: &Value) -> Result<SadEntry, OrMemory<Fault>>
    ensures { Gives result (one_sad_entry_in (view value.now)) }
{
    match one(alloc, value) {
        Ok(entry) => check(alloc, entry),
        Err(refused) => Err(refused),
    }
}
