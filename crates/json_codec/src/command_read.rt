// Reads commands to the controller.
ghost use Rattle.std.specs.Prelude.{◌≡◌, Some};
ghost use Rattle.std.specs.Str.{bytes_eq};
ghost use Rattle.serde_json.specs.View.{view};
ghost use Rattle.ikl_base.specs.Answers.{Gives};
ghost use Rattle.json_values.specs.Faults.{checked};
ghost use Rattle.json_codec.specs.CommandRead.{prefix_in, needed_window, needed_reqid, mode_in, list_command, first_in, second_in, tunnel_between, tunnel_command, only_reqid, only_key, end_command, rekey_command, keys_command, input_in, inputs_in, command_fault, command_in};

use ikeless_tree::{Command, Limits, TreeFault, TunnelSpec, check_spd};
use ikl_base::{Name, Octets, OrMemory, Prefix};
use json_tree::{entries_member, limits_member};
use json_values::leaves::{mode, number_of, prefix, wide_of};
use json_values::members::{is_list_input, is_tunnel_input};
use json_values::names::{gateway, octets};
use json_values::{Fault, at_made, at_member, kind_of_tree, only, refused, within};
use serde_json::Value;
use std::alloc::Global;

/// The window of a tunnel, its first gateway and its hard lifetime.
#[derive(Debug, Drop)]
struct FirstEnd {
    window: u32,
    name: Name,
    prefix: Prefix,
    hard: Limits,
}

/// When a tunnel gets keys, its number, its second gateway and its soft lifetime.
#[derive(Debug, Drop)]
struct SecondEnd {
    now: bool,
    reqid: u64,
    name: Name,
    prefix: Prefix,
    soft: Limits,
}

fn prefix_member(alloc: Global, name: &str, value: &Value) -> Result<Prefix, OrMemory<Fault>>
    ensures { Gives result (prefix_in name.now (view value.now)) }
{
    at_member(alloc, name.as_bytes(), prefix(value.get(name)))
}

fn window_member(alloc: Global, value: &Value) -> Result<u32, OrMemory<Fault>>
    ensures { Gives result (needed_window (view value.now)) }
{
    let leaf = value.get("anti-replay-window-size");
    at_member(alloc, b"anti-replay-window-size", number_of(leaf, 32, 4096))
}

fn reqid_member(alloc: Global, value: &Value) -> Result<u64, OrMemory<Fault>>
    ensures { Gives result (needed_reqid (view value.now)) }
{
    at_member(alloc, b"reqid", wide_of(value.get("reqid")))
}

fn mode_member(alloc: Global, value: &Value) -> Result<bool, OrMemory<Fault>>
    ensures { Gives result (mode_in (view value.now)) }
{
    at_member(alloc, b"mode", mode(value.get("mode")))
}

#[tactic(auto, unfolding(crate::specs::CommandRead::list_command))]
fn list(alloc: Global, value: &Value) -> Result<Command, OrMemory<Fault>>
    ensures { Gives result (list_command (view value.now)) }
{
    is_list_input(alloc, value)?;
    let gateway = gateway(alloc, "gateway", value)?;
    let list = entries_member(alloc, value.get("spd-entry"))?;
    Ok(Command::Policy { gateway, list })
}

#[tactic(auto, unfolding(crate::specs::CommandRead::first_in))]
fn first(alloc: Global, value: &Value) -> Result<FirstEnd, OrMemory<Fault>>
    ensures { Gives result (first_in (view value.now)) }
{
    let window = window_member(alloc, value)?;
    let name = gateway(alloc, "first", value)?;
    let prefix = prefix_member(alloc, "first-prefix", value)?;
    let hard = limits_member(alloc, "hard", value.get("hard"))?;
    Ok(FirstEnd {
        window,
        name,
        prefix,
        hard,
    })
}

#[tactic(auto, unfolding(crate::specs::CommandRead::second_in))]
fn second(alloc: Global, value: &Value) -> Result<SecondEnd, OrMemory<Fault>>
    ensures { Gives result (second_in (view value.now)) }
{
    let now = mode_member(alloc, value)?;
    let reqid = reqid_member(alloc, value)?;
    let name = gateway(alloc, "second", value)?;
    let prefix = prefix_member(alloc, "second-prefix", value)?;
    let soft = limits_member(alloc, "soft", value.get("soft"))?;
    Ok(SecondEnd {
        now,
        reqid,
        name,
        prefix,
        soft,
    })
}

fn between(first: FirstEnd, second: SecondEnd) -> TunnelSpec
    ensures { result ≡ tunnel_between first second }
{
    TunnelSpec {
        reqid: second.reqid,
        now: second.now,
        first: first.name,
        second: second.name,
        first_prefix: first.prefix,
        second_prefix: second.prefix,
        window: first.window,
        hard: first.hard,
        soft: second.soft,
    }
}

#[tactic(auto, unfolding(crate::specs::CommandRead::tunnel_command))]
fn tunnel(alloc: Global, value: &Value) -> Result<Command, OrMemory<Fault>>
    ensures { Gives result (tunnel_command (view value.now)) }
{
    is_tunnel_input(alloc, value)?;
    let first = first(alloc, value)?;
    let second = second(alloc, value)?;
    Ok(Command::Tunnel(between(first, second)))
}

#[tactic(auto, unfolding(crate::specs::CommandRead::only_reqid))]
fn reqid_alone(alloc: Global, value: &Value) -> Result<u64, OrMemory<Fault>>
    ensures { Gives result (only_reqid (view value.now)) }
{
    match only(alloc, "reqid", value) {
        Ok(leaf) => at_member(alloc, b"reqid", wide_of(Some(leaf))),
        Err(refused) => Err(refused),
    }
}

#[tactic(auto, unfolding(crate::specs::CommandRead::only_key))]
fn key_alone(alloc: Global, value: &Value) -> Result<Octets, OrMemory<Fault>>
    ensures { Gives result (only_key (view value.now)) }
{
    match only(alloc, "key", value) {
        Ok(leaf) => at_made(alloc, b"key", octets(alloc, Some(leaf))),
        Err(refused) => Err(refused),
    }
}

#[tactic(auto, unfolding(crate::specs::CommandRead::end_command))]
fn end(alloc: Global, value: &Value) -> Result<Command, OrMemory<Fault>>
    ensures { Gives result (end_command (view value.now)) }
{
    match reqid_alone(alloc, value) {
        Ok(reqid) => Ok(Command::End(reqid)),
        Err(refused) => Err(refused),
    }
}

#[tactic(auto, unfolding(crate::specs::CommandRead::rekey_command))]
fn rekey(alloc: Global, value: &Value) -> Result<Command, OrMemory<Fault>>
    ensures { Gives result (rekey_command (view value.now)) }
{
    match reqid_alone(alloc, value) {
        Ok(reqid) => Ok(Command::Rekey(reqid)),
        Err(refused) => Err(refused),
    }
}

#[tactic(auto, unfolding(crate::specs::CommandRead::keys_command))]
fn keys(alloc: Global, value: &Value) -> Result<Command, OrMemory<Fault>>
    ensures { Gives result (keys_command (view value.now)) }
{
    match key_alone(alloc, value) {
        Ok(key) => Ok(Command::Keys(key)),
        Err(refused) => Err(refused),
    }
}

fn is_called(operation: &[u8], name: &[u8]) -> bool
    ensures { result ≡ bytes_eq operation.now name.now }
{
    operation == name
}

#[tactic(auto, unfolding(crate::specs::CommandRead::input_in))]
fn input(alloc: Global, operation: &[u8], value: &Value) -> Result<Command, OrMemory<Fault>>
    ensures { Gives result (input_in operation.now (view value.now)) }
{
    if is_called(operation, b"policy") {
        list(alloc, value)
    } else if is_called(operation, b"tunnel") {
        tunnel(alloc, value)
    } else if is_called(operation, b"end") {
        end(alloc, value)
    } else if is_called(operation, b"rekey") {
        rekey(alloc, value)
    } else {
        keys(alloc, value)
    }
}

#[tactic(auto, unfolding(crate::specs::CommandRead::inputs_in))]
fn inputs(alloc: Global, operation: &[u8], value: &Value) -> Result<Command, OrMemory<Fault>>
    ensures { Gives result (inputs_in operation.now (view value.now)) }
{
    match only(alloc, "ikl-control:input", value) {
        Ok(inner) => within(alloc, b"ikl-control:input", input(alloc, operation, inner)),
        Err(refused) => Err(refused),
    }
}

fn fault_of(command: &Command) -> Option<TreeFault>
    ensures { result ≡ command_fault command.now }
{
    match command {
        Command::Policy { list, .. } => match check_spd(list) {
            Ok(()) => None,
            Err(fault) => Some(fault),
        },
        Command::Tunnel(_) => None,
        Command::End(_) => None,
        Command::Rekey(_) => None,
        Command::Keys(_) => None,
    }
}

fn check(alloc: Global, command: Command) -> Result<Command, OrMemory<Fault>>
    ensures { Gives result (checked command (command_fault command)) }
{
    match fault_of(&command) {
        None => Ok(command),
        Some(fault) => Err(refused(alloc, kind_of_tree(fault))),
    }
}

/// The command that a body gives to an operation.
#[tactic(auto, unfolding(crate::specs::CommandRead::command_in))]
pub(crate) fn command(
    alloc: Global,
    operation: &[u8],
    value: &Value,
) -> Result<Command, OrMemory<Fault>>
    ensures { Gives result (command_in operation.now (view value.now)) }
{
    match inputs(alloc, operation, value) {
        Ok(command) => check(alloc, command),
        Err(refused) => Err(refused),
    }
}
