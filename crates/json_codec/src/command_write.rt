// Commands to the controller as JSON.
ghost use Rattle.std.specs.Prelude.{◌≡◌, ◌++◌, None, Some, Ok, true, IfOk, OnOk, IsUtf8, codes};
ghost use Rattle.serde_json.specs.Read.{read};
ghost use Rattle.serde_json.specs.Written.{compact_text};
ghost use Rattle.serde_json.specs.Data.{string, no_members};
ghost use Rattle.ikeless_tree.specs.Check.{spd_fault, is_gateway};
ghost use Rattle.yang_values.specs.HexText.{hex_colons};
ghost use Rattle.json_values.specs.Written.{only, wide};
ghost use Rattle.json_values.specs.Tokens.{value_tokens, member_tokens, tokens_of_members};
ghost use Rattle.json_codec.specs.CommandWritten.{policy_input, with_first, with_second, tunnel_input, input_of, command_data, IsWellFormed};
ghost use Rattle.json_codec.specs.CommandRead.{operation_of, HasWindow};
ghost use Rattle.json_codec.specs.Bodies.{command_of};

use crate::laws::commands_read_again;
use ikeless_tree::{Command, Entries, TunnelSpec, mode_text};
use ikl_base::{Name, NoMemory, Octets};
use json_tree::{add_hex, add_lifetime, add_policies, add_prefix};
use json_values::Tokens;
use std::alloc::Global;

fn add_gateway(out: &mut Tokens, name: &str, gateway: &Name) -> Result<(), NoMemory>
    requires { is_gateway gateway.now ≡ true }
    ensures { OnOk result (out.new ≡ out.old ++ member_tokens name.now (string gateway.now)) }
{
    out.text(name, gateway.as_slice())
}

#[tactic(auto, unfolding(crate::specs::CommandWritten::policy_input))]
fn add_policy(
    out: &mut Tokens,
    alloc: Global,
    gateway: &Name,
    list: &Entries,
) -> Result<(), NoMemory>
    requires gateway { is_gateway gateway.now ≡ true }
    requires list { spd_fault list.now ≡ None }
    ensures { OnOk result (out.new ≡ out.old ++ value_tokens (policy_input gateway.now list.now)) }
{
    out.begin_object()?;
    add_gateway(out, "gateway", gateway)?;
    out.name("spd-entry")?;
    add_policies(out, alloc, list)?;
    out.end_object()
}

#[tactic(auto, unfolding(crate::specs::CommandWritten::with_second))]
fn add_second(out: &mut Tokens, alloc: Global, spec: &TunnelSpec) -> Result<(), NoMemory>
    requires { is_gateway spec.now.second ≡ true }
    ensures { OnOk result (out.new ≡ out.old ++ tokens_of_members (with_second spec.entry.now no_members)) }
{
    out.wide("reqid", spec.reqid)?;
    add_gateway(out, "second", &spec.second)?;
    add_prefix(out, alloc, "second-prefix", &spec.second_prefix)?;
    add_lifetime(out, "soft", &spec.soft)
}

#[tactic(auto, unfolding(crate::specs::CommandWritten::with_first))]
fn add_first(out: &mut Tokens, alloc: Global, spec: &TunnelSpec) -> Result<(), NoMemory>
    requires { is_gateway spec.now.first ≡ true }
    ensures { OnOk result (out.new ≡ out.old ++ tokens_of_members (with_first spec.entry.now no_members)) }
{
    add_gateway(out, "first", &spec.first)?;
    add_prefix(out, alloc, "first-prefix", &spec.first_prefix)?;
    add_lifetime(out, "hard", &spec.hard)?;
    out.word("mode", mode_text(spec.now))
}

#[tactic(auto, unfolding(crate::specs::CommandWritten::tunnel_input))]
fn add_tunnel(out: &mut Tokens, alloc: Global, spec: &TunnelSpec) -> Result<(), NoMemory>
    requires first { is_gateway spec.now.first ≡ true }
    requires second { is_gateway spec.now.second ≡ true }
    ensures { OnOk result (out.new ≡ out.old ++ value_tokens (tunnel_input spec.entry.now)) }
{
    out.begin_object()?;
    out.count("anti-replay-window-size", spec.window)?;
    add_first(out, alloc, spec)?;
    add_second(out, alloc, spec)?;
    out.end_object()
}

fn add_reqid(out: &mut Tokens, reqid: u64) -> Result<(), NoMemory>
    ensures { OnOk result (out.new ≡ out.old ++ value_tokens (only (codes "reqid") (wide reqid))) }
{
    out.begin_object()?;
    out.wide("reqid", reqid)?;
    out.end_object()
}

fn add_key(out: &mut Tokens, alloc: Global, key: &[u8]) -> Result<(), NoMemory>
    ensures { OnOk result (out.new
        ≡ out.old ++ value_tokens (only (codes "key") (string (hex_colons key.now)))) }
{
    out.begin_object()?;
    add_hex(out, alloc, "key", key)?;
    out.end_object()
}

fn add_input(out: &mut Tokens, alloc: Global, c: &Command) -> Result<(), NoMemory>
    requires { IsWellFormed c.now }
    ensures { OnOk result (out.new ≡ out.old ++ value_tokens (input_of c.now)) }
{
    match c {
        Command::Policy { gateway, list } => add_policy(out, alloc, gateway, list),
        Command::Tunnel(spec) => add_tunnel(out, alloc, spec),
        Command::End(reqid) => add_reqid(out, *reqid),
        Command::Rekey(reqid) => add_reqid(out, *reqid),
        Command::Keys(key) => add_key(out, alloc, key.as_slice()),
    }
}

/// The body of a command. It is read again as that command, where its window is one.
pub fn write_command(alloc: Global, c: &Command) -> Result<Octets, NoMemory>
    requires { IsWellFormed c.now }
    ensures text { IfOk result (λ text. text ≡ compact_text (command_data c.now)) }
    ensures reads { IfOk result (λ text. read text ≡ Some (command_data c.now)) }
    ensures utf8 { IfOk result (λ text. IsUtf8 text) }
    ensures again { HasWindow c.now → IfOk result (λ text. command_of (operation_of c.now) text ≡ Ok c.now) }
{
    c.numbers_fit();
    commands_read_again();
    let mut out = Tokens::new(alloc);
    out.begin_object()?;
    out.name("ikl-control:input")?;
    add_input(&mut out, alloc, c)?;
    out.end_object()?;
    Ok(out.into_octets())
}
