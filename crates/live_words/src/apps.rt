// What `clap` is told of the words of each command, with the texts of its help.
ghost use Rattle.std.specs.Prelude.{◌≡◌, IfOk, codes};
ghost use Rattle.clap.specs.Words.{app_of, new_app, with_rule};
ghost use Rattle.live_words.specs.Apps.{with_option, word_rule, peers_rule, rest_rule, first_options, wire_options, gateway_app, controller_app, client_app, drill_app};

use clap::{Arg, ArgAction, Command};
use std::alloc::{AllocError, Global};

const TURNS: &str = "How many turns to take, from 1 to 4294967295";

fn command_named<'a>(alloc: Global, name: &'a str, about: &'a str) -> Command<'a>
    ensures { app_of result ≡ new_app name.entry.now }
{
    Command::new(alloc, name).about(about)
}

// Adds a required option with one value.
fn with_value<'a>(
    command: Command<'a>,
    alloc: Global,
    name: &'a str,
    help: &'a str,
) -> Result<Command<'a>, AllocError>
    ensures { IfOk result (λ c. app_of c ≡ with_option (app_of command.entry) name.entry.now) }
{
    let option = Arg::new(alloc, name)
        .long(name)
        .action(ArgAction::Set)
        .required(true)
        .help(help);
    command.arg(option)
}

// Adds one word.
fn with_word<'a>(
    command: Command<'a>,
    alloc: Global,
    name: &'a str,
    help: &'a str,
) -> Result<Command<'a>, AllocError>
    ensures { IfOk result (λ c. app_of c ≡ with_rule (app_of command.entry) (word_rule name.entry.now)) }
{
    let word = Arg::new(alloc, name)
        .action(ArgAction::Set)
        .required(true)
        .help(help);
    command.arg(word)
}

// Adds from 1 to 16 words.
fn with_peers<'a>(command: Command<'a>, alloc: Global) -> Result<Command<'a>, AllocError>
    ensures { IfOk result (λ c. app_of c ≡ with_rule (app_of command.entry) peers_rule) }
{
    let peers = Arg::new(alloc, "peers")
        .num_args(1..=16)
        .action(ArgAction::Set)
        .required(true)
        .help("NAME=ADDRESS=CONTROL=NOTICE of each gateway: its name, its address and two ports");
    command.arg(peers)
}

// Adds a word, and all that follows it.
fn with_rest<'a>(command: Command<'a>, alloc: Global) -> Result<Command<'a>, AllocError>
    ensures { IfOk result (λ c. app_of c ≡ with_rule (app_of command.entry) rest_rule) }
{
    let words = Arg::new(alloc, "words")
        .num_args(1..)
        .trailing_var_arg(true)
        .action(ArgAction::Set)
        .required(true)
        .help("A command of a script: policy, tunnel, end, rekey or keys, with its words");
    command.arg(words)
}

fn with_first<'a>(command: Command<'a>, alloc: Global) -> Result<Command<'a>, AllocError>
    ensures { IfOk result (λ c. app_of c ≡ first_options (app_of command.entry)) }
{
    let command = with_value(command, alloc, "address", "The gateway's own address")?;
    let command = with_value(
        command,
        alloc,
        "seq-last",
        "The last sequence number of an association, from 1 to 4294967295",
    )?;
    with_value(command, alloc, "turns", TURNS)
}

fn with_wires<'a>(command: Command<'a>, alloc: Global) -> Result<Command<'a>, AllocError>
    ensures { IfOk result (λ c. app_of c ≡ wire_options (app_of command.entry)) }
{
    let command = with_value(command, alloc, "inside", "The port for packets from inside")?;
    let command = with_value(command, alloc, "inside-to", "Where packets for inside go")?;
    let command = with_value(
        command,
        alloc,
        "outside",
        "The port for datagrams from outside",
    )?;
    with_value(
        command,
        alloc,
        "outside-to",
        "Where datagrams for outside go",
    )
}

/// The words of `gateway`.
#[tactic(auto, unfolding(crate::specs::Apps::gateway_app))]
pub fn gateway_command<'a>(alloc: Global) -> Result<Command<'a>, AllocError>
    ensures { IfOk result (λ c. app_of c ≡ gateway_app) }
{
    let command = command_named(alloc, "gateway", "Runs a gateway; ports are on 127.0.0.1");
    let command = with_first(command, alloc)?;
    let command = with_wires(command, alloc)?;
    let command = with_value(
        command,
        alloc,
        "control",
        "The port of the controller's requests",
    )?;
    with_value(
        command,
        alloc,
        "notice",
        "The port of notices to the controller",
    )
}

/// The words of `controller`.
#[tactic(auto, unfolding(crate::specs::Apps::controller_app))]
pub fn controller_command<'a>(alloc: Global) -> Result<Command<'a>, AllocError>
    ensures { IfOk result (λ c. app_of c ≡ controller_app) }
{
    let command = command_named(
        alloc,
        "controller",
        "Runs the controller; ports are on 127.0.0.1",
    );
    let command = with_value(command, alloc, "commands", "The port for commands")?;
    let command = with_value(command, alloc, "turns", TURNS)?;
    with_peers(command, alloc)
}

/// The words of `client`.
#[tactic(auto, unfolding(crate::specs::Apps::client_app))]
pub fn client_command<'a>(alloc: Global) -> Result<Command<'a>, AllocError>
    ensures { IfOk result (λ c. app_of c ≡ client_app) }
{
    let command = command_named(
        alloc,
        "client",
        "Sends a command to the controller, and prints its answer",
    );
    let command = with_value(
        command,
        alloc,
        "port",
        "The controller's port for commands, on 127.0.0.1",
    )?;
    let command = with_value(command, alloc, "turns", TURNS)?;
    with_rest(command, alloc)
}

/// The words of `drill`.
#[tactic(auto, unfolding(crate::specs::Apps::drill_app))]
pub fn drill_command<'a>(alloc: Global) -> Result<Command<'a>, AllocError>
    ensures { IfOk result (λ c. app_of c ≡ drill_app) }
{
    let command = command_named(
        alloc,
        "drill",
        "Replays a large script in memory, and prints what is counted of it",
    );
    with_word(
        command,
        alloc,
        "N",
        "Which script, from 0 to 18446744073709551615",
    )
}
