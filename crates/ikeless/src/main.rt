//! Runs the commands of ikeless over the real devices.
#![tactic(auto)]

mod help;
mod live;

use crate::help::{asks_for_help, print_help, print_refusal};
use crate::live::{client, controller, gateway};
use ikeless_cli::{exit_number, name_of, reason_of, run_drill, run_replay};
use ikl_base::{FromReader, Status, ToWriter};
use std::process::ExitCode;
use std::{env, io};

// The words after the program's name; none where they can't be read.
fn words(rt: &HostRuntime) -> Result<Vec<String>, Status> {
    let mut words = Vec::new(rt.alloc());
    let args = match env::args(rt) {
        Ok(args) => args,
        Err(fault) if fault.kind() == io::ErrorKind::OutOfMemory => return Err(Status::NoMemory),
        Err(_) => return Ok(words),
    };
    for word in args.skip(1) {
        if words.push(word).is_err() {
            return Err(Status::NoMemory);
        }
    }
    Ok(words)
}

fn replay(rt: &HostRuntime, words: &[String]) -> Status {
    let mut input = FromReader::new(rt.stdin());
    let mut output = ToWriter::new(rt.stdout());
    run_replay(rt.alloc(), words, &mut input, &mut output)
}

fn drill(rt: &HostRuntime, words: &[String]) -> Status {
    let mut output = ToWriter::new(rt.stdout());
    run_drill(rt.alloc(), words, &mut output)
}

// Runs the command that the first word names.
fn run(rt: &HostRuntime, words: &[String]) -> Status {
    let Some(name) = words.first() else {
        return Status::Words;
    };
    match name.as_str() {
        "replay" => replay(rt, words),
        "drill" => drill(rt, words),
        "gateway" => gateway(rt, words),
        "controller" => controller(rt, words),
        "client" => client(rt, words),
        _ => Status::Words,
    }
}

// Says how a command ended, where it isn't done.
fn report(rt: &HostRuntime, words: &[String], status: &Status) -> io::Result<()> {
    match status {
        Status::Done => Ok(()),
        Status::Line { line, reason } => eprintln!(rt; "Line {line} {}", reason_of(*reason)),
        Status::Forged { line, .. } => eprintln!(rt; "Forged {line}"),
        Status::Words => {
            print_refusal(rt, words)?;
            eprintln!(rt; "Words")
        }
        other => eprintln!(rt; "{}", name_of(other)),
    }
}

fn main(rt: HostRuntime) -> ExitCode {
    let words = match words(&rt) {
        Ok(words) => words,
        Err(status) => {
            let _ = report(&rt, &[], &status);
            return ExitCode::from(exit_number(&status));
        }
    };
    if asks_for_help(words.as_slice()) {
        let _ = print_help(&rt, words.as_slice());
        return ExitCode::from(0);
    }
    let status = run(&rt, words.as_slice());
    let _ = report(&rt, words.as_slice(), &status);
    ExitCode::from(exit_number(&status))
}
