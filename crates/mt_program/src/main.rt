//! The program `mt`: it runs scripts that make keyspaces, tables and routing rules, and write and read rows through them, and has
//! clients race while a table moves.
#![tactic(auto)]

ghost use Rattle.std.specs.Prelude.{◌≡◌};
ghost use Rattle.std.specs.Process.{exit_status};
ghost use Rattle.mt_program.specs.Statuses.{status_of};

mod race;

use crate::race::tell_race;
use mt_choice::{Choice, Wrong, choose};
use mt_race::race_watched;
use mt_run::{Status, perform};
use mt_script::ScriptFault;
use mt_workers::NoGate;
use std::io;
use std::io::ErrorKind;
use std::process::ExitCode;

/// What the words of the command line ask for. Words that are no UTF-8 ask for nothing.
fn asked(rt: &HostRuntime) -> Result<Choice, Wrong> {
    let words = match std::env::args(rt) {
        Ok(words) => words,
        Err(error) if error.kind() == ErrorKind::OutOfMemory => return Err(Wrong::Memory),
        Err(_) => return Err(Wrong::Usage),
    };
    let words: Vec<String> = match words.collect(rt.alloc()) {
        Ok(words) => words,
        Err(_) => return Err(Wrong::Memory),
    };
    choose(rt.alloc(), words.as_slice())
}

/// The status that the program ends with. It is 1 if the line for standard error could not be written.
fn exit_code(end: Result<Status, ScriptFault>) -> ExitCode
    ensures { exit_status result ≡ status_of end }
{
    match end {
        Ok(Status::Done) => ExitCode::SUCCESS,
        Ok(Status::Failed) => ExitCode::FAILURE,
        Ok(Status::Misused) => ExitCode::from(2),
        Err(_) => ExitCode::FAILURE,
    }
}

fn main(rt: HostRuntime) -> ExitCode {
    let asked = asked(&rt);
    if let Ok(Choice::Race { clients, writes }) = asked {
        // (no command line asks for another race)
        if 1 <= clients && clients <= 4 && 1 <= writes && writes <= 1000 {
            let raced = race_watched(&rt, rt.alloc(), &NoGate, clients, writes);
            return exit_code(tell_race(&mut io::writer(&rt), &mut rt.stderr(), raced));
        }
    }
    exit_code(perform(
        rt.alloc(),
        asked,
        &mut rt.reader(),
        &mut io::writer(&rt),
        &mut rt.stderr(),
    ))
}
