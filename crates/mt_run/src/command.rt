//! What the program does with a command line: which call it makes, what it tells on standard error, and how it ends.
ghost use Rattle.std.specs.Prelude.{Result};
ghost use Rattle.mt_run.specs.Performs.{Performs, Tells, ending_of_document, ending_of_fault, ending_of_refusal, ending_of_run};

use crate::{canon_dump, canon_rules, run_watched};
use mt_choice::{Choice, Wrong};
use mt_script::{ScriptFault, write_all, write_line};
use std::alloc::Global;
use std::io::{Read, Write};

/// How the program ends.
#[derive(Clone, Copy, Debug, Eq, PartialEq)]
pub enum Status {
    /// What was asked for is done.
    Done,
    /// A document is refused, which standard output says, or a fault is told on standard error.
    Failed,
    /// The command line asks for nothing, which standard error says.
    Misused,
}

/// Tells a fault in a line.
fn tell_fault<E: Write>(errors: &mut E, fault: ScriptFault) -> Result<Status, ScriptFault>
    ensures { Tells (ending_of_fault fault) (E.contents errors.old) (E.contents errors.new) result }
{
    write_line(errors, b"fault ", fault.as_str().as_bytes())?;
    Ok(Status::Failed)
}

/// Tells how a run ended, or the writing of a text.
fn tell_run<E: Write>(errors: &mut E, end: Result<(), ScriptFault>) -> Result<Status, ScriptFault>
    ensures { Tells (ending_of_run end) (E.contents errors.old) (E.contents errors.new) result }
{
    match end {
        Ok(()) => Ok(Status::Done),
        Err(fault) => tell_fault(errors, fault),
    }
}

/// Tells how the writing of a document ended. Its refusal is on standard output.
fn tell_document<E: Write>(
    errors: &mut E,
    end: Result<bool, ScriptFault>,
) -> Result<Status, ScriptFault>
    ensures { Tells (ending_of_document end) (E.contents errors.old) (E.contents errors.new) result }
{
    match end {
        Ok(true) => Ok(Status::Done),
        Ok(false) => Ok(Status::Failed),
        Err(fault) => tell_fault(errors, fault),
    }
}

/// Tells in a line why a command line asks for nothing.
fn tell_refusal<E: Write>(errors: &mut E, wrong: Wrong) -> Result<Status, ScriptFault>
    ensures { Tells (ending_of_refusal wrong) (E.contents errors.old) (E.contents errors.new) result }
{
    write_line(errors, b"", wrong.as_str().as_bytes())?;
    match wrong {
        Wrong::Memory => Ok(Status::Failed),
        Wrong::Usage | Wrong::Words(_) => Ok(Status::Misused),
    }
}

/// Does what a command line asks for: runs the script that the reader gives, writes the canonical form of its document, or
/// prints help, all to `output`; a fault, or a refused command line, is told in a line on `errors`, and nothing else is.
/// A race isn't run here: it takes threads, and the program runs it before it comes here. By this call `mt race` is refused with
/// the usage. `ScriptFault::Write` is answered if that line could not be written.
pub fn perform<R: Read, O: Write, E: Write>(
    alloc: Global,
    asked: Result<Choice, Wrong>,
    reader: &mut R,
    output: &mut O,
    errors: &mut E,
) -> Result<Status, ScriptFault>
    ensures { Performs asked (R.remaining reader.old) (R.remaining reader.new) (O.contents output.old) (O.contents output.new) (E.contents errors.old) (E.contents errors.new) result }
{
    match asked {
        Ok(Choice::Run(keyspaces)) => {
            tell_run(errors, run_watched(alloc, reader, output, &keyspaces))
        }
        Ok(Choice::Rules) => tell_document(errors, canon_rules(alloc, reader, output)),
        Ok(Choice::Topology) => tell_document(errors, canon_dump(alloc, reader, output)),
        Ok(Choice::Race { .. }) => tell_refusal(errors, Wrong::Usage),
        Ok(Choice::Help(text)) => tell_run(errors, write_all(output, text.as_bytes())),
        Err(wrong) => tell_refusal(errors, wrong),
    }
}
