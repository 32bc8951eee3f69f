//! What the program tells of a race.
ghost use Rattle.std.specs.Prelude.{◌≡◌, ◌+◌, ◌≤◌, ◌++◌, length, Result};
ghost use Rattle.mt_plain.specs.Numbers.{number_text};
ghost use Rattle.mt_program.specs.Races.{TellsFault, TellsRace, TellsWritten, race_status, race_text, verdict_text};

use arrayvec::ArrayVec;
use itoa::Buffer;
use mt_race::{RaceFault, Raced};
use mt_run::Status;
use mt_script::{ScriptFault, write_line};
use std::io::Write;

/// Two texts, one behind the other.
fn joined<const N: usize>(first: &[u8], second: &[u8]) -> ArrayVec<u8, N>
    requires { length first.now + length second.now ≤ N }
    ensures { result.items ≡ first.now ++ second.now }
{
    let mut text = ArrayVec::new();
    let _fits = text.try_extend_from_slice(first);
    let _fits = text.try_extend_from_slice(second);
    text
}

/// A word, and a number behind it in decimal digits.
fn numbered(word: &[u8], number: u64) -> ArrayVec<u8, 40>
    requires { length word.now ≤ 20 }
    ensures { result.items ≡ word.now ++ number_text number }
{
    let mut buffer = Buffer::new();
    let digits = buffer.format(number);
    joined(word, digits.as_bytes())
}

/// Whether the numbers agree, and the history with the passes.
fn verdict(raced: Raced) -> &'static [u8]
    ensures { result.now ≡ verdict_text raced }
{
    if raced.agree { b" agree" } else { b" differ" }
}

/// The line of a race that has a result.
fn line_of(raced: Raced) -> ArrayVec<u8, 96>
    ensures { result.items ≡ race_text raced }
{
    let acknowledged = numbered(b"acknowledged ", raced.acknowledged);
    let rows = numbered(b" rows ", raced.rows);
    let numbers: ArrayVec<u8, 80> = joined(&acknowledged, &rows);
    joined(&numbers, verdict(raced))
}

/// How the program ends behind the line of a race.
fn status_of(raced: Raced) -> Status
    ensures { result ≡ race_status raced }
{
    if raced.agree {
        Status::Done
    } else {
        Status::Failed
    }
}

/// Tells a fault in a line.
fn tell_fault<E: Write>(errors: &mut E, name: &str) -> Result<Status, ScriptFault>
    ensures { TellsFault name.now (E.contents errors.old) (E.contents errors.new) result }
{
    write_line(errors, b"fault ", name.as_bytes())?;
    Ok(Status::Failed)
}

/// Tells how the writing of a race's line ended.
fn tell_written<E: Write>(
    errors: &mut E,
    raced: Raced,
    end: Result<(), ScriptFault>,
) -> Result<Status, ScriptFault>
    ensures { TellsWritten raced end (E.contents errors.old) (E.contents errors.new) result }
{
    match end {
        Ok(()) => Ok(status_of(raced)),
        Err(fault) => tell_fault(errors, fault.as_str()),
    }
}

/// Tells what came of a race: a line on `output`, or, where it has no result or the line couldn't be written, the fault in a line on
/// `errors`. `ScriptFault::Write` is answered if that couldn't be written either.
pub fn tell_race<O: Write, E: Write>(
    output: &mut O,
    errors: &mut E,
    end: Result<Raced, RaceFault>,
) -> Result<Status, ScriptFault>
    ensures { TellsRace end (O.contents output.old) (O.contents output.new) (E.contents errors.old) (E.contents errors.new) result }
{
    match end {
        Ok(raced) => tell_written(errors, raced, write_line(output, &line_of(raced), b"")),
        Err(fault) => tell_fault(errors, fault.as_str()),
    }
}
