//! Running a script: its lines are answered one after the other, and the answers written in pieces.
ghost use Rattle.std.specs.Prelude.{[]};
ghost use Rattle.mt_plain.specs.Plain.{opening};
ghost use Rattle.mt_run.specs.LineRuns.{SoFar, WritesAnswer};
ghost use Rattle.mt_run.specs.Runs.{Runs, RunsLines};

use crate::line_run::{Answered, LineRun};
use mt_script::{ScriptFault, Waiting, first_line, flush, make_room, put_document, read_script};
use mt_watch::Asks;
use std::alloc::Global;
use std::io::{Read, Write};

/// Writes the document that answers a line; where there was no memory for it, what waits is written, and that is the fault.
fn write_answer<W: Write>(
    answered: Answered,
    waiting: &mut Waiting,
    writer: &mut W,
) -> Result<(), ScriptFault>
    ensures { WritesAnswer (W.contents writer.old) (W.contents writer.new) waiting.old.items waiting.new.items answered result }
{
    match answered {
        Answered::Line => Ok(()),
        Answered::Document(text) => put_document(waiting, writer, text.as_bytes()),
        Answered::NoMemory => {
            flush(waiting, writer)?;
            Err(ScriptFault::Memory)
        }
    }
}

/// Answers each line of a script, and writes the answers in pieces.
fn run_lines<W: Write, A: Asks>(
    run: &mut LineRun<A>,
    script: &[u8],
    writer: &mut W,
) -> Result<(), ScriptFault>
    ensures { SoFar (A.scopes run.old.cached.site.watchers) [] [] run.old.cached.site.core
        → RunsLines (opening (A.scopes run.old.cached.site.watchers)) script.now (W.contents writer.old) (W.contents writer.new) result }
{
    let mut waiting = Waiting::new();
    let mut rest = script;
    while let Some((line, after)) = first_line(rest) {
        make_room(&mut waiting, writer)?;
        let answered = run.answer(&mut waiting, line);
        write_answer(answered, &mut waiting, writer)?;
        rest = after;
    }
    flush(&mut waiting, writer)
}

/// Runs a script: reads it whole, of 1,048,576 bytes at most and in at most 2,097,152 reads, and then writes a line for each
/// of its lines that isn't silent. It begins with a topology without keyspaces, and ends with the last line. An event that
/// finds no memory is answered `refused F0 Memory`; a fault ends the run, and `ScriptFault` says what each leaves written.
/// Where a document finds no memory, the lines before it are answered and the run ends as `Memory`. An event that asks,
/// as `create` and a step that refreshes a primary do, asks these watchers.
pub fn run_script<R: Read, W: Write, A: Asks + Drop>(
    alloc: Global,
    reader: &mut R,
    writer: &mut W,
    watchers: A,
) -> Result<(), ScriptFault>
    ensures { Runs (A.scopes watchers) (R.remaining reader.old) (R.remaining reader.new) (W.contents writer.old) (W.contents writer.new) result }
{
    let script = read_script(alloc, reader)?;
    let mut run = LineRun::open(alloc, watchers);
    run_lines(&mut run, &script, writer)
}
