//! Output that goes out in pieces.
ghost use Rattle.std.specs.Prelude.{◌≡◌, ◌≤◌, ◌+◌, ◌++◌, [], length, OnOk};
ghost use Rattle.mt_plain.specs.Output.{line_feed};
ghost use Rattle.mt_script.specs.Bytes.{Writes, WritesSome};

use crate::fault::ScriptFault;
use arrayvec::ArrayVec;
use std::io::{ErrorKind, Write};

/// How many bytes of output wait at most.
pub const ROOM: usize = 8192;

/// The longest line of output, in bytes: what is told of a workflow that moves 16 tables to 8 shards, with each name of 64 bytes, each
/// range of 33 and each number of 20 digits, and the line feed.
pub const LONGEST_LINE: usize = 2416;

/// Output that is still to be written.
pub type Waiting = ArrayVec<u8, ROOM>;

/// Writes once, and answers how many of the bytes went out: none where the write was interrupted. A write that fails or
/// takes no byte is a fault, and nothing went out.
fn write_some<W: Write>(writer: &mut W, bytes: &[u8]) -> Result<usize, ScriptFault>
    ensures { WritesSome (W.contents writer.old) (W.contents writer.new) bytes.now result }
{
    match writer.write(bytes) {
        Ok(0) => Err(ScriptFault::Write),
        Ok(count) => Ok(count),
        Err(error) if error.kind() == ErrorKind::Interrupted => Ok(0),
        Err(_) => Err(ScriptFault::Write),
    }
}

/// Writes some bytes. After a fault the first of them are written, and not all.
pub fn write_all<W: Write>(writer: &mut W, bytes: &[u8]) -> Result<(), ScriptFault>
    ensures { Writes (W.contents writer.old) (W.contents writer.new) bytes.now [] result }
{
    let mut rest = bytes;
    for _ in 0..u64::MAX {
        if rest.is_empty() {
            break;
        }
        let count = write_some(writer, rest)?;
        rest = rest.split_at(count).1;
    }
    if rest.is_empty() {
        return Ok(());
    }
    Err(ScriptFault::Write)
}

/// Writes two texts in a line of their own, one behind the other. After a fault a beginning of the line is written.
pub fn write_line<W: Write>(writer: &mut W, first: &[u8], second: &[u8]) -> Result<(), ScriptFault>
    ensures { Writes (W.contents writer.old) (W.contents writer.new) (first.now ++ second.now ++ line_feed) [] result }
{
    write_all(writer, first)?;
    write_all(writer, second)?;
    write_all(writer, b"\n")
}

/// Writes all that waits. Nothing waits then, after a fault either: what was not written is given up.
pub fn flush<W: Write>(waiting: &mut Waiting, writer: &mut W) -> Result<(), ScriptFault>
    ensures writes { Writes (W.contents writer.old) (W.contents writer.new) waiting.old.items waiting.new.items result }
    ensures empty { waiting.new.items ≡ [] }
{
    let end = write_all(writer, waiting);
    waiting.clear();
    end
}

/// Makes room for a line: where there is none, all that waits is written. After a fault nothing waits.
pub fn make_room<W: Write>(waiting: &mut Waiting, writer: &mut W) -> Result<(), ScriptFault>
    ensures writes { Writes (W.contents writer.old) (W.contents writer.new) waiting.old.items waiting.new.items result }
    ensures room { OnOk result (length waiting.new.items + LONGEST_LINE ≤ ROOM) }
{
    if waiting.remaining_capacity() >= LONGEST_LINE {
        return Ok(());
    }
    flush(waiting, writer)
}

/// Adds a line to what waits, and writes what waited first if there is no room for the line. After a fault nothing waits.
pub fn put_line<W: Write>(
    waiting: &mut Waiting,
    writer: &mut W,
    line: &[u8],
) -> Result<(), ScriptFault>
    requires { length line.now ≤ LONGEST_LINE }
    ensures { Writes (W.contents writer.old) (W.contents writer.new) (waiting.old.items ++ line.now) waiting.new.items result }
{
    make_room(waiting, writer)?;
    let _fits = waiting.try_extend_from_slice(line);
    Ok(())
}

/// Writes what waits, and then a document in a line of its own. The document isn't kept: only its line feed waits. After a
/// fault nothing waits.
pub fn put_document<W: Write>(
    waiting: &mut Waiting,
    writer: &mut W,
    text: &[u8],
) -> Result<(), ScriptFault>
    ensures { Writes (W.contents writer.old) (W.contents writer.new) (waiting.old.items ++ text.now ++ line_feed) waiting.new.items result }
{
    flush(waiting, writer)?;
    write_all(writer, text)?;
    put_line(waiting, writer, b"\n")
}
