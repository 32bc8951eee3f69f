//! What C calls. Nothing checks that a C caller hands in what a parameter's type says: `embed/mt.h` says what it owes.
ghost use Rattle.std.specs.Prelude.{◌≡◌, IfErr, IfOk, true};
ghost use Rattle.mt.specs.Exports.{Commands, Ends, HasNoOutput, IsClosed, IsOutputOf, Opens, RunsWhole, WroteAScript};

use crate::handle::Handle;
use crate::names::watched;
use crate::place::put;
use crate::session::Session;
use crate::status::Status;
use crate::version;
use mt_run::run_watched;
use mt_script::ScriptFault;
use std::alloc::Global;
use std::mem;

/// The version of the library: major * 1,000,000 + minor * 1,000 + patch.
#[unsafe(no_mangle)]
pub extern "C" fn mt_version() -> i32 {
    version::number()
}

/// Opens a session, in which the primaries of these keyspaces are watched, which are words with blanks between them. `Open` if one is open,
/// which stays; `Names` and `Memory` open none.
#[unsafe(no_mangle)]
pub extern "C" fn mt_open(alloc: Global, session: &mut Handle, keyspaces: &[u8]) -> i32
    ensures { Ends (Opens session.old session.new keyspaces.now) result }
{
    if session.opened {
        return Status::Open.number();
    }
    match Session::open(alloc, keyspaces) {
        Ok(opened) => {
            *session = Handle::of(opened);
            Status::Done.number()
        }
        Err(status) => status.number(),
    }
}

/// Answers a line of a session. After another status than `Done` the session is as it was, and nothing is answered; after `Room` the number
/// of bytes is that of the room that a document takes, or 0 if the room is smaller than that of the longest answer beside them.
#[unsafe(no_mangle)]
pub extern "C" fn mt_command(
    alloc: Global,
    session: &mut Handle,
    line: &[u8],
    answer: &mut [u8],
    written: &mut usize,
) -> i32
    ensures told { Ends (Commands session.old session.new line.now answer.old answer.new written.new) result }
    ensures wrote { session.new.opened ≡ true → ∥ WroteAScript session.new.held.scopes session.new.held.lines session.new.held.out ∥₁ }
{
    *written = 0;
    match mem::replace(session, Handle::closed()).into_session(alloc) {
        Some(mut opened) => {
            let (status, count) = opened.answer(line, answer);
            *written = count;
            *session = Handle::of(opened);
            status.number()
        }
        None => Status::Closed.number(),
    }
}

/// Closes a session, if it is open.
#[unsafe(no_mangle)]
pub extern "C" fn mt_close(alloc: Global, session: &mut Handle)
    ensures { IsClosed session.new }
{
    let _closed = mem::replace(session, Handle::closed()).into_session(alloc);
}

/// What `mt run` writes for a script, with the primaries of these keyspaces watched.
fn output_of(alloc: Global, keyspaces: &[u8], script: &[u8]) -> Result<Vec<u8>, Status>
    ensures output { IfOk result (λ text. IsOutputOf keyspaces.now script.now text.items) }
    ensures none { IfErr result (λ status. HasNoOutput keyspaces.now script.now status) }
{
    let Some(keyspaces) = watched(keyspaces) else {
        return Err(Status::Names);
    };
    let mut reader = script;
    let mut writer = Vec::new(alloc);
    match run_watched(alloc, &mut reader, &mut writer, &keyspaces) {
        Ok(()) => Ok(writer),
        Err(ScriptFault::TooLong) => Err(Status::TooLong),
        Err(_) => Err(Status::Memory),
    }
}

/// Runs a script as `mt run` does, with the primaries of these keyspaces watched. After another status than `Done` nothing is put; after `Room` the
/// number of bytes is that of the room that the output takes.
#[unsafe(no_mangle)]
pub extern "C" fn mt_run(
    alloc: Global,
    keyspaces: &[u8],
    script: &[u8],
    output: &mut [u8],
    written: &mut usize,
) -> i32
    ensures { Ends (RunsWhole keyspaces.now script.now output.old output.new written.new) result }
{
    *written = 0;
    match output_of(alloc, keyspaces, script) {
        Ok(text) => {
            let (status, count) = put(&text, b"", output);
            *written = count;
            status.number()
        }
        Err(status) => status.number(),
    }
}
