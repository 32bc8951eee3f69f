//! A script with those watching that `mt run` has.
ghost use Rattle.mt_plain.specs.Output.{watchers_of};
ghost use Rattle.mt_run.specs.Runs.{Runs};

use crate::run_script;
use crate::tellers::Tellers;
use mt_names::KeyspaceName;
use mt_script::ScriptFault;
use std::alloc::Global;
use std::io::{Read, Write};

/// Runs a script as `run_script` does, with a watcher for the routers and one for the primary of each keyspace that is
/// named. If there is no memory for them the run ends with `ScriptFault::Memory`, and nothing was read or written.
pub fn run_watched<R: Read, W: Write>(
    alloc: Global,
    reader: &mut R,
    writer: &mut W,
    keyspaces: &[KeyspaceName],
) -> Result<(), ScriptFault>
    ensures { Runs (watchers_of keyspaces.now) (R.remaining reader.old) (R.remaining reader.new) (W.contents writer.old) (W.contents writer.new) result }
{
    let watchers = Tellers::of(alloc, keyspaces)?;
    run_script(alloc, reader, writer, watchers)
}
