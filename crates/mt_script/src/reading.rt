//! Reading a script, or a document under a script's limits.
ghost use Rattle.std.specs.Result.{result_map_both};
ghost use Rattle.mt_script.specs.Bytes.{Reads, ReadsMore};

use crate::fault::ScriptFault;
use std::alloc::Global;
use std::io::{ErrorKind, Read};

/// The longest script, in bytes.
pub const MAX_SCRIPT_LENGTH: usize = 1_048_576;

/// In how many reads a script is read at most, the one that tells its end among them.
pub const MAX_READS: u32 = 2_097_152;

/// How many bytes are asked for at once.
const PIECE: usize = 16_384;

/// Whether there may be more of a script.
#[derive(Clone, Copy, Debug, Eq, PartialEq)]
pub enum Progress {
    /// The end was not told yet.
    More,
    /// The script is whole.
    Whole,
}

/// Reads once, by way of a piece, and adds what was read to the script. After a fault the script is as it was.
fn read_more<R: Read>(
    script: &mut Vec<u8>,
    piece: &mut [u8; PIECE],
    reader: &mut R,
) -> Result<Progress, ScriptFault>
    ensures { ReadsMore (R.remaining reader.old) (R.remaining reader.new) script.old.items script.new.items result }
{
    let count = match reader.read(piece) {
        Ok(count) => count,
        Err(error) if error.kind() == ErrorKind::Interrupted => return Ok(Progress::More),
        Err(_) => return Err(ScriptFault::Read),
    };
    if count == 0 {
        return Ok(Progress::Whole);
    }
    if script.extend_from_slice(&piece[..count]).is_err() {
        return Err(ScriptFault::Memory);
    }
    Ok(Progress::More)
}

/// Reads a script or a document to its end, 1,048,576 bytes at most and in at most 2,097,152 reads. A fault leaves no
/// script: what was read is gone. `TooLong` comes with the read that passes the limit, of at most 16,384 bytes; `Read` and
/// `Memory` at any read.
pub fn read_script<R: Read>(alloc: Global, reader: &mut R) -> Result<Vec<u8>, ScriptFault>
    ensures { Reads (R.remaining reader.old) (R.remaining reader.new) (result_map_both (λ script. script.items) (λ fault. fault) result) }
{
    let mut script = Vec::new(alloc);
    let mut piece = [0; PIECE];
    for _ in 0..MAX_READS {
        match read_more(&mut script, &mut piece, reader)? {
            Progress::Whole => return Ok(script),
            Progress::More => {
                if script.len() > MAX_SCRIPT_LENGTH {
                    return Err(ScriptFault::TooLong);
                }
            }
        }
    }
    Err(ScriptFault::Read)
}
