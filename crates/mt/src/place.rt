//! Texts in a place that C lends.
ghost use Rattle.std.specs.Prelude.{◌+◌, ◌++◌, ◌<◌, ◌≤◌, ◌^◌, length};
ghost use Rattle.mt.specs.Places.{Puts, PutsAnswer};

use crate::status::Status;
use mt_run::Answered;
use mt_script::LONGEST_LINE;

/// Puts two texts into a place, one behind the other, and says how many bytes they have. If there is no room for both, none is put.
pub fn put(first: &[u8], second: &[u8], place: &mut [u8]) -> (Status, usize)
    requires { length first.now + length second.now < 2 ^ 64 }
    ensures { Puts (first.now ++ second.now) place.old place.new result }
{
    let length = first.len() + second.len();
    if place.len() < length {
        return (Status::Room, length);
    }
    let (whole, _) = place.split_at_mut(length);
    let (left, right) = whole.split_at_mut(first.len());
    left.copy_from_slice(first);
    right.copy_from_slice(second);
    (Status::Done, length)
}

/// Puts what answers a line into a place: what waits, or a document with its line feed, or nothing.
pub fn put_answer(answered: Answered, waiting: &[u8], place: &mut [u8]) -> (Status, usize)
    requires { length waiting.now ≤ LONGEST_LINE }
    ensures { PutsAnswer answered waiting.now place.old place.new result }
{
    match answered {
        Answered::Line => put(waiting, b"", place),
        Answered::Document(text) => put(text.as_bytes(), b"\n", place),
        Answered::NoMemory => (Status::Memory, 0),
    }
}
