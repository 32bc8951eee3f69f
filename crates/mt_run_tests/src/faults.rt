//! Readers and writers that give or take little, are interrupted, or fail.

use crate::scripts::{Case, ends};
use mt_choice::keyspaces;
use mt_names::KeyspaceName;
use mt_run::{run_script, run_watched};
use mt_script::ScriptFault;
use mt_watch::Watchers;
use std::alloc::Global;
use std::io;
use std::io::{ErrorKind, Read, Write};
use std::test::Fail;

/// Gives one byte a call, after an interruption where it is told to, and fails in place of one call.
#[derive(Drop)]
pub struct Giver<'a> {
    bytes: &'a [u8],
    interrupts: bool,
    interrupted: bool,
    before_fault: Option<usize>,
}

impl<'a> Read for Giver<'a> {
    fn read(&mut self, buf: &mut [u8]) -> io::Result<usize> {
        if self.interrupts && !self.interrupted {
            self.interrupted = true;
            return Err(io::Error::from(ErrorKind::Interrupted));
        }
        self.interrupted = false;
        if self.before_fault == Some(0) {
            self.before_fault = None;
            return Err(io::Error::from(ErrorKind::BrokenPipe));
        }
        self.before_fault = self.before_fault.map(|count| count.saturating_sub(1));
        let (Some((&byte, rest)), Some(place)) = (self.bytes.split_first(), buf.first_mut()) else {
            return Ok(0);
        };
        *place = byte;
        self.bytes = rest;
        Ok(1)
    }
}

/// A reader of some bytes.
pub fn reader_of(bytes: &[u8], interrupts: bool, before_fault: Option<usize>) -> Giver<'_> {
    Giver {
        bytes,
        interrupts,
        interrupted: false,
        before_fault,
    }
}

/// What a writer without room does.
#[derive(Clone, Copy, Eq, PartialEq)]
pub enum NoRoom {
    Fails,
    TakesNoByte,
}

/// Takes a few bytes a call, after an interruption where it is told to. In the call in which it has no room it does as it is told to, and from
/// then on it has room for all.
#[derive(Drop)]
pub struct Taker {
    held: Vec<u8>,
    step: usize,
    room: usize,
    no_room: NoRoom,
    interrupts: bool,
    interrupted: bool,
}

impl Write for Taker {
    fn write(&mut self, buf: &[u8]) -> io::Result<usize> {
        if self.interrupts && !self.interrupted {
            self.interrupted = true;
            return Err(io::Error::from(ErrorKind::Interrupted));
        }
        self.interrupted = false;
        if self.room == 0 {
            self.room = usize::MAX;
            return match self.no_room {
                NoRoom::Fails => Err(io::Error::from(ErrorKind::StorageFull)),
                NoRoom::TakesNoByte => Ok(0),
            };
        }
        let count = buf.len().min(self.step).min(self.room);
        self.held.extend_from_slice(&buf[..count])?;
        self.room = self.room.saturating_sub(count);
        Ok(count)
    }

    fn flush(&mut self) -> io::Result<()> {
        Ok(())
    }
}

impl Taker {
    /// What it took.
    pub fn held(&self) -> &[u8] {
        self.held.as_slice()
    }
}

/// A writer that takes so many bytes a call, and as many as it has room for up to the call in which it has none.
pub fn writer_with(alloc: Global, step: usize, room: usize, no_room: NoRoom) -> Taker {
    Taker {
        held: Vec::new(alloc),
        step,
        room,
        no_room,
        interrupts: false,
        interrupted: false,
    }
}

/// A writer that is interrupted before each of its calls.
fn interrupting(mut writer: Taker) -> Taker {
    writer.interrupts = true;
    writer
}

const SCRIPT: &[u8] = b"keyspace a\ntable a t\ninsert t 1 v\nget t 1\nrules\nget t 2\n";

const OUTPUT: &[u8] = b"ok\nok\nok\nrow v\n{\"rules\":[]}\nnone\n";

/// Whether a script read so ends so, and what was written is this.
fn reads(alloc: Global, mut reader: Giver<'_>, end: Result<(), ScriptFault>, want: &[u8]) -> bool {
    ends(alloc, &mut reader, end, want)
}

#[test]
fn readers_of_one_byte(rt: HostRuntime) {
    assert!(rt; reads(rt.alloc(), reader_of(SCRIPT, false, None), Ok(()), OUTPUT));
    assert!(rt; reads(rt.alloc(), reader_of(SCRIPT, true, None), Ok(()), OUTPUT));
}

#[test]
fn readers_that_fail(rt: HostRuntime) {
    for place in 0..=SCRIPT.len() {
        let reader = reader_of(SCRIPT, false, Some(place));
        assert!(rt;
            reads(rt.alloc(), reader, Err(ScriptFault::Read), b""),
            "at {place}"
        );
        let interrupted = reader_of(SCRIPT, true, Some(place));
        assert!(rt;
            reads(rt.alloc(), interrupted, Err(ScriptFault::Read), b""),
            "at {place}"
        );
    }
    let late = reader_of(SCRIPT, false, Some(SCRIPT.len() + 1));
    assert!(rt; reads(rt.alloc(), late, Ok(()), OUTPUT));
}

/// A comment of so many bytes.
fn comment(case: &mut Case, length: usize) -> Result<(), Fail> {
    case.repeat(b'#', length)
}

#[test]
fn a_script_that_comes_too_slowly(rt: HostRuntime) -> Result<(), Fail> {
    let mut case = Case::new(rt.alloc());
    comment(&mut case, 1_048_575)?;
    assert!(rt;
        reads(
            rt.alloc(),
            reader_of(case.script(), true, None),
            Ok(()),
            b""
        )
    );
    comment(&mut case, 1)?;
    let slow = reader_of(case.script(), true, None);
    assert!(rt; reads(rt.alloc(), slow, Err(ScriptFault::Read), b""));
    assert!(rt;
        reads(
            rt.alloc(),
            reader_of(case.script(), false, None),
            Ok(()),
            b""
        )
    );
    Ok(())
}

#[test]
fn a_fault_behind_a_long_script(rt: HostRuntime) -> Result<(), Fail> {
    let mut case = Case::new(rt.alloc());
    comment(&mut case, 1_048_577)?;
    let too_long = reader_of(case.script(), false, Some(1_048_577));
    assert!(rt; reads(rt.alloc(), too_long, Err(ScriptFault::TooLong), b""));
    let fails = reader_of(case.script(), false, Some(1_048_576));
    assert!(rt; reads(rt.alloc(), fails, Err(ScriptFault::Read), b""));
    Ok(())
}

/// Whether a script written so ends so, and what was written is this.
fn writes(
    alloc: Global,
    script: &[u8],
    mut writer: Taker,
    end: Result<(), ScriptFault>,
    want: &[u8],
) -> bool {
    let mut reader = script;
    let result = run_script(alloc, &mut reader, &mut writer, Watchers::new(alloc));
    result == end && writer.held() == want
}

/// Whether writers that take so many bytes a call, and have room for the beginning of an output, hold just that, and end
/// the run with a fault.
fn is_cut(alloc: Global, script: &[u8], beginning: &[u8], step: usize) -> bool {
    let fault = Err(ScriptFault::Write);
    let failing = writer_with(alloc, step, beginning.len(), NoRoom::Fails);
    let taking_none = writer_with(alloc, step, beginning.len(), NoRoom::TakesNoByte);
    writes(alloc, script, failing, fault, beginning)
        && writes(alloc, script, taking_none, fault, beginning)
}

#[test]
fn writers_that_take_little(rt: HostRuntime) {
    let one = writer_with(rt.alloc(), 1, OUTPUT.len(), NoRoom::Fails);
    assert!(rt; writes(rt.alloc(), SCRIPT, one, Ok(()), OUTPUT));
    let interrupted = interrupting(writer_with(rt.alloc(), 3, OUTPUT.len(), NoRoom::TakesNoByte));
    assert!(rt; writes(rt.alloc(), SCRIPT, interrupted, Ok(()), OUTPUT));
    let unused = writer_with(rt.alloc(), 1, 0, NoRoom::Fails);
    assert!(rt; writes(rt.alloc(), b"# nothing\n", unused, Ok(()), b""));
}

#[test]
fn writers_that_fail(rt: HostRuntime) {
    for place in 0..OUTPUT.len() {
        assert!(rt;
            is_cut(rt.alloc(), SCRIPT, &OUTPUT[..place], 1),
            "at {place}"
        );
        assert!(rt;
            is_cut(rt.alloc(), SCRIPT, &OUTPUT[..place], 4096),
            "at {place}"
        );
    }
}

/// The first bytes of an output.
fn beginning(output: &[u8], length: usize) -> &[u8] {
    output.split_at(length.min(output.len())).0
}

/// The line of the longest value.
const LONGEST: &str = "row aaaaaaaaaaaaaaaaaaaaaaaaaaaaaaaaaaaaaaaaaaaaaaaaaaaaaaaaaaaaaaaa";

/// A row of the longest value.
const LONGEST_ROW: [(&str, &str); 3] = [
    ("keyspace a", "ok"),
    ("table a t", "ok"),
    (
        "insert t 1 aaaaaaaaaaaaaaaaaaaaaaaaaaaaaaaaaaaaaaaaaaaaaaaaaaaaaaaaaaaaaaaa",
        "ok",
    ),
];

/// A script whose output is longer than what waits at once.
fn long_output(case: &mut Case) -> Result<(), Fail> {
    case.lines(&LONGEST_ROW)?;
    for _ in 0..300u32 {
        case.line("get t 1", LONGEST)?;
    }
    Ok(())
}

/// Whether a writer whose room ends at any of these places holds the beginning of the output up to there.
fn is_cut_anywhere(alloc: Global, case: &Case) -> bool {
    for place in (0..20_709usize).step_by(97) {
        if !is_cut(alloc, case.script(), beginning(case.want(), place), 1000) {
            return false;
        }
    }
    true
}

/// A writer that takes seven bytes a call, each after an interruption, and has room for an output.
fn slow_writer(alloc: Global, output: &[u8]) -> Taker {
    interrupting(writer_with(alloc, 7, output.len(), NoRoom::Fails))
}

#[test]
fn output_in_pieces(rt: HostRuntime) -> Result<(), Fail> {
    let mut case = Case::new(rt.alloc());
    long_output(&mut case)?;
    assert!(rt; case.holds(rt.alloc()));
    assert!(rt; is_cut_anywhere(rt.alloc(), &case));
    let slow = slow_writer(rt.alloc(), case.want());
    assert!(rt; writes(rt.alloc(), case.script(), slow, Ok(()), case.want()));
    Ok(())
}

/// Traffic is switched and sent back, and no write is lost.
const REVERSED: [(&str, &str); 16] = [
    ("keyspace commerce", "ok"),
    ("keyspace customer", "ok"),
    ("table commerce corder", "ok"),
    ("insert corder 1 a", "ok"),
    ("create mv commerce customer corder", "ok"),
    ("advance mv forward 1 100", "events 0 rows 1"),
    ("switch mv all", "ok"),
    ("insert corder 2 b", "ok"),
    ("append corder 1 x", "ok"),
    ("advance mv back 1 100", "events 2 rows 0"),
    ("reverse mv all", "ok"),
    ("get corder 1", "row ax"),
    ("get corder 2", "row b"),
    (
        "show mv",
        "mv commerce customer corder switched - way none forward running 3 copied back none",
    ),
    ("append corder 1 y", "ok"),
    ("get corder 1", "row axy"),
];

/// Whether a case's script that is read so ends so, where these keyspaces are watched, and what was written is this.
fn reads_watched(
    alloc: Global,
    names: &[KeyspaceName],
    mut reader: Giver<'_>,
    end: Result<(), ScriptFault>,
    want: &[u8],
) -> bool {
    let mut written = Vec::new(alloc);
    let result = run_watched(alloc, &mut reader, &mut written, names);
    result == end && written.as_slice() == want
}

/// The first read in whose place one fails that doesn't end the run of a case, with nothing written.
fn first_unheard(alloc: Global, names: &[KeyspaceName], case: &Case) -> Option<usize> {
    for place in 0..=case.len() {
        let reader = reader_of(case.script(), false, Some(place));
        if !reads_watched(alloc, names, reader, Err(ScriptFault::Read), b"") {
            return Some(place);
        }
    }
    None
}

/// Whether a writer of one byte a call that has no room at a place ends the run of a case, and holds its output up to there.
fn is_cut_watched(
    alloc: Global,
    names: &[KeyspaceName],
    case: &Case,
    place: usize,
    no_room: NoRoom,
) -> bool {
    let mut script = case.script();
    let mut writer = writer_with(alloc, 1, place, no_room);
    let result = run_watched(alloc, &mut script, &mut writer, names);
    result == Err(ScriptFault::Write) && writer.held() == beginning(case.want(), place)
}

/// The first place at which one that has no room doesn't.
fn first_uncut(alloc: Global, names: &[KeyspaceName], case: &Case) -> Option<usize> {
    for place in 0..case.want().len() {
        if !is_cut_watched(alloc, names, case, place, NoRoom::Fails)
            || !is_cut_watched(alloc, names, case, place, NoRoom::TakesNoByte)
        {
            return Some(place);
        }
    }
    None
}

#[test]
fn a_move_of_which_one_read_or_write_fails(rt: HostRuntime) -> Result<(), Fail> {
    let names = keyspaces(&["commerce", "customer"])?;
    let mut case = Case::new(rt.alloc());
    case.lines(&REVERSED)?;
    let whole = reader_of(case.script(), true, None);
    assert!(rt; reads_watched(rt.alloc(), &names, whole, Ok(()), case.want()));
    assert_eq!(rt; first_unheard(rt.alloc(), &names, &case), None);
    assert_eq!(rt; first_uncut(rt.alloc(), &names, &case), None);
    Ok(())
}
