//! What is done with a command line, what is told on standard error, and how it ends.

use crate::faults::{NoRoom, writer_with};
use mt_choice::{Choice, USAGE, Wrong, keyspaces};
use mt_names::NameFault;
use mt_run::{Status, perform, run_watched};
use mt_script::ScriptFault;
use std::alloc::Global;
use std::test::Fail;

/// What standard output and standard error hold at the end.
type Streams<'a> = (&'a [u8], &'a [u8]);

/// Whether a command line with this input ends with this status, and the streams hold this.
fn ends(
    alloc: Global,
    asked: Result<Choice, Wrong>,
    mut input: &[u8],
    status: Status,
    want: Streams<'_>,
) -> bool {
    let mut output = Vec::new(alloc);
    let mut errors = Vec::new(alloc);
    let end = perform(alloc, asked, &mut input, &mut output, &mut errors);
    end == Ok(status) && output.as_slice() == want.0 && errors.as_slice() == want.1
}

/// The choice to run a script with two watchers more.
fn run_choice() -> Result<Choice, Wrong> {
    match keyspaces(&["a", "a"]) {
        Ok(names) => Ok(Choice::Run(names)),
        Err(fault) => Err(Wrong::Words(fault)),
    }
}

#[test]
fn scripts_of_a_command_line(rt: HostRuntime) {
    let taken = (b"ok\n".as_slice(), b"".as_slice());
    assert!(rt; ends(rt.alloc(), run_choice(), b"keyspace a", Status::Done, taken));
    let refused = (b"refused X1 BadLine\n".as_slice(), b"".as_slice());
    assert!(rt; ends(rt.alloc(), run_choice(), b"switch", Status::Done, refused));
}

#[test]
fn documents_of_a_command_line(rt: HostRuntime) {
    let taken = (b"{\"rules\":[]}\n".as_slice(), b"".as_slice());
    assert!(rt; ends(rt.alloc(), Ok(Choice::Rules), b"{}", Status::Done, taken));
    let refused = (b"refused R2 NotJson\n".as_slice(), b"".as_slice());
    assert!(rt; ends(rt.alloc(), Ok(Choice::Rules), b"{", Status::Failed, refused));
    let bad_dump = (b"refused T6 BadDump\n".as_slice(), b"".as_slice());
    assert!(rt;
        ends(
            rt.alloc(),
            Ok(Choice::Topology),
            b"{}",
            Status::Failed,
            bad_dump
        )
    );
}

/// The choice of help.
fn help(alloc: Global) -> Result<Choice, Fail> {
    Ok(Choice::Help(format!(in alloc; "Usage: mt")?))
}

/// The line for words that don't parse.
fn usage_line(alloc: Global) -> Result<String, Fail> {
    Ok(format!(in alloc; "{USAGE}\n")?)
}

#[test]
fn words_that_ask_for_nothing(rt: HostRuntime) -> Result<(), Fail> {
    let line = usage_line(rt.alloc())?;
    let usage = (b"".as_slice(), line.as_bytes());
    let race = Ok(Choice::Race {
        clients: 2,
        writes: 10,
    });
    assert!(rt; ends(rt.alloc(), race, b"keyspace a", Status::Misused, usage));
    assert!(rt;
        ends(
            rt.alloc(),
            Err(Wrong::Usage),
            b"keyspace a",
            Status::Misused,
            usage
        )
    );
    let too_many = (b"".as_slice(), b"N7 TooMany\n".as_slice());
    let words = Err(Wrong::Words(NameFault::TooMany));
    assert!(rt; ends(rt.alloc(), words, b"keyspace a", Status::Misused, too_many));
    let memory = (b"".as_slice(), b"fault Memory\n".as_slice());
    assert!(rt;
        ends(
            rt.alloc(),
            Err(Wrong::Memory),
            b"keyspace a",
            Status::Failed,
            memory
        )
    );
    let text = (b"Usage: mt".as_slice(), b"".as_slice());
    assert!(rt;
        ends(
            rt.alloc(),
            Ok(help(rt.alloc())?),
            b"keyspace a",
            Status::Done,
            text
        )
    );
    Ok(())
}

/// Whether help on a standard output with too little room ends as a fault that is told, and leaves the input unread.
fn help_is_cut(alloc: Global, choice: Choice) -> bool {
    let mut input = b"keyspace a".as_slice();
    let mut output = writer_with(alloc, 4, 5, NoRoom::Fails);
    let mut errors = Vec::new(alloc);
    let end = perform(alloc, Ok(choice), &mut input, &mut output, &mut errors);
    end == Ok(Status::Failed)
        && output.held() == b"Usage".as_slice()
        && errors.as_slice() == b"fault Write\n".as_slice()
        && input == b"keyspace a".as_slice()
}

/// Whether a line on a standard error with too little room ends as a write fault.
fn usage_is_cut(alloc: Global) -> bool {
    let mut input = b"".as_slice();
    let mut output = Vec::new(alloc);
    let mut errors = writer_with(alloc, 4, 5, NoRoom::TakesNoByte);
    let end = perform(
        alloc,
        Err(Wrong::Usage),
        &mut input,
        &mut output,
        &mut errors,
    );
    end == Err(ScriptFault::Write) && output.is_empty() && errors.held() == b"usage".as_slice()
}

#[test]
fn streams_that_fail(rt: HostRuntime) -> Result<(), Fail> {
    assert!(rt; help_is_cut(rt.alloc(), help(rt.alloc())?));
    assert!(rt; usage_is_cut(rt.alloc()));
    Ok(())
}

#[test]
fn a_watched_run(rt: HostRuntime) {
    let mut input = b"keyspace a\ntable a t\n".as_slice();
    let mut output = Vec::new(rt.alloc());
    let end = run_watched(rt.alloc(), &mut input, &mut output, &[]);
    assert!(rt; end == Ok(()) && output.as_slice() == b"ok\nok\n".as_slice());
}
