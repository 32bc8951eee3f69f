//! Documents behind a line, and documents that are written in their canonical form.

use crate::faults::{NoRoom, reader_of, writer_with};
use crate::scripts::Case;
use mt_run::{canon_dump, canon_rules};
use mt_script::ScriptFault;
use std::alloc::Global;
use std::io::Read;
use std::test::Fail;

/// The dump of two keyspaces, of which `b` has the table `t`.
const TWO: &str =
    "{\"denied\":[],\"keyspaces\":[{\"name\":\"a\",\"shards\":[\"-\"],\"tables\":[]},{\"name\":\"b\",\"shards\":[\"-\"],\"tables\":[\"t\"]}],\"rules\":[],\"version\":2}";

/// Which document is read.
#[derive(Clone, Copy, Eq, PartialEq)]
enum Kind {
    Rules,
    Dump,
}

/// Whether a document that is read ends so, and what was written is this.
fn writes_canon<R: Read>(
    alloc: Global,
    kind: Kind,
    reader: &mut R,
    end: Result<bool, ScriptFault>,
    want: &[u8],
) -> bool {
    let mut written = Vec::new(alloc);
    let result = match kind {
        Kind::Rules => canon_rules(alloc, reader, &mut written),
        Kind::Dump => canon_dump(alloc, reader, &mut written),
    };
    result == end && written.as_slice() == want
}

/// Documents, each with whether it is taken, and the line that is written.
const DOCUMENTS: [(Kind, &str, bool, &str); 4] = [
    (
        Kind::Rules,
        "{\"rules\":[{\"fromTable\":\"b\",\"toTables\":[\"k.b\"],\"x\":1},{\"from_table\":\"a@replica\",\"to_tables\":[\"k.a\"]}]}",
        true,
        "{\"rules\":[{\"from_table\":\"a@replica\",\"to_tables\":[\"k.a\"]},{\"from_table\":\"b\",\"to_tables\":[\"k.b\"]}]}\n",
    ),
    (Kind::Rules, "{\"rules\":[", false, "refused R2 NotJson\n"),
    (Kind::Rules, "[]", false, "refused R3 Shape\n"),
    (Kind::Dump, "{}", false, "refused T6 BadDump\n"),
];

#[test]
fn documents_in_canonical_form(rt: HostRuntime) {
    for (at, (kind, text, is_taken, want)) in DOCUMENTS.iter().enumerate() {
        let mut reader = text.as_bytes();
        assert!(rt;
            writes_canon(
                rt.alloc(),
                *kind,
                &mut reader,
                Ok(*is_taken),
                want.as_bytes()
            ),
            "at {at}"
        );
    }
}

#[test]
fn dump_read_back(rt: HostRuntime) -> Result<(), Fail> {
    let line = format!(in rt.alloc(); "{TWO}\n")?;
    let mut reader = TWO.as_bytes();
    assert!(rt;
        writes_canon(
            rt.alloc(),
            Kind::Dump,
            &mut reader,
            Ok(true),
            line.as_bytes()
        )
    );
    Ok(())
}

/// The longest document.
fn longest_document(case: &mut Case) -> Result<(), Fail> {
    case.add(b"{}", b"{\"rules\":[]}\n")?;
    case.repeat(b' ', 1_048_574)
}

/// Whether a document is refused as too long, with nothing written.
fn is_too_long(alloc: Global, kind: Kind, mut text: &[u8]) -> bool {
    writes_canon(alloc, kind, &mut text, Err(ScriptFault::TooLong), b"")
}

#[test]
fn documents_at_the_limit(rt: HostRuntime) -> Result<(), Fail> {
    let mut case = Case::new(rt.alloc());
    longest_document(&mut case)?;
    let mut reader = case.script();
    assert!(rt; writes_canon(rt.alloc(), Kind::Rules, &mut reader, Ok(true), case.want()));
    case.repeat(b' ', 1)?;
    assert!(rt; is_too_long(rt.alloc(), Kind::Rules, case.script()));
    assert!(rt; is_too_long(rt.alloc(), Kind::Dump, case.script()));
    Ok(())
}

/// Whether a writer with too little room is left with a beginning of a document's line.
fn is_cut(alloc: Global, room: usize) -> bool {
    let want = b"{\"rules\":[]}\n";
    let mut writer = writer_with(alloc, 5, room, NoRoom::Fails);
    let result = canon_rules(alloc, &mut b"{}".as_slice(), &mut writer);
    result == Err(ScriptFault::Write) && writer.held() == want.split_at(room.min(want.len())).0
}

#[test]
fn documents_whose_writer_fails(rt: HostRuntime) {
    for room in 0..13usize {
        assert!(rt; is_cut(rt.alloc(), room), "at {room}");
    }
}

/// Whether a reader of `{}` that fails in place of one call ends the run, with nothing written.
fn is_unread(alloc: Global, kind: Kind, interrupts: bool, before_fault: usize) -> bool {
    let mut reader = reader_of(b"{}", interrupts, Some(before_fault));
    writes_canon(alloc, kind, &mut reader, Err(ScriptFault::Read), b"")
}

#[test]
fn documents_whose_reader_fails(rt: HostRuntime) {
    for place in 0..3usize {
        assert!(rt;
            is_unread(rt.alloc(), Kind::Rules, false, place)
                && is_unread(rt.alloc(), Kind::Rules, true, place)
                && is_unread(rt.alloc(), Kind::Dump, false, place)
                && is_unread(rt.alloc(), Kind::Dump, true, place),
            "at {place}"
        );
    }
}
