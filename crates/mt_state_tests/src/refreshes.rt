//! Denials that a primary takes over from notices, by direct calls.

use crate::phases::{Phase, first_wrong};
use crate::primary::{Answer, Call, LONGEST, all_answered};
use mt_names::{KeyspaceName, NameFault, TableName, TabletType};
use mt_primary::{Before, Primary, PrimaryFault};
use mt_watch::{Entry, Notice};
use std::alloc::Global;

/// What a denied call is answered with.
pub const DENIED: Answer<'static> = Answer::Refused(PrimaryFault::Denied);

/// Whether a notice is told that a keyspace denies a table, or allows it.
fn is_told(
    notice: &mut Notice,
    keyspace: &str,
    table: &str,
    denied: bool,
) -> Result<bool, NameFault> {
    let keyspace = KeyspaceName::parse(keyspace)?;
    let entry = Entry::Denied(keyspace, TableName::parse(table)?, denied);
    Ok(notice.push(entry).is_ok())
}

/// Whether a notice is told so of each of some tables.
fn all_told(notice: &mut Notice, keyspace: &str, said: &[(&str, bool)]) -> bool {
    for (table, denied) in said {
        if !is_told(notice, keyspace, table, *denied).unwrap_or(false) {
            return false;
        }
    }
    true
}

/// Takes over what a notice says of the table `t` at the keyspace `k`, the primary's own.
fn take_own(primary: &mut Primary, notice: &Notice) -> Result<Before, NameFault> {
    let own = KeyspaceName::parse("k")?;
    Ok(primary.take_denied(&own, notice, &[TableName::parse("t")?]))
}

/// Takes over what a notice says of the tables `t` and `u` there.
fn take_both(primary: &mut Primary, notice: &Notice) -> Result<(), NameFault> {
    let own = KeyspaceName::parse("k")?;
    let tables = [TableName::parse("t")?, TableName::parse("u")?];
    primary.take_denied(&own, notice, &tables);
    Ok(())
}

/// Whether calls are answered so as long as what a notice says of `t` is taken over. It is given back then.
fn goes_meanwhile(
    primary: &mut Primary,
    notice: &Notice,
    calls: &[(Call<'_>, Answer<'_>)],
) -> bool {
    match take_own(primary, notice) {
        Ok(before) => {
            let goes = all_answered(primary, calls);
            primary.put_denied(before);
            goes
        }
        Err(_) => false,
    }
}

/// Whether calls are answered so as long as what a new notice says of tables of `k` is taken over.
pub fn is_given_back(
    primary: &mut Primary,
    alloc: Global,
    said: &[(&str, bool)],
    calls: &[(Call<'_>, Answer<'_>)],
) -> bool {
    let mut notice = Notice::new(alloc);
    all_told(&mut notice, "k", said) && goes_meanwhile(primary, &notice, calls)
}

/// Whether what the notice of a keyspace says of the tables `t` and `u` is taken over.
pub fn is_taken(
    primary: &mut Primary,
    alloc: Global,
    keyspace: &str,
    said: &[(&str, bool)],
) -> bool {
    let mut notice = Notice::new(alloc);
    all_told(&mut notice, keyspace, said) && take_both(primary, &notice).is_ok()
}

/// The row that is there.
pub const ROW: [(Call<'static>, Answer<'static>); 1] = [(
    Call::Insert("t", 7, &LONGEST),
    Answer::At(1),
)];

/// Both tables are denied.
pub const BOTH: [(&str, bool); 2] = [("t", true), ("u", true)];

/// What is answered where `t` is denied and `u` isn't: a denied table is read by the other types.
const T_IS_DENIED: [(Call<'static>, Answer<'static>); 7] = [
    (Call::Insert("t", 2, b"b"), DENIED),
    (Call::Insert("u", 2, b"b"), Answer::At(2)),
    (Call::Read("t", 7, TabletType::Primary), DENIED),
    (
        Call::Read("t", 7, TabletType::Replica),
        Answer::Row(&LONGEST),
    ),
    (
        Call::Read("t", 7, TabletType::Rdonly),
        Answer::Row(&LONGEST),
    ),
    (Call::Read("t", 8, TabletType::Rdonly), Answer::NoRow),
    (Call::Read("u", 2, TabletType::Primary), Answer::Row(b"b")),
];

/// A write that is taken behind the one to `u`.
const T_IS_ALLOWED: [(Call<'static>, Answer<'static>); 1] = [(
    Call::Insert("t", 2, b"b"),
    Answer::At(3),
)];

/// Two tables with a row, of which one is denied for a while.
static REFRESHED: [Phase; 4] = [
    Phase::Made(&["t", "u"]),
    Phase::Answered(&ROW),
    Phase::Meanwhile(&BOTH, &T_IS_DENIED),
    Phase::Answered(&T_IS_ALLOWED),
];

#[test]
fn a_refresh_concerns_the_named_table(rt: HostRuntime) {
    assert_eq!(rt; first_wrong(rt.alloc(), &REFRESHED), None);
}

/// What is answered where `u` is denied and `t` isn't.
const U_IS_DENIED: [(Call<'static>, Answer<'static>); 2] = [
    (Call::Insert("t", 1, b"a"), Answer::At(2)),
    (Call::Insert("u", 1, b"a"), DENIED),
];

/// What is answered where both are denied. A denial is told before what is wrong with the row.
const BOTH_ARE_DENIED: [(Call<'static>, Answer<'static>); 10] = [
    (Call::Insert("u", 2, b"a"), DENIED),
    (Call::Insert("t", 7, b"b"), DENIED),
    (Call::Insert("t", 8, b"b"), DENIED),
    (Call::Update("t", 8, b"b"), DENIED),
    (Call::Append("t", 8, b"b"), DENIED),
    (Call::Delete("t", 8), DENIED),
    (Call::Append("t", 7, b"b"), DENIED),
    (Call::Delete("t", 7), DENIED),
    (Call::Read("t", 8, TabletType::Primary), DENIED),
    (
        Call::Read("t", 7, TabletType::Replica),
        Answer::Row(&LONGEST),
    ),
];

/// Of several entries for a table the last one counts.
const ALLOWED: [(&str, bool); 3] = [("t", true), ("t", false), ("u", false)];

/// Both are denied, and one is allowed for a while.
static UNDONE: [Phase; 5] = [
    Phase::Made(&["t", "u"]),
    Phase::Answered(&ROW),
    Phase::Noticed("k", &BOTH),
    Phase::Meanwhile(&ALLOWED, &U_IS_DENIED),
    Phase::Answered(&BOTH_ARE_DENIED),
];

#[test]
fn an_undo_gives_back_the_named_table(rt: HostRuntime) {
    assert_eq!(rt; first_wrong(rt.alloc(), &UNDONE), None);
}

/// Both are denied; then a notice of another keyspace and one of nothing come.
static NOTICED: [Phase; 7] = [
    Phase::Made(&["t", "u"]),
    Phase::Answered(&ROW),
    Phase::Noticed("k", &BOTH),
    Phase::Noticed("other", &[("t", false)]),
    Phase::Noticed("k", &[]),
    Phase::Answered(&BOTH_ARE_DENIED),
    Phase::At(1),
];

#[test]
fn a_notice_of_nothing_leaves_the_denials(rt: HostRuntime) {
    assert_eq!(rt; first_wrong(rt.alloc(), &NOTICED), None);
}
