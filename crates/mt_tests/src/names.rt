//! What each reader takes and refuses, and how the answers are printed.
use mt_names::{
    KeyspaceName, NameFault, RuleKey, RuleTarget, TableName, TypeSet, WorkflowName, table_list,
};
use std::alloc::Global;

/// 64 letters, the longest name.
const LONGEST: &str = "aaaaaaaaaaaaaaaaaaaaaaaaaaaaaaaaaaaaaaaaaaaaaaaaaaaaaaaaaaaaaaaa";

/// 65 letters.
const TOO_LONG: &str = "aaaaaaaaaaaaaaaaaaaaaaaaaaaaaaaaaaaaaaaaaaaaaaaaaaaaaaaaaaaaaaaaa";

/// A `-` and 64 letters.
const TOO_LONG_BEHIND_DASH: &str =
    "-aaaaaaaaaaaaaaaaaaaaaaaaaaaaaaaaaaaaaaaaaaaaaaaaaaaaaaaaaaaaaaaa";

/// The names of 16 tables, the longest list.
const SIXTEEN_TABLES: &str = "t1,t2,t3,t4,t5,t6,t7,t8,t9,t10,t11,t12,t13,t14,t15,t16";

/// The names of 17 tables.
const SEVENTEEN_TABLES: &str = "t1,t2,t3,t4,t5,t6,t7,t8,t9,t10,t11,t12,t13,t14,t15,t16,t17";

/// The names of 16 tables, and then the first of them again.
const SIXTEEN_TABLES_AND_THE_FIRST: &str =
    "t1,t2,t3,t4,t5,t6,t7,t8,t9,t10,t11,t12,t13,t14,t15,t16,t1";

/// What a text is read as.
#[derive(Clone, Copy)]
enum Kind {
    Keyspace,
    Table,
    Workflow,
    Key,
    Target,
    Types,
}

/// How what is read is written again, or why the text is refused.
type Read = Result<&'static str, NameFault>;

fn reads_keyspace(text: &str, want: Read) -> bool {
    match KeyspaceName::parse(text) {
        Ok(name) => want == Ok(name.as_str()),
        Err(fault) => want == Err(fault),
    }
}

fn reads_table(text: &str, want: Read) -> bool {
    match TableName::parse(text) {
        Ok(name) => want == Ok(name.as_str()),
        Err(fault) => want == Err(fault),
    }
}

fn reads_workflow(text: &str, want: Read) -> bool {
    match WorkflowName::parse(text) {
        Ok(name) => want == Ok(name.as_str()),
        Err(fault) => want == Err(fault),
    }
}

fn reads_key(text: &str, want: Read) -> bool {
    match RuleKey::parse(text) {
        Ok(key) => want == Ok(key.text().as_str()),
        Err(fault) => want == Err(fault),
    }
}

fn reads_target(text: &str, want: Read) -> bool {
    match RuleTarget::parse(text) {
        Ok(target) => want == Ok(target.text().as_str()),
        Err(fault) => want == Err(fault),
    }
}

fn reads_types(text: &str, want: Read) -> bool {
    match TypeSet::parse(text) {
        Ok(set) => want == Ok(set.text().as_str()),
        Err(fault) => want == Err(fault),
    }
}

/// Whether a text is read so.
fn reads(kind: Kind, text: &str, want: Read) -> bool {
    match kind {
        Kind::Keyspace => reads_keyspace(text, want),
        Kind::Table => reads_table(text, want),
        Kind::Workflow => reads_workflow(text, want),
        Kind::Key => reads_key(text, want),
        Kind::Target => reads_target(text, want),
        Kind::Types => reads_types(text, want),
    }
}

/// The first text that isn't read so.
fn first_wrong(kind: Kind, cases: &[(&'static str, Read)]) -> Option<&'static str> {
    for (text, want) in cases {
        if !reads(kind, text, *want) {
            return Some(text);
        }
    }
    None
}

/// Names of whatever kind.
static NAMES: [(&str, Read); 10] = [
    (LONGEST, Ok(LONGEST)),
    ("a", Ok("a")),
    ("reverse", Ok("reverse")),
    ("a_b-c", Ok("a_b-c")),
    ("0", Ok("0")),
    ("", Err(NameFault::Empty)),
    (TOO_LONG, Err(NameFault::TooLong)),
    (TOO_LONG_BEHIND_DASH, Err(NameFault::TooLong)),
    ("-a", Err(NameFault::BadByte(0))),
    ("a b", Err(NameFault::BadByte(1))),
];

#[test]
fn names(rt: HostRuntime) {
    assert_eq!(rt; first_wrong(Kind::Keyspace, &NAMES), None);
    assert_eq!(rt; first_wrong(Kind::Table, &NAMES), None);
    assert_eq!(rt; first_wrong(Kind::Workflow, &NAMES), None);
}

/// Names of workflows alone that are refused.
static RESERVED: [(&str, Read); 2] = [
    ("x_reverse", Err(NameFault::ReservedSuffix)),
    ("_reverse", Err(NameFault::ReservedSuffix)),
];

#[test]
fn names_of_one_kind(rt: HostRuntime) {
    assert!(rt; reads(Kind::Table, "a$b", Ok("a$b")));
    assert!(rt; reads(Kind::Keyspace, "a$b", Err(NameFault::BadByte(1))));
    assert_eq!(rt; first_wrong(Kind::Workflow, &RESERVED), None);
}

static KEYS: [(&str, Read); 13] = [
    ("commerce.corder@replica", Ok("commerce.corder@replica")),
    ("corder", Ok("corder")),
    ("corder@rdonly", Ok("corder@rdonly")),
    ("commerce.corder", Ok("commerce.corder")),
    ("", Err(NameFault::Empty)),
    ("@replica", Err(NameFault::Empty)),
    (".t", Err(NameFault::Empty)),
    ("a.", Err(NameFault::Empty)),
    ("a.b.c", Err(NameFault::BadByte(3))),
    ("a!@x", Err(NameFault::BadByte(1))),
    ("a@master", Err(NameFault::BadType)),
    ("a@", Err(NameFault::BadType)),
    ("a@replica@replica", Err(NameFault::BadType)),
];

static TARGETS: [(&str, Read); 6] = [
    ("a.b", Ok("a.b")),
    ("", Err(NameFault::Empty)),
    (".t", Err(NameFault::Empty)),
    ("a.", Err(NameFault::Empty)),
    ("corder", Err(NameFault::NoKeyspace)),
    ("a.b@replica", Err(NameFault::BadByte(3))),
];

#[test]
fn keys_and_targets(rt: HostRuntime) {
    assert_eq!(rt; first_wrong(Kind::Key, &KEYS), None);
    assert_eq!(rt; first_wrong(Kind::Target, &TARGETS), None);
}

static SETS: [(&str, Read); 14] = [
    ("primary", Ok("primary")),
    ("rdonly,primary", Ok("primary,rdonly")),
    ("rdonly,replica,primary", Ok("primary,replica,rdonly")),
    ("all", Ok("primary,replica,rdonly")),
    ("-", Ok("-")),
    ("", Err(NameFault::Empty)),
    ("primary,primary", Err(NameFault::Repeated)),
    ("primary,primary,x", Err(NameFault::Repeated)),
    ("primary,x,primary", Err(NameFault::BadType)),
    ("primary,,rdonly", Err(NameFault::BadType)),
    ("primary,", Err(NameFault::BadType)),
    ("all,primary", Err(NameFault::BadType)),
    ("master", Err(NameFault::BadType)),
    ("Primary", Err(NameFault::BadType)),
];

#[test]
fn sets_of_types(rt: HostRuntime) {
    assert_eq!(rt; first_wrong(Kind::Types, &SETS), None);
}

/// Whether a list of tables is read as so many, the first and the last of which are these.
fn lists(text: &str, count: usize, first: &str, last: &str) -> bool {
    match table_list(text) {
        Ok(tables) => {
            let is_first = tables.first().is_some_and(|name| name.as_str() == first);
            let is_last = tables.last().is_some_and(|name| name.as_str() == last);
            tables.len() == count && is_first && is_last
        }
        Err(_) => false,
    }
}

/// Lists of tables that are refused.
static REFUSED_LISTS: [(&str, NameFault); 6] = [
    ("", NameFault::Empty),
    ("a,,b", NameFault::Empty),
    ("a,-x", NameFault::BadByte(2)),
    ("t,t,-x", NameFault::Repeated),
    (SEVENTEEN_TABLES, NameFault::TooMany),
    (SIXTEEN_TABLES_AND_THE_FIRST, NameFault::TooMany),
];

/// The first list that isn't refused so.
fn first_taken() -> Option<&'static str> {
    for (text, fault) in &REFUSED_LISTS {
        if table_list(text).err() != Some(*fault) {
            return Some(text);
        }
    }
    None
}

#[test]
fn lists_of_tables(rt: HostRuntime) {
    assert!(rt; table_list("-").is_ok_and(|tables| tables.is_empty()));
    assert!(rt; lists(SIXTEEN_TABLES, 16, "t1", "t16"));
    assert!(rt; lists("corder,customer", 2, "corder", "customer"));
    assert_eq!(rt; first_taken(), None);
}

/// Whether names of each kind are printed as they are read.
fn are_printed(alloc: Global) -> Option<bool> {
    let keyspace = KeyspaceName::parse("commerce").ok()?;
    let table = TableName::parse("corder$1").ok()?;
    let workflow = WorkflowName::parse("move_orders").ok()?;
    let key = RuleKey::parse("commerce.corder@replica").ok()?;
    let target = RuleTarget::parse("a.b").ok()?;
    let printed = format!(in alloc; "{keyspace} {table} {workflow} {key} {target}").ok()?;
    Some(printed.as_str() == "commerce corder$1 move_orders commerce.corder@replica a.b")
}

#[test]
fn names_are_printed(rt: HostRuntime) {
    assert_eq!(rt; are_printed(rt.alloc()), Some(true));
}

static FAULTS: [(NameFault, &str); 10] = [
    (NameFault::Empty, "N1 Empty"),
    (NameFault::TooLong, "N2 TooLong"),
    (NameFault::BadByte(3), "N3 BadByte"),
    (NameFault::Repeated, "N4 Repeated"),
    (NameFault::ReservedSuffix, "N5 ReservedSuffix"),
    (NameFault::BadType, "N6 BadType"),
    (NameFault::TooMany, "N7 TooMany"),
    (NameFault::NoKeyspace, "N8 NoKeyspace"),
    (NameFault::BadRange, "N9 BadRange"),
    (NameFault::NotCovering, "N10 NotCovering"),
];

/// Whether a refusal is printed so.
fn is_printed(alloc: Global, fault: NameFault, text: &str) -> bool {
    fault.as_str() == text
        && format!(in alloc; "{fault}").is_ok_and(|printed| printed.as_str() == text)
}

/// The first refusal that isn't printed so.
fn first_other(alloc: Global) -> Option<&'static str> {
    for (fault, text) in &FAULTS {
        if !is_printed(alloc, *fault, text) {
            return Some(text);
        }
    }
    None
}

#[test]
fn refusals_are_printed(rt: HostRuntime) {
    assert_eq!(rt; first_other(rt.alloc()), None);
}
