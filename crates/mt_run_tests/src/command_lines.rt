use mt_choice::{Choice, USAGE, Wrong, choose, keyspaces};
use mt_names::{KeyspaceName, NameFault};
use std::alloc::{AllocError, Global};
use std::test::Fail;

/// Whether a command line with these words behind the program's name doesn't parse.
fn is_usage(rt: &HostRuntime, words: &[&str]) -> bool {
    matches!(choose(rt.alloc(), words), Err(Wrong::Usage))
}

/// The refusal of a command line for its keyspaces.
fn bad_words(rt: &HostRuntime, words: &[&str]) -> Option<NameFault> {
    match choose(rt.alloc(), words) {
        Err(Wrong::Words(fault)) => Some(fault),
        _ => None,
    }
}

/// How many keyspaces a run has.
fn watched(rt: &HostRuntime, words: &[&str]) -> Option<usize> {
    match &choose(rt.alloc(), words) {
        Ok(Choice::Run(names)) => Some(names.len()),
        _ => None,
    }
}

/// The clients and writes of a race.
fn race(rt: &HostRuntime, words: &[&str]) -> Option<(u16, u16)> {
    match choose(rt.alloc(), words) {
        Ok(Choice::Race { clients, writes }) => Some((clients, writes)),
        _ => None,
    }
}

/// Whether the words ask for a help that has this text.
fn helps(rt: &HostRuntime, words: &[&str], text: &str) -> bool {
    match choose(rt.alloc(), words) {
        Ok(Choice::Help(help)) => help.as_str().contains(text),
        _ => false,
    }
}

/// Command lines that don't parse.
static MISUSED: [&[&str]; 22] = [
    &["mt"],
    &["mt", ""],
    &["mt", "frobnicate"],
    &["mt", "frobnicate", "run"],
    &["mt", "runs"],
    &["mt", "ru"],
    &["mt", "RUN"],
    &["mt", "-"],
    &["mt", "--"],
    &["mt", "--", "run"],
    &["mt", "-V"],
    &["mt", "--version"],
    &["mt", "--clients", "2", "race"],
    &["mt", "run", "-a"],
    &["mt", "run", "--all"],
    &["mt", "run", "commerce", "-a", "!"],
    &["mt", "run", "!", "-a"],
    &["mt", "rules", "commerce"],
    &["mt", "rules", ""],
    &["mt", "topology", "commerce"],
    &["mt", "topology", "--clients", "2"],
    &["mt", "help", "frobnicate"],
];

#[test]
fn words_that_do_not_parse(rt: HostRuntime) {
    for (at, words) in MISUSED.iter().enumerate() {
        assert!(rt; is_usage(&rt, words), "at {at}");
    }
}

/// Runs, each with how many keyspaces it has.
static RUNS: [(&[&str], usize); 7] = [
    (&["mt", "run"], 0),
    (&["/usr/bin/mt", "run", "commerce", "customer"], 2),
    (&["mt", "run", "commerce", "commerce"], 2),
    (&["mt", "run", "run", "help"], 2),
    (&["mt", "run", "--", "commerce"], 1),
    (&["mt", "run", "commerce", "--", "customer"], 2),
    (&["mt", "run", "--"], 0),
];

#[test]
fn keyspaces_of_a_run(rt: HostRuntime) {
    for (at, (words, count)) in RUNS.iter().enumerate() {
        assert!(rt; watched(&rt, words) == Some(*count), "at {at}");
    }
}

/// Whether names are these.
fn are_named(names: &[KeyspaceName], want: &[&str]) -> bool {
    names.len() == want.len()
        && names
            .iter()
            .zip(want.iter())
            .all(|(name, text)| name.as_str() == *text)
}

/// Whether a run has these keyspaces, in this order.
fn runs(rt: &HostRuntime, words: &[&str], want: &[&str]) -> bool {
    match &choose(rt.alloc(), words) {
        Ok(Choice::Run(names)) => are_named(names, want),
        _ => false,
    }
}

#[test]
fn keyspaces_in_their_order(rt: HostRuntime) {
    assert!(rt; runs(&rt, &["mt", "run", "b", "a", "b"], &["b", "a", "b"]));
}

/// 65 letters.
const LONG: &str = "aaaaaaaaaaaaaaaaaaaaaaaaaaaaaaaaaaaaaaaaaaaaaaaaaaaaaaaaaaaaaaaaa";

/// Runs with a word that is no keyspace's name, each with the refusal.
static BAD_NAMES: [(&[&str], NameFault); 10] = [
    (&["mt", "run", ""], NameFault::Empty),
    (&["mt", "run", "commerce", ""], NameFault::Empty),
    (&["mt", "run", "-"], NameFault::BadByte(0)),
    (&["mt", "run", "--", "-a"], NameFault::BadByte(0)),
    (&["mt", "run", "--", "--"], NameFault::BadByte(0)),
    (&["mt", "run", "--", "--help"], NameFault::BadByte(0)),
    (&["mt", "run", "a.b"], NameFault::BadByte(1)),
    (&["mt", "run", "a,b", ""], NameFault::BadByte(1)),
    (&["mt", "run", "", "a,b"], NameFault::Empty),
    (&["mt", "run", LONG], NameFault::TooLong),
];

#[test]
fn words_that_are_no_keyspaces(rt: HostRuntime) {
    for (at, (words, fault)) in BAD_NAMES.iter().enumerate() {
        assert!(rt; bad_words(&rt, words) == Some(*fault), "at {at}");
    }
}

/// A word list of `mt run` with 31 keyspaces.
static MANY: [&str; 33] = [
    "mt", "run", "commerce", "commerce", "commerce", "commerce", "commerce", "commerce",
    "commerce", "commerce", "commerce", "commerce", "commerce", "commerce", "commerce", "commerce",
    "commerce", "commerce", "commerce", "commerce", "commerce", "commerce", "commerce", "commerce",
    "commerce", "commerce", "commerce", "commerce", "commerce", "commerce", "commerce", "commerce",
    "commerce",
];

/// That word list, with these words behind it.
fn many<'a>(rt: &HostRuntime, last: &[&'a str]) -> Result<Vec<&'a str>, AllocError> {
    let mut words = Vec::new(rt.alloc());
    for word in MANY.iter() {
        words.push(*word)?;
    }
    for word in last {
        words.push(*word)?;
    }
    Ok(words)
}

/// The refusal of such a list for its keyspaces.
fn bad_many(rt: &HostRuntime, last: &[&str]) -> Result<Option<NameFault>, AllocError> {
    Ok(bad_words(rt, many(rt, last)?.as_slice()))
}

/// Words behind such a list, each with the refusal.
static TOO_MANY: [(&[&str], NameFault); 4] = [
    (&["customer"], NameFault::TooMany),
    (&[""], NameFault::Empty),
    (&["a!"], NameFault::BadByte(1)),
    (&["customer", ""], NameFault::TooMany),
];

/// Whether such a list with these words behind it doesn't parse.
fn is_usage_of_many(rt: &HostRuntime, last: &[&str]) -> Result<bool, AllocError> {
    Ok(is_usage(rt, many(rt, last)?.as_slice()))
}

#[test]
fn too_many_keyspaces(rt: HostRuntime) -> Result<(), Fail> {
    assert!(rt; watched(&rt, &MANY) == Some(31));
    for (at, (last, fault)) in TOO_MANY.iter().enumerate() {
        assert!(rt; bad_many(&rt, last)? == Some(*fault), "at {at}");
    }
    assert!(rt; is_usage_of_many(&rt, &["customer", "-a"])?);
    Ok(())
}

#[test]
fn documents(rt: HostRuntime) {
    assert!(rt; matches!(choose(rt.alloc(), &["mt", "rules"]), Ok(Choice::Rules)));
    assert!(rt;
        matches!(
            choose(rt.alloc(), &["mt", "topology"]),
            Ok(Choice::Topology)
        )
    );
}

/// Races, each with its clients and writes.
static RACES: [(&[&str], (u16, u16)); 4] = [
    (&["mt", "race"], (2, 10)),
    (&["mt", "race", "--clients", "1", "--writes", "1"], (1, 1)),
    (&["mt", "race", "--writes=1000", "--clients=4"], (4, 1000)),
    (&["mt", "race", "--clients", "3"], (3, 10)),
];

/// Races that don't parse.
static MISUSED_RACES: [&[&str]; 12] = [
    &["mt", "race", "--clients", "0"],
    &["mt", "race", "--clients", "5"],
    &["mt", "race", "--writes", "0"],
    &["mt", "race", "--writes", "1001"],
    &["mt", "race", "--writes", "65536"],
    &["mt", "race", "--clients", "-1"],
    &["mt", "race", "--clients", "two"],
    &["mt", "race", "--clients", ""],
    &["mt", "race", "--clients"],
    &["mt", "race", "--clients", "1", "--clients", "1"],
    &["mt", "race", "2"],
    &["mt", "race", "-c", "2"],
];

#[test]
fn numbers_of_a_race(rt: HostRuntime) {
    for (at, (words, numbers)) in RACES.iter().enumerate() {
        assert!(rt; race(&rt, words) == Some(*numbers), "at {at}");
    }
    for (at, words) in MISUSED_RACES.iter().enumerate() {
        assert!(rt; is_usage(&rt, words), "at {at}");
    }
}

/// Command lines that ask for help, each with a text that is in it.
static HELPS: [(&[&str], &str); 8] = [
    (&["mt", "--help"], "Usage: mt <COMMAND>"),
    (&["mt", "-h"], "topology"),
    (&["mt", "help"], "Usage: mt <COMMAND>"),
    (&["mt", "help", "run"], "Usage: mt run [KEYSPACE]..."),
    (&["mt", "run", "--help"], "Usage: mt run [KEYSPACE]..."),
    (&["mt", "run", "a!", "-h"], "Usage: mt run [KEYSPACE]..."),
    (&["mt", "help", "race"], "--clients <N>"),
    (&["mt", "race", "-h"], "[default: 10]"),
];

#[test]
fn help(rt: HostRuntime) {
    for (at, (words, text)) in HELPS.iter().enumerate() {
        assert!(rt; helps(&rt, words, text), "at {at}");
    }
}

/// Command lines that ask for help, each with what it tells.
static TOLD: [(&[&str], &str); 8] = [
    (&["mt", "help", "run"], "Runs the script of standard input"),
    (
        &["mt", "help", "run"],
        "Keyspaces whose primaries have watchers, at most 31",
    ),
    (
        &["mt", "help", "rules"],
        "Writes the canonical form of a rule document",
    ),
    (
        &["mt", "help", "topology"],
        "Writes the canonical form of a topology dump",
    ),
    (
        &["mt", "help", "race"],
        "Runs clients while a controller switches and reverses",
    ),
    (&["mt", "help", "race"], "How many clients write, 1 to 4"),
    (
        &["mt", "help", "race"],
        "How many writes each client makes, 1 to 1000",
    ),
    (
        &["mt", "help"],
        "Moves tables from one keyspace to another while they are read and written",
    ),
];

#[test]
fn what_help_tells(rt: HostRuntime) {
    for (at, (words, text)) in TOLD.iter().enumerate() {
        assert!(rt; helps(&rt, words, text), "at {at}");
    }
}

/// Whether a refusal is printed so.
fn is_printed(alloc: Global, wrong: &Wrong, text: &str) -> Result<bool, Fail> {
    Ok(format!(in alloc; "{wrong}")?.as_str() == text)
}

#[test]
fn printed_text(rt: HostRuntime) -> Result<(), Fail> {
    assert!(rt;
        USAGE
            == "usage: mt run [KEYSPACE].. | mt rules | mt topology | mt race [--clients N] [--writes N]"
    );
    assert!(rt; is_printed(rt.alloc(), &Wrong::Usage, USAGE)?);
    assert!(rt;
        is_printed(
            rt.alloc(),
            &Wrong::Words(NameFault::BadByte(3)),
            "N3 BadByte"
        )?
    );
    assert!(rt; is_printed(rt.alloc(), &Wrong::Memory, "fault Memory")?);
    Ok(())
}

#[test]
fn reading_keyspaces(rt: HostRuntime) {
    assert!(rt; keyspaces(&["commerce", "customer"]).map(|names| names.len()) == Ok(2));
    assert!(rt; keyspaces(&[]).map(|names| names.len()) == Ok(0));
    assert!(rt; matches!(keyspaces(&["commerce", "$"]), Err(NameFault::BadByte(0))));
}
