//! Where an allocation fails, the answer is `Memory` or the one that the words have.
use mt_choice::{Choice, Wrong, choose};

#[derive(Clone, Copy, Eq, PartialEq)]
enum Answer {
    Keyspaces(usize),
    Rules,
    Topology,
    Race(u16, u16),
    Help,
    Usage,
    Words,
    Memory,
}

/// The kind of answer that the words have.
fn answer_to(rt: &HostRuntime, words: &[&str]) -> Answer {
    match &choose(rt.alloc(), words) {
        Ok(Choice::Run(names)) => Answer::Keyspaces(names.len()),
        Ok(Choice::Rules) => Answer::Rules,
        Ok(Choice::Topology) => Answer::Topology,
        Ok(Choice::Race { clients, writes }) => Answer::Race(*clients, *writes),
        Ok(Choice::Help(_)) => Answer::Help,
        Err(Wrong::Usage) => Answer::Usage,
        Err(Wrong::Words(_)) => Answer::Words,
        Err(Wrong::Memory) => Answer::Memory,
    }
}

/// Whether the words have this answer, or no memory was left.
fn is(rt: &HostRuntime, words: &[&str], wanted: Answer) -> bool {
    let got = answer_to(rt, words);
    got == Answer::Memory || got == wanted
}

/// Whether two helps to the same words are the same text, or no memory was left for one.
fn same_help(rt: &HostRuntime, words: &[&str]) -> bool {
    let first = choose(rt.alloc(), words);
    let second = choose(rt.alloc(), words);
    match (&first, &second) {
        (Ok(Choice::Help(first)), Ok(Choice::Help(second))) => first.as_str() == second.as_str(),
        (Err(Wrong::Memory), _) => true,
        (_, Err(Wrong::Memory)) => true,
        _ => false,
    }
}

/// Command lines, each with the kind of its answer.
static ANSWERS: [(&[&str], Answer); 10] = [
    (
        &["mt", "run", "commerce", "--", "customer"],
        Answer::Keyspaces(2),
    ),
    (&["mt", "run", "commerce", "a!"], Answer::Words),
    (&["mt", "run", "-a"], Answer::Usage),
    (&["mt", "rules"], Answer::Rules),
    (&["mt", "topology"], Answer::Topology),
    (&["mt", "race", "--writes=20"], Answer::Race(2, 20)),
    (&["mt", "race", "--clients", "5"], Answer::Usage),
    (&["mt", "race", "--clients", "five"], Answer::Usage),
    (&["mt"], Answer::Usage),
    (&["mt", "frobnicate"], Answer::Usage),
];

/// Command lines that ask for help.
static HELPS: [&[&str]; 4] = [
    &["mt", "help"],
    &["mt", "--help"],
    &["mt", "race", "-h"],
    &["mt", "help", "run"],
];

/// The place of the first that is answered otherwise.
fn first_wrong(rt: &HostRuntime) -> Option<usize> {
    for (at, (words, wanted)) in ANSWERS.iter().enumerate() {
        if !is(rt, words, *wanted) {
            return Some(at);
        }
    }
    None
}

/// The place of the first help that isn't the same text again.
fn first_other(rt: &HostRuntime) -> Option<usize> {
    for (at, words) in HELPS.iter().enumerate() {
        if !is(rt, words, Answer::Help) || !same_help(rt, words) {
            return Some(at);
        }
    }
    None
}

#[test]
fn want_of_memory_is_no_other_answer(rt: HostRuntime) {
    assert_eq!(rt; first_wrong(&rt), None);
    assert_eq!(rt; first_other(&rt), None);
}
