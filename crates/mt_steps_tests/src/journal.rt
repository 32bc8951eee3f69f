//! The journal by direct call.
use arrayvec::ArrayVec;
use mt_journal::{Journal, JournalEntry, JournalFault};
use mt_names::WorkflowName;
use std::test::Fail;

/// An entry of a number.
fn entry(id: u64, name: &WorkflowName) -> JournalEntry {
    JournalEntry {
        id,
        workflow: name.copied(),
        back: false,
        source_position: id,
        target_positions: ArrayVec::new_in(()),
    }
}

/// Whether an entry of each of these numbers is appended.
fn are_appended(journal: &mut Journal, name: &WorkflowName, count: u64) -> bool {
    for id in 0..count {
        if journal.append(entry(id, name)).is_err() {
            return false;
        }
    }
    true
}

/// Whether three entries are appended, the second isn't again, and the third is found.
fn appends_once(journal: &mut Journal, name: &WorkflowName) -> bool {
    are_appended(journal, name, 3)
        && journal.append(entry(1, name)) == Err(JournalFault::Repeated)
        && journal.len() == 3
        && journal.find(2) == Some(&entry(2, name))
        && journal.find(3).is_none()
}

#[test]
fn a_number_is_appended_once(rt: HostRuntime) -> Result<(), Fail> {
    let name = WorkflowName::parse("move")?;
    let mut journal = Journal::new(rt.alloc());
    let is_so = appends_once(&mut journal, &name);
    drop(journal);
    assert!(rt; is_so);
    Ok(())
}

/// Whether 4096 entries are appended, and neither one more nor one of them again.
fn appends_most(journal: &mut Journal, name: &WorkflowName) -> bool {
    are_appended(journal, name, 4096)
        && journal.append(entry(4096, name)) == Err(JournalFault::Full)
        && journal.append(entry(7, name)) == Err(JournalFault::Repeated)
        && journal.len() == 4096
}

#[test]
fn one_entry_too_many(rt: HostRuntime) -> Result<(), Fail> {
    let name = WorkflowName::parse("move")?;
    let mut journal = Journal::new(rt.alloc());
    let is_so = appends_most(&mut journal, &name);
    drop(journal);
    assert!(rt; is_so);
    Ok(())
}

#[test]
fn refusals_are_printed(rt: HostRuntime) -> Result<(), Fail> {
    assert_eq!(rt; JournalFault::Memory.as_str(), "J0 Memory");
    assert_eq!(rt; JournalFault::Full.as_str(), "J1 Full");
    assert_eq!(rt; JournalFault::Repeated.as_str(), "J2 Repeated");
    Ok(())
}
