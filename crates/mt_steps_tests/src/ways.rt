//! Ways to targets of one, two, three and eight shards: done, given up, reversed, and side by side.

use crate::acts::Act;
use crate::play::{Of, Played, play_to};
use mt_names::{TabletType, TypeSet};
use mt_steps::{Step, StepFault};
use mt_stream::StreamState;
use mt_workflow::Slot;
use std::alloc::Global;
use std::test::Fail;

/// The primary alone.
const PRIMARY: TypeSet = TypeSet {
    primary: true,
    replica: false,
    rdonly: false,
};

/// A refresh of the source is taken back: its own list is that from before, and nothing else changed.
static REFRESH_BACK: [(Of, Act); 13] = [
    (Of::T, Act::Begins(1, false, TypeSet::NONE, PRIMARY)),
    (Of::T, Act::Does(Step::DenySource)),
    (Of::T, Act::Refuses(false, true)),
    (Of::T, Act::Denied(true, true)),
    (Of::T, Act::Does(Step::RefreshSource)),
    (Of::T, Act::Refuses(true, true)),
    (Of::T, Act::Stands(Some(2))),
    (Of::T, Act::Undoes),
    (Of::T, Act::Refuses(false, true)),
    (Of::T, Act::Denied(true, true)),
    (Of::T, Act::Stands(Some(1))),
    (Of::T, Act::Streams(Some(StreamState::Running), None)),
    (Of::T, Act::Journal(0, false)),
];

/// Steps 1 to 6: the journal has one entry, and no step behind it is done.
static TO_THE_JOURNAL: [(Of, Act); 12] = [
    (Of::T, Act::Begins(1, false, TypeSet::NONE, PRIMARY)),
    (Of::T, Act::Does(Step::DenySource)),
    (Of::T, Act::Does(Step::RefreshSource)),
    (Of::T, Act::Does(Step::CatchUp)),
    (Of::T, Act::Does(Step::StopFeeding)),
    (Of::T, Act::Does(Step::CreateBack)),
    (Of::T, Act::Does(Step::Journal)),
    (Of::T, Act::Journal(1, false)),
    (Of::T, Act::Stands(Some(6))),
    (
        Of::T,
        Act::Streams(Some(StreamState::Stopped), Some(StreamState::Stopped)),
    ),
    (Of::T, Act::Denied(true, true)),
    (Of::T, Act::Refuses(true, true)),
];

/// A whole switch of all types, and its reversal.
static THERE_AND_BACK: [(Of, Act); 40] = [
    (Of::T, Act::Begins(1, false, TypeSet::NONE, TypeSet::ALL)),
    (Of::T, Act::Does(Step::SwitchReads)),
    (Of::T, Act::Does(Step::DenySource)),
    (Of::T, Act::Does(Step::RefreshSource)),
    (Of::T, Act::Does(Step::CatchUp)),
    (Of::T, Act::Does(Step::StopFeeding)),
    (Of::T, Act::Does(Step::CreateBack)),
    (Of::T, Act::Does(Step::Journal)),
    (Of::T, Act::Does(Step::AllowTarget)),
    (Of::T, Act::DoesEach(Step::RefreshTarget, false)),
    (Of::T, Act::Does(Step::SwitchWriteRules)),
    (Of::T, Act::Does(Step::StartBack)),
    (Of::T, Act::Does(Step::FreezeOld)),
    (Of::T, Act::Stands(None)),
    (Of::T, Act::Denied(true, false)),
    (Of::T, Act::Refuses(true, false)),
    (Of::T, Act::Leads(TabletType::Primary, true)),
    (Of::T, Act::Leads(TabletType::Rdonly, true)),
    (
        Of::T,
        Act::Streams(Some(StreamState::Frozen), Some(StreamState::Running)),
    ),
    (Of::T, Act::Journal(1, false)),
    (Of::T, Act::Begins(2, true, TypeSet::ALL, TypeSet::NONE)),
    (Of::T, Act::Does(Step::SwitchReads)),
    (Of::T, Act::Does(Step::DenySource)),
    (Of::T, Act::DoesEach(Step::RefreshSource, true)),
    (Of::T, Act::Does(Step::CatchUp)),
    (Of::T, Act::Does(Step::StopFeeding)),
    (Of::T, Act::Does(Step::CreateBack)),
    (Of::T, Act::Does(Step::Journal)),
    (Of::T, Act::Does(Step::AllowTarget)),
    (Of::T, Act::Does(Step::RefreshTarget)),
    (Of::T, Act::Does(Step::SwitchWriteRules)),
    (Of::T, Act::Does(Step::StartBack)),
    (Of::T, Act::Does(Step::FreezeOld)),
    (Of::T, Act::Stands(None)),
    (Of::T, Act::Denied(false, true)),
    (Of::T, Act::Refuses(false, true)),
    (Of::T, Act::Leads(TabletType::Primary, false)),
    (Of::T, Act::Leads(TabletType::Replica, false)),
    (Of::T, Act::Streams(Some(StreamState::Running), None)),
    (Of::T, Act::Journal(2, true)),
];

/// A switch of all types that is given up before its journal, step by step.
static GIVEN_UP: [(Of, Act); 21] = [
    (Of::T, Act::Begins(1, false, TypeSet::NONE, TypeSet::ALL)),
    (Of::T, Act::Does(Step::SwitchReads)),
    (Of::T, Act::Leads(TabletType::Replica, true)),
    (Of::T, Act::Does(Step::DenySource)),
    (Of::T, Act::Does(Step::RefreshSource)),
    (Of::T, Act::Does(Step::CatchUp)),
    (Of::T, Act::Does(Step::StopFeeding)),
    (Of::T, Act::Does(Step::CreateBack)),
    (Of::T, Act::Undoes),
    (Of::T, Act::Undoes),
    (Of::T, Act::Undoes),
    (Of::T, Act::Undoes),
    (Of::T, Act::Undoes),
    (Of::T, Act::Undoes),
    (Of::T, Act::Stands(None)),
    (Of::T, Act::Denied(false, true)),
    (Of::T, Act::Refuses(false, true)),
    (Of::T, Act::Leads(TabletType::Primary, false)),
    (Of::T, Act::Leads(TabletType::Replica, false)),
    (Of::T, Act::Streams(Some(StreamState::Running), None)),
    (Of::T, Act::Journal(0, false)),
];

/// A reversal that is given up: the forward stream that its own one took the place of is there again, frozen.
static BACK_GIVEN_UP: [(Of, Act); 28] = [
    (Of::T, Act::Begins(1, false, TypeSet::NONE, PRIMARY)),
    (Of::T, Act::Does(Step::DenySource)),
    (Of::T, Act::Does(Step::RefreshSource)),
    (Of::T, Act::Does(Step::CatchUp)),
    (Of::T, Act::Does(Step::StopFeeding)),
    (Of::T, Act::Does(Step::CreateBack)),
    (Of::T, Act::Does(Step::Journal)),
    (Of::T, Act::Does(Step::AllowTarget)),
    (Of::T, Act::DoesEach(Step::RefreshTarget, false)),
    (Of::T, Act::Does(Step::SwitchWriteRules)),
    (Of::T, Act::Does(Step::StartBack)),
    (Of::T, Act::Does(Step::FreezeOld)),
    (Of::T, Act::Begins(2, true, PRIMARY, TypeSet::NONE)),
    (Of::T, Act::Does(Step::DenySource)),
    (Of::T, Act::DoesEach(Step::RefreshSource, true)),
    (Of::T, Act::Does(Step::CatchUp)),
    (Of::T, Act::Does(Step::StopFeeding)),
    (Of::T, Act::Does(Step::CreateBack)),
    (
        Of::T,
        Act::Streams(Some(StreamState::Stopped), Some(StreamState::Stopped)),
    ),
    (Of::T, Act::Undoes),
    (Of::T, Act::Undoes),
    (Of::T, Act::Undoes),
    (Of::T, Act::UndoesEach(false)),
    (Of::T, Act::Undoes),
    (Of::T, Act::Stands(None)),
    (
        Of::T,
        Act::Streams(Some(StreamState::Frozen), Some(StreamState::Running)),
    ),
    (Of::T, Act::Denied(true, false)),
    (Of::T, Act::Refuses(true, false)),
];

/// A row of the last shard that was written isn't fed yet: the switch can be given up.
static NOT_LEVEL: [(Of, Act); 14] = [
    (Of::T, Act::Begins(1, false, TypeSet::NONE, PRIMARY)),
    (Of::T, Act::Writes(u64::MAX)),
    (Of::T, Act::Does(Step::DenySource)),
    (Of::T, Act::Does(Step::RefreshSource)),
    (Of::T, Act::Refused(Step::CatchUp, StepFault::NotLevel)),
    (Of::T, Act::Stands(Some(2))),
    (Of::T, Act::Undoes),
    (Of::T, Act::Undoes),
    (Of::T, Act::Stands(None)),
    (Of::T, Act::Denied(false, true)),
    (Of::T, Act::Refuses(false, true)),
    (Of::T, Act::Leads(TabletType::Primary, false)),
    (Of::T, Act::Leads(TabletType::Replica, false)),
    (Of::T, Act::Streams(Some(StreamState::Running), None)),
];

/// A row that the last shard's client wrote holds a reversal until it is fed; then the forward streams begin where the source's log ends.
static BACK_NOT_LEVEL: [(Of, Act); 29] = [
    (Of::T, Act::Writes(5)),
    (Of::T, Act::Levels(Slot::Forward)),
    (Of::T, Act::Begins(1, false, TypeSet::NONE, PRIMARY)),
    (Of::T, Act::Does(Step::DenySource)),
    (Of::T, Act::Does(Step::RefreshSource)),
    (Of::T, Act::Does(Step::CatchUp)),
    (Of::T, Act::Does(Step::StopFeeding)),
    (Of::T, Act::Does(Step::CreateBack)),
    (Of::T, Act::AreAtEnds(Slot::Back)),
    (Of::T, Act::Does(Step::Journal)),
    (Of::T, Act::Does(Step::AllowTarget)),
    (Of::T, Act::DoesEach(Step::RefreshTarget, false)),
    (Of::T, Act::Does(Step::SwitchWriteRules)),
    (Of::T, Act::Does(Step::StartBack)),
    (Of::T, Act::Does(Step::FreezeOld)),
    (Of::T, Act::Begins(2, true, PRIMARY, TypeSet::NONE)),
    (Of::T, Act::WritesLast(u64::MAX)),
    (Of::T, Act::Does(Step::DenySource)),
    (Of::T, Act::DoesEach(Step::RefreshSource, true)),
    (Of::T, Act::Refused(Step::CatchUp, StepFault::NotLevel)),
    (Of::T, Act::Levels(Slot::Back)),
    (Of::T, Act::Does(Step::CatchUp)),
    (Of::T, Act::Stands(Some(3))),
    (Of::T, Act::Does(Step::StopFeeding)),
    (Of::T, Act::Does(Step::CreateBack)),
    (Of::T, Act::AreAtEnds(Slot::Forward)),
    (Of::T, Act::AreAtEnds(Slot::Back)),
    (Of::T, Act::Does(Step::Journal)),
    (Of::T, Act::Journal(2, true)),
];

/// Two workflows from the same source, the first to a target of some shards: it is given up while the other is switched.
static SIDE_BY_SIDE: [(Of, Act); 29] = [
    (Of::T, Act::Begins(1, false, TypeSet::NONE, PRIMARY)),
    (Of::U, Act::Begins(2, false, TypeSet::NONE, PRIMARY)),
    (Of::T, Act::Does(Step::DenySource)),
    (Of::T, Act::Does(Step::RefreshSource)),
    (Of::U, Act::Does(Step::DenySource)),
    (Of::U, Act::Does(Step::RefreshSource)),
    (Of::T, Act::Undoes),
    (Of::T, Act::Undoes),
    (Of::T, Act::Refuses(false, true)),
    (Of::U, Act::Refuses(true, true)),
    (Of::U, Act::Does(Step::CatchUp)),
    (Of::U, Act::Does(Step::StopFeeding)),
    (Of::U, Act::Does(Step::CreateBack)),
    (Of::U, Act::Does(Step::Journal)),
    (Of::U, Act::Does(Step::AllowTarget)),
    (Of::U, Act::Does(Step::RefreshTarget)),
    (Of::U, Act::Does(Step::SwitchWriteRules)),
    (Of::U, Act::Does(Step::StartBack)),
    (Of::U, Act::Does(Step::FreezeOld)),
    (Of::U, Act::Denied(true, false)),
    (Of::U, Act::Refuses(true, false)),
    (Of::U, Act::Leads(TabletType::Primary, true)),
    (Of::T, Act::Stands(None)),
    (Of::T, Act::Denied(false, true)),
    (Of::T, Act::Refuses(false, true)),
    (Of::T, Act::Leads(TabletType::Primary, false)),
    (Of::T, Act::Leads(TabletType::Replica, false)),
    (Of::T, Act::Streams(Some(StreamState::Running), None)),
    (Of::U, Act::Journal(1, false)),
];

/// The same the other way round: that to a target of some shards is switched while the other is given up.
static GIVEN_UP_BESIDE: [(Of, Act); 30] = [
    (Of::T, Act::Begins(1, false, TypeSet::NONE, PRIMARY)),
    (Of::U, Act::Begins(2, false, TypeSet::NONE, PRIMARY)),
    (Of::U, Act::Does(Step::DenySource)),
    (Of::U, Act::Does(Step::RefreshSource)),
    (Of::T, Act::Does(Step::DenySource)),
    (Of::T, Act::Does(Step::RefreshSource)),
    (Of::T, Act::Does(Step::CatchUp)),
    (Of::T, Act::Does(Step::StopFeeding)),
    (Of::T, Act::Does(Step::CreateBack)),
    (Of::U, Act::Streams(Some(StreamState::Running), None)),
    (Of::T, Act::Does(Step::Journal)),
    (Of::U, Act::Undoes),
    (Of::T, Act::Refuses(true, true)),
    (Of::U, Act::Refuses(false, true)),
    (Of::T, Act::Does(Step::AllowTarget)),
    (Of::T, Act::DoesEach(Step::RefreshTarget, false)),
    (Of::U, Act::Undoes),
    (Of::T, Act::Does(Step::SwitchWriteRules)),
    (Of::T, Act::Does(Step::StartBack)),
    (Of::T, Act::Does(Step::FreezeOld)),
    (Of::T, Act::Denied(true, false)),
    (Of::T, Act::Refuses(true, false)),
    (Of::T, Act::Leads(TabletType::Primary, true)),
    (Of::U, Act::Stands(None)),
    (Of::U, Act::Denied(false, true)),
    (Of::U, Act::Refuses(false, true)),
    (Of::U, Act::Leads(TabletType::Primary, false)),
    (Of::U, Act::Streams(Some(StreamState::Running), None)),
    (
        Of::T,
        Act::Streams(Some(StreamState::Frozen), Some(StreamState::Running)),
    ),
    (Of::T, Act::Journal(1, false)),
];

/// The source's primary has no watcher.
static NO_WATCHER: [(Of, Act); 5] = [
    (Of::T, Act::Begins(1, false, TypeSet::NONE, PRIMARY)),
    (Of::T, Act::Does(Step::DenySource)),
    (
        Of::T,
        Act::Refused(Step::RefreshSource, StepFault::NoWatcher),
    ),
    (Of::T, Act::Stands(Some(1))),
    (Of::T, Act::Refuses(false, true)),
];

/// The targets, by how many shards they have.
static TARGETS: [&str; 4] = ["one", "two", "three", "eight"];

/// How acts go at the first target at which they don't go so.
pub fn first_wrong(
    alloc: Global,
    is_watched: bool,
    acts: &[(Of, Act)],
) -> Option<(&'static str, Played)> {
    for target in TARGETS {
        let played = play_to(alloc, is_watched, target, acts);
        if played != Played::AllSo {
            return Some((target, played));
        }
    }
    None
}

#[test]
fn a_refresh_is_taken_back(rt: HostRuntime) -> Result<(), Fail> {
    assert_eq!(rt; first_wrong(rt.alloc(), true, &REFRESH_BACK), None);
    Ok(())
}

#[test]
fn the_journal_has_one_entry(rt: HostRuntime) -> Result<(), Fail> {
    assert_eq!(rt; first_wrong(rt.alloc(), true, &TO_THE_JOURNAL), None);
    Ok(())
}

#[test]
fn all_types_go_there_and_back(rt: HostRuntime) -> Result<(), Fail> {
    assert_eq!(rt; first_wrong(rt.alloc(), true, &THERE_AND_BACK), None);
    Ok(())
}

#[test]
fn a_switch_is_given_up(rt: HostRuntime) -> Result<(), Fail> {
    assert_eq!(rt; first_wrong(rt.alloc(), true, &GIVEN_UP), None);
    Ok(())
}

#[test]
fn a_reversal_is_given_up(rt: HostRuntime) -> Result<(), Fail> {
    assert_eq!(rt; first_wrong(rt.alloc(), true, &BACK_GIVEN_UP), None);
    Ok(())
}

#[test]
fn a_row_that_is_not_fed_holds_the_switch(rt: HostRuntime) -> Result<(), Fail> {
    assert_eq!(rt; first_wrong(rt.alloc(), true, &NOT_LEVEL), None);
    Ok(())
}

#[test]
fn a_row_that_is_not_fed_holds_the_reversal(rt: HostRuntime) -> Result<(), Fail> {
    assert_eq!(rt; first_wrong(rt.alloc(), true, &BACK_NOT_LEVEL), None);
    Ok(())
}

#[test]
fn one_is_given_up_while_the_other_is_switched(rt: HostRuntime) -> Result<(), Fail> {
    assert_eq!(rt; first_wrong(rt.alloc(), true, &SIDE_BY_SIDE), None);
    Ok(())
}

#[test]
fn one_is_switched_while_the_other_is_given_up(rt: HostRuntime) -> Result<(), Fail> {
    assert_eq!(rt; first_wrong(rt.alloc(), true, &GIVEN_UP_BESIDE), None);
    Ok(())
}

#[test]
fn a_refresh_needs_a_watcher(rt: HostRuntime) -> Result<(), Fail> {
    assert_eq!(rt; first_wrong(rt.alloc(), false, &NO_WATCHER), None);
    Ok(())
}
