//! Ways whose steps, and undos, are looked at one by one, to targets of one, two, three and eight shards.

use crate::acts::Act;
use crate::effects::{CREATED, REVERSAL, SWITCH, SWITCHED};
use crate::play::{Of, Played, play_to};
use crate::ways::first_wrong;
use mt_names::TypeSet;
use mt_steps::Step;
use std::alloc::Global;
use std::test::Fail;

/// All traffic is switched, and the switch is reversed.
#[test]
fn each_step_has_its_effect(rt: HostRuntime) -> Result<(), Fail> {
    let acts = [
        (Of::T, Act::Begins(1, false, TypeSet::NONE, TypeSet::ALL)),
        (Of::T, Act::DoesRows(&SWITCH, 12)),
        (Of::T, Act::Begins(2, true, TypeSet::ALL, TypeSet::NONE)),
        (Of::T, Act::DoesRows(&REVERSAL, 12)),
    ];
    assert_eq!(rt; first_wrong(rt.alloc(), true, &acts), None);
    Ok(())
}

#[test]
fn each_undo_of_a_switch_has_its_effect(rt: HostRuntime) -> Result<(), Fail> {
    for count in 1..7 {
        let acts = [
            (Of::T, Act::Begins(1, false, TypeSet::NONE, TypeSet::ALL)),
            (Of::T, Act::DoesRows(&SWITCH, count)),
            (Of::T, Act::UndoesRows(&SWITCH, count, CREATED)),
        ];
        assert_eq!(rt; first_wrong(rt.alloc(), true, &acts), None, "{count}");
    }
    Ok(())
}

#[test]
fn each_undo_of_a_reversal_has_its_effect(rt: HostRuntime) -> Result<(), Fail> {
    for count in 1..7 {
        let acts = [
            (Of::T, Act::Begins(1, false, TypeSet::NONE, TypeSet::ALL)),
            (Of::T, Act::DoesRows(&SWITCH, 12)),
            (Of::T, Act::Begins(2, true, TypeSet::ALL, TypeSet::NONE)),
            (Of::T, Act::DoesRows(&REVERSAL, count)),
            (Of::T, Act::UndoesRows(&REVERSAL, count, SWITCHED)),
        ];
        assert_eq!(rt; first_wrong(rt.alloc(), true, &acts), None, "{count}");
    }
    Ok(())
}

/// Whether acts go so at this target from the one of this index on, whether there is memory or not; up to it there may be too little.
fn is_so_from(alloc: Global, target: &str, acts: &[(Of, Act)], from: usize) -> bool {
    match play_to(alloc, true, target, acts) {
        Played::Wrong(index) => index < from,
        Played::AllSo | Played::NotMade => true,
    }
}

/// Whether new streams are made on a switch without memory, and all is taken back without any.
fn is_given_up(alloc: Global, target: &str) -> bool {
    let acts = [
        (Of::T, Act::Begins(1, false, TypeSet::NONE, TypeSet::ALL)),
        (Of::T, Act::DoesRows(&SWITCH, 5)),
        (Of::T, Act::Does(Step::CreateBack)),
        (Of::T, Act::UndoesRows(&SWITCH, 6, CREATED)),
    ];
    is_so_from(alloc, target, &acts, 2)
}

/// Whether that is so of a reversal.
fn is_reversal_given_up(alloc: Global, target: &str) -> bool {
    let acts = [
        (Of::T, Act::Begins(1, false, TypeSet::NONE, TypeSet::ALL)),
        (Of::T, Act::DoesRows(&SWITCH, 12)),
        (Of::T, Act::Begins(2, true, TypeSet::ALL, TypeSet::NONE)),
        (Of::T, Act::DoesRows(&REVERSAL, 5)),
        (Of::T, Act::Does(Step::CreateBack)),
        (Of::T, Act::UndoesRows(&REVERSAL, 6, SWITCHED)),
    ];
    is_so_from(alloc, target, &acts, 4)
}

/// Whether the steps behind the last refresh of a switch are done without memory.
fn is_ended(alloc: Global, target: &str) -> bool {
    let acts = [
        (Of::T, Act::Begins(1, false, TypeSet::NONE, TypeSet::ALL)),
        (Of::T, Act::DoesRows(&SWITCH, 9)),
        (Of::T, Act::Does(Step::SwitchWriteRules)),
        (Of::T, Act::Does(Step::StartBack)),
        (Of::T, Act::Does(Step::FreezeOld)),
        (Of::T, Act::Stands(None)),
    ];
    is_so_from(alloc, target, &acts, 2)
}

/// Passes as well where, from some allocation on, each fails: no new stream is refused, and no undo.
#[test]
fn no_memory_is_asked_for(rt: HostRuntime) -> Result<(), Fail> {
    assert!(rt; is_given_up(rt.alloc(), "eight") && is_reversal_given_up(rt.alloc(), "eight"));
    assert!(rt; is_given_up(rt.alloc(), "one") && is_ended(rt.alloc(), "three"));
    Ok(())
}
