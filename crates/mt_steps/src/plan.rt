//! Which steps a way has, and at which places.
ghost use Rattle.std.specs.Prelude.{◌≡◌, ◌<◌, ◌≤◌, true, false};
ghost use Rattle.mt_names.specs.Shards.{most_shards};
ghost use Rattle.mt_steps.specs.Plans.{plan_of, way_of};

use crate::step::Step;
use arrayvec::ArrayVec;
use mt_names::TypeSet;
use mt_workflow::Way;
use std::default::MadeWith;

/// The most places that a plan has: the twelve steps, one of them for each of eight shards.
pub const MAX_PLACES: usize = 19;

/// What is done at a place of a plan.
#[derive(Clone, Copy, Debug, Eq, PartialEq)]
pub struct PlannedStep {
    /// The step that is done there.
    pub step: Step,
    /// The shard of the target whose primary is refreshed, by its place in the target's list; 0 for each other step.
    pub shard: u8,
}

impl MadeWith<()> for PlannedStep {
    fn made_with(_: ()) -> Self {
        PlannedStep {
            step: Step::SwitchReads,
            shard: 0,
        }
    }
}

/// The places of a way, in the order in which they are done. (Vitess: how traffic is switched, reads first, then writes)
pub struct Plan;

impl Plan {
    /// The places of a switch that changes these types, to a target of so many shards, 1 to 8: all twelve steps, of which the refresh of
    /// the new owner has a place for each shard, in their order; without replica and rdonly those from the second on; without primary
    /// the first alone; none for no type. It takes no memory. (Vitess: SwitchTraffic)
    pub fn forward(types: TypeSet, shards: u8) -> ArrayVec<PlannedStep, MAX_PLACES>
        requires some { 0 < shards }
        requires few { shards ≤ most_shards }
        ensures { result.items ≡ plan_of (way_of false types shards) }
    {
        places(false, types, shards)
    }

    /// The places of a reversal that changes these types, from a target of so many shards, 1 to 8: the same, but that the refresh of the
    /// old owner has a place for each shard. It takes no memory. (Vitess: ReverseTraffic)
    pub fn back(types: TypeSet, shards: u8) -> ArrayVec<PlannedStep, MAX_PLACES>
        requires some { 0 < shards }
        requires few { shards ≤ most_shards }
        ensures { result.items ≡ plan_of (way_of true types shards) }
    {
        places(true, types, shards)
    }
}

/// The places of a way in a direction that changes these types, of which none is switched before it.
fn places(back: bool, types: TypeSet, shards: u8) -> ArrayVec<PlannedStep, MAX_PLACES>
    requires some { 0 < shards }
    requires few { shards ≤ most_shards }
    ensures { result.items ≡ plan_of (way_of back types shards) }
{
    let way = Way {
        back,
        shards,
        before: TypeSet::NONE,
        after: types,
        done: 0,
        undoing: false,
    };
    let later = if types.primary { shards - 1 } else { 0 };
    let first = u16::from(way.first_step());
    let behind = u16::from(way.behind_last() + later);
    let mut list = ArrayVec::new_in(());
    for place in first..behind {
        list.push(PlannedStep {
            step: Step::of_number(way.step_at_place(place)),
            shard: way.shard_at_place(place),
        });
    }
    list
}
