//! What the steps of a way, and their undo, do with the streams of a workflow, and with the way.
ghost use Rattle.std.specs.Prelude.{◌≡◌, ◌<◌, ◌≤◌, false, [], length, map, Some, None};
ghost use Rattle.std.specs.Option.{option_map_or};
ghost use Rattle.mt_names.specs.Shards.{most_shards};
ghost use Rattle.mt_plain.specs.Next.{way_undone};
ghost use Rattle.mt_plain.specs.Plain.{last_step, next_step, write_journal};
ghost use Rattle.mt_primary.specs.Primary.{end_of};
ghost use Rattle.mt_stream.specs.Streams.{StreamValue, is_level};
ghost use Rattle.mt_workflow.specs.Workflows.{change_lane, lane_slot, slot_of, stream_name, way_from, with_lane_slot};
ghost use Rattle.mt_steps.specs.Plans.{number, step_at};
ghost use Rattle.mt_steps.specs.Shards.{last_shard, with_each};
ghost use Rattle.mt_steps.specs.Steps.{left_slots};
ghost use Rattle.mt_steps.specs.Streams.{KeepsToFeed, feeding_name, is_fed, is_fed_at, is_last, lane_made, log_ends, other_name, put_away, serves_other_side, streams_undone, types_after, way_after, with_streams};

use crate::log::PutAway;
use crate::step::Step;
use arrayvec::ArrayVec;
use mt_names::{MAX_SHARDS, Position};
use mt_primary::Primary;
use mt_stream::{Stream, StreamState};
use mt_workflow::{Slot, Way, Workflow};
use std::mem;

/// The streams that feed on a way.
fn feeding(way: Way) -> Slot
    ensures { stream_name result ≡ feeding_name (way_from way) }
{
    if way.back { Slot::Back } else { Slot::Forward }
}

/// The workflow's other streams.
fn other(way: Way) -> Slot
    ensures { stream_name result ≡ other_name (way_from way) }
{
    if way.back { Slot::Forward } else { Slot::Back }
}

/// Whether the stream of each shard that feeds on a way is there, and level with the primary that it reads.
pub(crate) fn is_fed(workflow: &Workflow, way: Way, source: &Primary, targets: &[Primary]) -> bool
    requires shards { length targets.now ≡ length workflow.now.lanes }
    requires kept { KeepsToFeed workflow.now (way_from way) source.now targets.now }
    ensures { result ≡ is_fed workflow.now (way_from way) source.now targets.now }
{
    for shard in 0..workflow.shards() {
        if !is_fed_at(workflow, way, source, targets, shard) {
            return false;
        }
    }
    true
}

/// Whether that of one shard is.
fn is_fed_at(
    workflow: &Workflow,
    way: Way,
    source: &Primary,
    targets: &[Primary],
    shard: u8,
) -> bool
    requires there { shard < length targets.now }
    requires kept { KeepsToFeed workflow.now (way_from way) source.now targets.now }
    ensures { result ≡ is_fed_at workflow.now (way_from way) source.now targets.now shard }
{
    if way.back {
        return is_level(workflow, shard, Slot::Back, &targets[usize::from(shard)]);
    }
    is_level(workflow, shard, Slot::Forward, source)
}

/// Whether a stream of a shard is there, and level with a primary.
fn is_level(workflow: &Workflow, shard: u8, slot: Slot, primary: &Primary) -> bool
    requires kept { (s : StreamValue) → slot_of workflow.now shard (stream_name slot) ≡ Some s → primary.now.log.purged ≤ s.position }
    ensures { result ≡ option_map_or (λ s. is_level s primary.now) (slot_of workflow.now shard (stream_name slot)) false }
{
    match workflow.slot(shard, slot) {
        Some(stream) => stream.is_level(primary),
        None => false,
    }
}

/// Whether the side that will serve the reads isn't the owner.
pub(crate) fn serves_other_side(way: Way) -> bool
    ensures { result ≡ serves_other_side (way_from way) }
{
    if way.back {
        way.before.primary
    } else {
        !way.before.primary
    }
}

/// Where the logs of primaries end, in their order.
pub(crate) fn positions(primaries: &[Primary]) -> ArrayVec<Position, MAX_SHARDS>
    requires { length primaries.now ≤ most_shards }
    ensures { result.items ≡ map end_of primaries.now }
{
    let mut ends = ArrayVec::new_in(());
    for primary in primaries {
        ends.push(primary.position());
    }
    ends
}

/// How long the log is that the new stream of each shard will read: that of the new owner's primary, which at the target is the shard's.
pub(crate) fn log_ends(
    way: Way,
    source: &Primary,
    targets: &[Primary],
) -> ArrayVec<Position, MAX_SHARDS>
    requires { length targets.now ≤ most_shards }
    ensures { result.items ≡ log_ends (way_from way) source.now targets.now }
{
    if !way.before.primary {
        return positions(targets);
    }
    let mut ends = ArrayVec::new_in(());
    for _target in targets {
        ends.push(source.position());
    }
    ends
}

/// Puts a stream of its range into a slot of a shard, which counts as copied and waits at a position; it answers what stood there.
fn put_stopped(workflow: &mut Workflow, shard: u8, slot: Slot, position: Position) -> Option<Stream>
    requires { shard < length workflow.old.lanes }
    ensures before { result ≡ slot_of workflow.old shard (stream_name slot) }
    ensures after { workflow.new ≡ record workflow.old { lanes = change_lane shard (lane_made (stream_name slot) workflow.old.tables position) workflow.old.lanes } }
{
    workflow.facts();
    let range = workflow.range(shard).copied();
    let mut stream = Stream::new_running(workflow.table_list(), range, position);
    stream.stop();
    workflow.put_slot(shard, slot, Some(stream))
}

/// Puts such a stream into a slot of each shard, at a position of its own; what stood there is put away.
fn put_all_stopped(workflow: &mut Workflow, slot: Slot, ends: &[Position], kept: &mut [PutAway])
    requires ends { length ends.now ≡ length workflow.old.lanes }
    requires kept { length kept.old ≡ length workflow.old.lanes }
    ensures made { workflow.new ≡ record workflow.old { lanes = with_each (lane_made (stream_name slot) workflow.old.tables) ends.now workflow.old.lanes } }
    ensures slots { map (λ k. k.slot) kept.new ≡ map (lane_slot (stream_name slot)) workflow.old.lanes }
    ensures listed { map (λ k. k.listed) kept.new ≡ map (λ k. k.listed) kept.old }
{
    for shard in 0..workflow.shards() {
        let at = usize::from(shard);
        kept[at].slot = put_stopped(workflow, shard, slot, ends[at]);
    }
}

/// What a step does with the streams. `ends` are the positions at which new ones wait; what stood in their place is put away in `kept`.
#[inline(always)]
pub(crate) fn step_streams(
    workflow: &mut Workflow,
    way: Way,
    step: Step,
    ends: &[Position],
    kept: &mut [PutAway],
)
    requires ends { length ends.now ≡ length workflow.old.lanes }
    requires kept { length kept.old ≡ length workflow.old.lanes }
    ensures after { workflow.new ≡ with_streams workflow.old (way_from way) step ends.now }
    ensures slots { map (λ k. k.slot) kept.new ≡ put_away workflow.old (way_from way) step (map (λ k. k.slot) kept.old) }
    ensures listed { map (λ k. k.listed) kept.new ≡ map (λ k. k.listed) kept.old }
{
    match step {
        Step::StopFeeding => workflow.set_state(feeding(way), StreamState::Stopped),
        Step::CreateBack => put_all_stopped(workflow, other(way), ends, kept),
        Step::StartBack => workflow.set_state(other(way), StreamState::Running),
        Step::FreezeOld => end_feeding(workflow, way),
        _ => {}
    }
}

/// Freezes the feeding streams, or takes them away on a way back.
fn end_feeding(workflow: &mut Workflow, way: Way)
    ensures { workflow.new ≡ with_streams workflow.old (way_from way) Step.FreezeOld [] }
{
    if !way.back {
        workflow.set_state(Slot::Forward, StreamState::Frozen);
        return;
    }
    for shard in 0..workflow.shards() {
        workflow.put_slot(shard, Slot::Back, None);
    }
}

/// Puts back into a slot of each shard what was put away.
fn put_all_back(workflow: &mut Workflow, slot: Slot, kept: &mut [PutAway])
    requires { length kept.old ≡ length workflow.old.lanes }
    ensures given { workflow.new ≡ record workflow.old { lanes = with_each (with_lane_slot (stream_name slot)) (map (λ k. k.slot) kept.old) workflow.old.lanes } }
    ensures slots { map (λ k. k.slot) kept.new ≡ left_slots Step.CreateBack (map (λ k. k.slot) kept.old) }
    ensures listed { map (λ k. k.listed) kept.new ≡ map (λ k. k.listed) kept.old }
{
    for shard in 0..workflow.shards() {
        let stream = mem::replace(&mut kept[usize::from(shard)].slot, None);
        workflow.put_slot(shard, slot, stream);
    }
}

/// What the undo of a step does with the streams; `kept` has those that were put away.
pub(crate) fn undo_streams(workflow: &mut Workflow, way: Way, step: Step, kept: &mut [PutAway])
    requires { length kept.old ≡ length workflow.old.lanes }
    ensures after { workflow.new ≡ streams_undone workflow.old (way_from way) step (map (λ k. k.slot) kept.old) }
    ensures slots { map (λ k. k.slot) kept.new ≡ left_slots step (map (λ k. k.slot) kept.old) }
    ensures listed { map (λ k. k.listed) kept.new ≡ map (λ k. k.listed) kept.old }
{
    match step {
        Step::StopFeeding => workflow.set_state(feeding(way), StreamState::Running),
        Step::CreateBack => put_all_back(workflow, other(way), kept),
        _ => {}
    }
}

/// The step of a way that was done last, before the journal. It takes no memory.
pub fn last_step(way: Way) -> Step
    requires some { 0 < way.done }
    requires before { last_step (way_from way) < write_journal }
    ensures { result ≡ step_at (last_step (way_from way)) }
{
    Step::of_number(way.step_at_place(way.next_place() - 1))
}

/// The shard that the place is for which was done last.
pub(crate) fn last_shard(way: Way) -> u8
    ensures { result ≡ last_shard (way_from way) }
{
    way.shard_at_place(way.next_place().saturating_sub(1))
}

/// The step of a way that is next. It takes no memory. (Vitess: how traffic is switched, reads first, then writes)
pub fn next_step(way: Way) -> Step
    requires { next_step (way_from way) < 12 }
    ensures step { result ≡ step_at (next_step (way_from way)) }
    ensures number { number result ≡ next_step (way_from way) }
{
    Step::of_number(way.next_step())
}

/// Whether a step is the last one of its way.
fn is_last(way: Way, step: Step) -> bool
    ensures { result ≡ is_last (way_from way) step }
{
    step.number() + 1 == way.behind_last()
}

/// Counts a step: one place more stands done, or the way closes; from the journal on the types are switched.
pub(crate) fn count_step(workflow: &mut Workflow, way: Way, step: Step)
    requires next { number step ≡ next_step (way_from way) }
    requires few { way.shards ≤ most_shards }
    ensures { workflow.new ≡ record workflow.old { way = way_after (way_from way) step; switched = types_after workflow.old.switched (way_from way) step } }
{
    if is_last(way, step) {
        workflow.set_way(None);
        workflow.set_switched(way.after);
        return;
    }
    let done = way.done + 1;
    workflow.set_way(Some(Way { done, ..way }));
    if step == Step::Journal {
        workflow.set_switched(way.after);
    }
}

/// Counts an undo: one place less stands done, and the way closes if none does.
pub(crate) fn count_undo(workflow: &mut Workflow, way: Way)
    ensures { workflow.new ≡ record workflow.old { way = way_undone (way_from way) } }
{
    if way.done <= 1 {
        workflow.set_way(None);
        return;
    }
    workflow.set_way(Some(Way {
        done: way.done - 1,
        undoing: true,
        ..way
    }));
}
