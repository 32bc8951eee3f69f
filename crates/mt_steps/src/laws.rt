//! What follows from how steps are numbered, and from what is recorded of them.
ghost use Rattle.std.specs.Prelude.{◌≡◌, ◌≢◌, ◌<◌, ◌≤◌, ℕ, suc, ◌+◌, ◌-◌, Bool, true, if◌then◌else◌, List, length, map, slice_get, Option, Some, Ok};
ghost use Rattle.std.specs.List.{AllByRecursion};
ghost use Rattle.mt_names.specs.declared.types.TypeSet.{TypeSet};
ghost use Rattle.mt_model.specs.declared.entries.Entry.{Entry};
ghost use Rattle.mt_model.specs.declared.entries.EntryKey.{EntryKey};
ghost use Rattle.mt_model.specs.Part.{with_entries};
ghost use Rattle.mt_model.specs.Topology.{Marks, TopologyState, key_of, value_of};
ghost use Rattle.mt_plain.specs.Events.{StreamName, Way};
ghost use Rattle.mt_plain.specs.Plain.{behind_last, changed_types, first_step, last_place_of, next_place, next_step, place_of_refresh, repeated_step, shard_at_place};
ghost use Rattle.mt_primary.specs.Denials.{is_named};
ghost use Rattle.mt_primary.specs.Primary.{IsPrimary, PrimaryState, has_table, is_denied_at};
ghost use Rattle.mt_stream.specs.Streams.{StreamValue};
ghost use Rattle.mt_workflow.specs.Workflows.{WorkflowState, keys_of_part, with_slot};
ghost use Rattle.mt_steps.specs.declared.plan.PlannedStep.{PlannedStep};
ghost use Rattle.mt_steps.specs.Entries.{HasPlaces, recorded, recorded_of, step_entries, step_keys};
ghost use Rattle.mt_steps.specs.Plans.{number, planned_at, plan_of, step_at, steps_of};
ghost use Rattle.mt_steps.specs.Refreshes.{RefreshesSide, Sites};
ghost use Rattle.mt_steps.specs.Shards.{target_at};
ghost use Rattle.mt_steps.specs.Steps.{IsGivenBack};
ghost use Rattle.mt_steps.specs.Streams.{put_away, streams_undone, with_streams};
ghost use Rattle.mt_steps.specs.Undo.{IsLogOf, UndoState, new_log};

use crate::step::Step;
use mt_watch::Asks;

/// The plan of a way has, behind those of its places that stand done, the step that is next, for the shard that is; its last place is that
/// of the last step; a refresh is at the place of its shard, in their order; and with one shard the places are the steps, in their order.
pub fn a_plan_is_that_of_its_way()
    ensures next { (way : Way) (place : PlannedStep) → slice_get (plan_of way) way.done ≡ Some place
        → (number place.step ≡ next_step way) × (place.shard ≡ shard_at_place way (next_place way)) }
    ensures last { (way : Way) → first_step way + length (plan_of way) ≡ suc (last_place_of way (behind_last way - 1)) }
    ensures refreshes { (way : Way) (shard : ℕ) → shard < way.shards
        → planned_at way (place_of_refresh way (repeated_step way) shard) ≡ record { step = step_at (repeated_step way); shard = shard } }
    ensures one { (way : Way) → way.shards ≤ 1 → map (λ place. place.step) (plan_of way) ≡ steps_of (changed_types way) }
{}

/// What is written back after a step, and whatever else was written in between, gives each entry that changes with the step what it
/// said before, and changes no other; nor does the step. So both together change no entry at all.
pub fn an_undo_gives_back_what_stood()
    ensures at_once { (t : TopologyState) (w : WorkflowState) (types : TypeSet) (n : ℕ) (entries : List Entry) → map key_of entries ≡ keys_of_part w → HasPlaces t w → (key : EntryKey)
        → value_of (with_entries (with_entries t (step_entries w types n)) (recorded_of w n (recorded w n t entries))) key ≡ value_of t key }
    ensures later { (w : WorkflowState) (n : ℕ) (t : TopologyState) (entries : List Entry) → map key_of entries ≡ keys_of_part w
        → (now : TopologyState) → HasPlaces now w → (key : EntryKey) (i : ℕ) → slice_get (step_keys w n) i ≡ Some key
        → value_of (with_entries now (recorded_of w n (recorded w n t entries))) key ≡ value_of t key }
    ensures no_other { (w : WorkflowState) (n : ℕ) (t : TopologyState) (entries : List Entry) → map key_of entries ≡ keys_of_part w
        → (now : TopologyState) (key : EntryKey) → AllByRecursion (λ k. k ≢ key) (step_keys w n)
        → value_of (with_entries now (recorded_of w n (recorded w n t entries))) key ≡ value_of now key }
    ensures step_no_other { (w : WorkflowState) (types : TypeSet) (n : ℕ) (t : TopologyState) (key : EntryKey)
        → AllByRecursion (λ k. k ≢ key) (step_keys w n) → value_of (with_entries t (step_entries w types n)) key ≡ value_of t key }
{}

/// What an undo gives back of a refresh is what stood on that primary's own list for the workflow's tables, and no other primary of the
/// target changes; right behind the refresh, whoever was asked, that leaves all primaries as they were before it. And the streams that stood in the slots
/// before new ones were made stand there again, for each shard.
pub fn an_undo_gives_back_lists_and_streams<W: Asks>(watchers: &W)
    ensures at_once { (t : TopologyState) (w : WorkflowState) (shard : ℕ) (old new : Sites) (at_target : Bool) (source : PrimaryState) (targets : List PrimaryState)
        → IsPrimary (if at_target then target_at old.targets shard else old.source)
        → RefreshesSide (W.scopes watchers.now) (W.may_answer watchers.now) t w at_target shard old (Ok tt) new → IsGivenBack at_target shard new.listed new.source new.targets source targets
        → (source ≡ old.source) × (targets ≡ old.targets) }
    ensures later { (t : TopologyState) (w : WorkflowState) (shard : ℕ) (old new : Sites) (at_target : Bool) (source now_source : PrimaryState) (targets now_targets : List PrimaryState)
        → RefreshesSide (W.scopes watchers.now) (W.may_answer watchers.now) t w at_target shard old (Ok tt) new → IsGivenBack at_target shard new.listed source targets now_source now_targets
        → (name : List ℕ) → is_named w.tables name ≡ true → has_table (if at_target then target_at targets shard else source) name ≡ true
        → is_denied_at (if at_target then target_at now_targets shard else now_source) name ≡ is_denied_at (if at_target then target_at old.targets shard else old.source) name }
    ensures no_other { (at_target : Bool) (shard : ℕ) (listed : Option Marks) (source now_source : PrimaryState) (targets now_targets : List PrimaryState)
        → IsGivenBack at_target shard listed source targets now_source now_targets → (other : ℕ) → shard ≢ other → target_at now_targets other ≡ target_at targets other }
    ensures streams { (w : WorkflowState) (way : Way) (ends : List ℕ) (kept : List (Option StreamValue))
        → streams_undone (with_streams w way Step.CreateBack ends) way Step.CreateBack (put_away w way Step.CreateBack kept) ≡ w }
{
    let _watchers = watchers;
}

/// A new record is that of its workflow, and it stays so whatever is recorded, and whatever stream is put into a slot; the places of a
/// part stay whatever is written.
pub fn a_record_stays_that_of_its_workflow()
    ensures new { (w : WorkflowState) → IsLogOf w (new_log w) }
    ensures stays { (w : WorkflowState) (n : ℕ) (t : TopologyState) (log : UndoState) → IsLogOf w log
        → IsLogOf w (record log { entries = recorded w n t log.entries }) }
    ensures slots { (w : WorkflowState) (shard : ℕ) (name : StreamName) (stream : Option StreamValue) (log : UndoState) → IsLogOf w log → IsLogOf (with_slot w shard name stream) log }
    ensures places { (t : TopologyState) (w : WorkflowState) (entries : List Entry) → HasPlaces t w → HasPlaces (with_entries t entries) w }
{}
