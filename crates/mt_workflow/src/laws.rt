//! What follows from what a workflow keeps.
ghost use Rattle.std.specs.Prelude.{◌≡◌, ◌↔◌, true, false, None, Contains};
ghost use Rattle.mt_model.specs.Topology.{TopologyState, rule_at};
ghost use Rattle.mt_plain.specs.Plain.{has_part};
ghost use Rattle.mt_workflow.specs.Creates.{create_refusal};
ghost use Rattle.mt_workflow.specs.Workflows.{IsKept, WorkflowState, keys_of_part, kept_of, live_of};

use mt_model::EntryKey;
use mt_names::RuleKey;

/// The keys of a workflow's part are those that the definitions count to it, and no others.
pub fn the_part_is_its_keys()
    ensures { (w : WorkflowState) (key : EntryKey) → Contains (keys_of_part w) key ↔ (has_part (live_of w) key ≡ true) }
{}

/// If a workflow keeps what `new` keeps of a topology, then for each rule key of its part that is the rule that stood there, and
/// for any other key it is none. If `may_create` refuses nothing, it is all that the topology said of the part: no table of it
/// was denied at a side or stood at the target.
pub fn what_is_kept_is_what_stood()
    ensures rules { (w : WorkflowState) (t : TopologyState) → w.kept ≡ kept_of t.rules w.source w.target w.tables
        → (key : RuleKey) → has_part (live_of w) (EntryKey.Rule key) ≡ true → rule_at w.kept key ≡ rule_at t.rules key }
    ensures no_other { (w : WorkflowState) (t : TopologyState) → w.kept ≡ kept_of t.rules w.source w.target w.tables
        → (key : RuleKey) → has_part (live_of w) (EntryKey.Rule key) ≡ false → rule_at w.kept key ≡ None }
    ensures all { (w : WorkflowState) (t : TopologyState) → w.kept ≡ kept_of t.rules w.source w.target w.tables
        → create_refusal t w.source w.target w.tables ≡ None → IsKept t w }
{}
