//! Laws on what keeps a core one that stands for a state.
ghost use Rattle.std.specs.Prelude.{◌≡◌, ◌++◌, ℕ, ◌<◌, true, false, List, None, Some, is_some, length};
ghost use Rattle.mt_journal.specs.Journal.{entry_of};
ghost use Rattle.mt_laws.specs.Texts.{BringsNames};
ghost use Rattle.mt_model.specs.declared.entries.Scope.{Scope};
ghost use Rattle.mt_plain.specs.Answers.{Answers};
ghost use Rattle.mt_plain.specs.Events.{Answer, Event, Way, create};
ghost use Rattle.mt_plain.specs.Plain.{behind_last, next_step, opening, stands_done, write_journal};
ghost use Rattle.mt_primary.specs.Primaries.{primary_of, shards_of};
ghost use Rattle.mt_stands.specs.Base.{BaseState, workflow_at};
ghost use Rattle.mt_stands.specs.Stands.{IsBase};
ghost use Rattle.mt_stands.specs.Ways.{HasCoreState, IsCore, CoreState, CoreStands, CoreSteps, empty_core, open_at};
ghost use Rattle.mt_stands.specs.Workflows.{Creates};
ghost use Rattle.mt_steps.specs.declared.log.OpenWay.{OpenWay};
ghost use Rattle.mt_steps.specs.Streams.{KeepsToTest};
ghost use Rattle.mt_steps.specs.Undo.{IsLogOf};
ghost use Rattle.mt_workflow.specs.Workflows.{WorkflowState};

use crate::{
    a_create_is_refused_as_the_definitions_refuse_it, an_empty_base_stands_for_the_opening,
    what_a_create_makes_stands_for_the_next_state,
};
use mt_laws::{
    only_named_events_change_a_workflow, only_named_events_change_the_state, ways_keep_their_course,
};
use mt_stands::a_stream_that_reads_the_owner_is_in_use;
use mt_watch::Asks;

/// Without keyspaces, workflows and ways a core stands for the opening. The base of a core is one. A core stands for a state with more
/// watchers too. What leads from each state that it stands for to the next one leaves a core.
pub fn a_core_stays_one()
    ensures stands { (scopes : List Scope) → CoreStands (opening scopes) scopes empty_core }
    ensures opening { IsCore empty_core }
    ensures base { (s : CoreState) → IsCore s → IsBase s.base }
    ensures wider { (s : CoreState) (scopes : List Scope) (h : HasCoreState s)
        → (g : HasCoreState s) × (g.state.scopes ≡ h.state.scopes ++ scopes) }
    ensures stays { (scopes : List Scope) (old new : CoreState) (event : Event) (answer : Answer) → BringsNames event
        → ((more : List Scope) → CoreSteps (more ++ scopes) old event answer new) → IsCore old → IsCore new }
{
    an_empty_base_stands_for_the_opening();
}

/// A Create of names leaves a core, whatever it answers.
pub fn a_create_leaves_a_core<W: Asks>(watchers: &W)
    ensures { (old : CoreState) (new : BaseState) (workflow source target : List ℕ) (tables : List (List ℕ)) (answer : Answer)
        → BringsNames (create workflow source target tables)
        → Creates old.base (W.scopes watchers.now) (W.may_answer watchers.now) workflow source target tables answer new
        → IsCore old → IsCore (record old { base = new }) }
{
    only_named_events_change_a_workflow();
    only_named_events_change_the_state();
    a_create_is_refused_as_the_definitions_refuse_it();
    what_a_create_makes_stands_for_the_next_state();
    a_core_stays_one();
}

/// Something is kept for each open way, which has a next step, and it is kept for its workflow; until the journal has the way's entry, it has none of its number.
pub fn each_open_way_has_a_record()
    ensures there { (s : CoreState) → IsCore s → (name : List ℕ) (w : WorkflowState) (way : Way) → workflow_at s.base.workflows name ≡ Some w
        → w.way ≡ Some way → is_some (open_at s.ways.opened name) ≡ true }
    ensures absent { (s : CoreState) → IsCore s → (name : List ℕ) (w : WorkflowState) → workflow_at s.base.workflows name ≡ Some w
        → w.way ≡ None → open_at s.ways.opened name ≡ None }
    ensures kept { (s : CoreState) → IsCore s → (name : List ℕ) (w : WorkflowState) (way : Way) (o : OpenWay) → workflow_at s.base.workflows name ≡ Some w
        → w.way ≡ Some way → open_at s.ways.opened name ≡ Some o → IsLogOf w o.log }
    ensures within { (s : CoreState) → IsCore s → (name : List ℕ) (w : WorkflowState) (way : Way) → workflow_at s.base.workflows name ≡ Some w
        → w.way ≡ Some way → next_step way < behind_last way }
    ensures shards { (s : CoreState) → IsCore s → (name : List ℕ) (w : WorkflowState) (way : Way) → workflow_at s.base.workflows name ≡ Some w
        → w.way ≡ Some way → way.shards ≡ length w.lanes }
    ensures unused { (s : CoreState) → IsCore s → (name : List ℕ) (w : WorkflowState) (way : Way) (o : OpenWay) → workflow_at s.base.workflows name ≡ Some w
        → w.way ≡ Some way → open_at s.ways.opened name ≡ Some o → stands_done way write_journal ≡ false → entry_of s.ways.journal o.number ≡ None }
{
    ways_keep_their_course();
}

/// If the next step of an open way looks whether the feeding streams are level, the primaries that these read keep what they have still to
/// read.
pub fn what_a_step_looks_at_is_kept()
    ensures { (s : CoreState) → IsCore s → (name : List ℕ) (w : WorkflowState) (way : Way) → workflow_at s.base.workflows name ≡ Some w
        → w.way ≡ Some way → KeepsToTest w way (next_step way) (primary_of s.base.primaries w.source 0) (shards_of s.base.primaries w.target).each }
{
    ways_keep_their_course();
    a_stream_that_reads_the_owner_is_in_use();
}
