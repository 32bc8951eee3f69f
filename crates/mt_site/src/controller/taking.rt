//! What is taken of what the core is asked for, by hand or of a workflow, and the purge of all logs after it.
ghost use Rattle.std.specs.Prelude.{◌≡◌, true, OnErr, option_copied};
ghost use Rattle.mt_event.specs.Asks.{answer_told_by, event_of_ask, event_on};
ghost use Rattle.mt_event.specs.Events.{done_from};
ghost use Rattle.mt_event.specs.Reasons.{done_by};
ghost use Rattle.mt_names.specs.Shards.{AreCuts};
ghost use Rattle.mt_plain.specs.Events as plain;
ghost use Rattle.mt_stands.specs.ByHand.{AddsKeyspace, AddsTable, EditsRule};
ghost use Rattle.mt_stands.specs.Switching.{BeginsReverse, BeginsSwitch, Completes, StepsWorkflow, UndoesWorkflow};
ghost use Rattle.mt_stands.specs.Workflows.{AdvancesWorkflow, Cancels, Creates};
ghost use Rattle.mt_workflow.specs.Workflows.{stream_name};
ghost use Rattle.mt_site.specs.Advance.{advanced_from};
ghost use Rattle.mt_site.specs.Applied.{Applied, AppliedAlone, Taken};
ghost use Rattle.mt_site.specs.Asks.{answer_of, answer_on, asks_by_hand, may_change};

use crate::advance::Asked;
use crate::applied::an_applied_event_steps;
use crate::controller::Core;
use crate::given_up::a_move_can_be_given_up;
use crate::primaries::each_is_a_primary;
use crate::replies::{advanced, done, refused};
use crate::{advance, by_hand};
use arrayvec::ArrayVec;
use mt_event::{Ask, Reason, Refusal, Told, Verb};
use mt_laws::every_run_keeps_the_headline;
use mt_moves::{
    Move, begin_reverse, begin_switch, cancel, complete, create, names_are_names, step, undo,
};
use mt_names::{
    KeyspaceName, MAX_TABLES, RuleKey, RuleTarget, ShardList, TableName, TypeSet, WorkflowName,
};
use mt_refinement::{
    a_begin_steps, a_complete_steps, a_core_stays_one, a_create_can_be_taken_back,
    a_create_leaves_a_core, a_purged_base_stands, a_purged_core_stands, a_step_steps,
    an_undo_steps, each_open_way_has_a_record, each_shard_of_a_base_has_a_primary,
    events_by_hand_step_and_leave_the_ways, events_on_workflows_step_and_leave_the_ways,
    primaries_of_a_base_have_the_tables_of_its_topology, streams_of_a_base_lie_in_their_logs,
    what_a_step_looks_at_is_kept, what_is_purged_stays_purged,
    workflows_of_a_base_know_their_shards, workflows_of_a_base_stand_in_place,
};
use mt_stream::Advanced;
use mt_watch::Asks;

impl Core {
    /// Applies what is edited by hand, or creates a workflow.
    pub(super) fn apply_by_hand<W: Asks>(
        &mut self,
        watchers: &W,
        ask: Ask<'_>,
    ) -> Result<Told, Refusal>
        requires { asks_by_hand ask ≡ true }
        ensures { Applied (W.scopes watchers.now) (W.may_answer watchers.now) self.old (event_of_ask ask.entry) (answer_of self.new ask.entry result) self.new }
    {
        a_purged_base_stands();
        a_purged_core_stands();
        what_is_purged_stays_purged();
        a_move_can_be_given_up(watchers);
        every_run_keeps_the_headline();
        self.take_by_hand(watchers, ask)?;
        self.purge();
        Ok(Told::Done)
    }

    /// Takes it, and leaves the logs.
    fn take_by_hand<W: Asks>(&mut self, watchers: &W, ask: Ask<'_>) -> Result<(), Refusal>
        requires { asks_by_hand ask ≡ true }
        ensures { Taken (W.scopes watchers.now) (W.may_answer watchers.now) self.old (event_of_ask ask.entry) (done_from result) self.new }
    {
        each_is_a_primary(self.alloc, &self.primaries);
        let told = match ask {
            Ask::AddKeyspace(keyspace, shards) => refused(self.add_keyspace(keyspace, shards)),
            Ask::AddTable(keyspace, table) => refused(self.add_table(keyspace, table)),
            Ask::EditRule(key, target) => refused(self.edit_rule(key, target)),
            Ask::Create {
                workflow,
                source,
                target,
                tables,
            } => self.create(watchers, workflow, source, target, tables),
            _ => unreachable!(),
        };
        an_applied_event_steps(watchers);
        told
    }

    /// Applies what is asked of a workflow that is there, as `apply` does, which refuses it without a name.
    pub(crate) fn apply_on<W: Asks>(
        &mut self,
        watchers: &W,
        workflow: &WorkflowName,
        verb: Verb,
    ) -> Result<Told, Reason>
        ensures { Applied (W.scopes watchers.now) (W.may_answer watchers.now) self.old (event_on workflow.now verb) (answer_on self.new workflow.now verb result) self.new }
    {
        match verb {
            Verb::Show => self.show(workflow),
            _ => self.change(watchers, workflow, verb),
        }
    }

    /// Applies what may change the workflow.
    fn change<W: Asks>(
        &mut self,
        watchers: &W,
        workflow: &WorkflowName,
        verb: Verb,
    ) -> Result<Told, Reason>
        requires { may_change verb ≡ true }
        ensures { Applied (W.scopes watchers.now) (W.may_answer watchers.now) self.old (event_on workflow.now verb) (answer_on self.new workflow.now verb result) self.new }
    {
        a_purged_base_stands();
        a_purged_core_stands();
        what_is_purged_stays_purged();
        a_move_can_be_given_up(watchers);
        every_run_keeps_the_headline();
        let told = self.take_on(watchers, workflow, verb)?;
        self.purge();
        Ok(told)
    }

    /// Takes it, and leaves the logs.
    fn take_on<W: Asks>(
        &mut self,
        watchers: &W,
        workflow: &WorkflowName,
        verb: Verb,
    ) -> Result<Told, Reason>
        requires { may_change verb ≡ true }
        ensures { Taken (W.scopes watchers.now) (W.may_answer watchers.now) self.old (event_on workflow.now verb) (answer_told_by plain.done result) self.new }
    {
        each_is_a_primary(self.alloc, &self.primaries);
        let told = match verb {
            Verb::Advance {
                stream,
                shard,
                at,
                max,
            } => advanced(self.advance(
                workflow,
                Asked {
                    shard,
                    slot: stream,
                    at,
                    max,
                },
            )),
            Verb::BeginSwitch(types) => done(self.begin_switch(workflow, types)),
            Verb::BeginReverse(types) => done(self.begin_reverse(workflow, types)),
            Verb::Step(at) => done(self.step(watchers, workflow, at)),
            Verb::Undo(at) => done(self.undo(watchers, workflow, at)),
            Verb::Cancel => done(self.cancel(workflow)),
            Verb::Complete => done(self.complete(workflow)),
            Verb::Show => unreachable!(),
        };
        an_applied_event_steps(watchers);
        told
    }

    /// That a workflow is there, or `F7 NoWorkflow`. What is told of it stands in the core, which lends it: see `shown`.
    fn show(&self, workflow: &WorkflowName) -> Result<Told, Reason>
        ensures { AppliedAlone self.now (plain.show workflow.now) (answer_on self.now workflow.now Verb.Show result) self.now }
    {
        events_on_workflows_step_and_leave_the_ways();
        every_run_keeps_the_headline();
        if self.workflow(workflow).is_none() {
            return Err(Reason::NoWorkflow);
        }
        Ok(Told::Shown)
    }

    /// Creates a workflow that moves tables from a source to a target. It alone is refused with a name, by `F9 RuleConflict` and
    /// `F10 TargetHasTable`.
    fn create<W: Asks>(
        &mut self,
        watchers: &W,
        workflow: &WorkflowName,
        source: &KeyspaceName,
        target: &KeyspaceName,
        tables: &ArrayVec<TableName, MAX_TABLES>,
    ) -> Result<(), Refusal>
        ensures does { Creates self.old.base (W.scopes watchers.now) (W.may_answer watchers.now) workflow.now source.now target.now tables.now.items (done_from result) self.new.base }
        ensures ways { self.new.ways ≡ self.old.ways }
        ensures unchanged { OnErr result (self.new ≡ self.old) }
    {
        let tables = tables.as_slice();
        names_are_names(source, target, tables);
        a_core_stays_one();
        each_shard_of_a_base_has_a_primary();
        a_create_can_be_taken_back(watchers);
        a_create_leaves_a_core(watchers);
        create(
            self.alloc,
            &mut self.topology,
            &mut self.primaries,
            &mut self.workflows,
            watchers,
            Move {
                name: workflow,
                source,
                target,
                tables,
            },
        )
    }

    /// Advances a stream that a workflow has for a shard of its target, by its place. It asks nobody. `F7 NoWorkflow`, `F32 NoShard`,
    /// `F26 Stopped`, `F25 Stale`, `F27 Full`, `F0 Memory`. (Vitess: VReplication, the copy phase and the catchup)
    fn advance(&mut self, workflow: &WorkflowName, asked: Asked) -> Result<Advanced, Reason>
        ensures does { AdvancesWorkflow self.old.base workflow.now (stream_name asked.slot) asked.shard asked.at asked.max (advanced_from result) self.new.base }
        ensures ways { self.new.ways ≡ self.old.ways }
        ensures unchanged { OnErr result (self.new ≡ self.old) }
    {
        workflows_of_a_base_stand_in_place();
        workflows_of_a_base_know_their_shards();
        streams_of_a_base_lie_in_their_logs();
        a_core_stays_one();
        events_on_workflows_step_and_leave_the_ways();
        each_is_a_primary(self.alloc, &self.primaries);
        advance::advance(&mut self.primaries, &mut self.workflows, workflow, asked)
    }

    /// Adds a keyspace without tables: `F30 Exists`, `F27 Full`, `F0 Memory`.
    #[inline(never)]
    fn add_keyspace(&mut self, name: &KeyspaceName, shards: &ShardList) -> Result<(), Reason>
        ensures does { AddsKeyspace self.old.base name.now shards.now (done_by result) self.new.base }
        ensures bounds { AreCuts shards.now }
        ensures ways { self.new.ways ≡ self.old.ways }
        ensures unchanged { OnErr result (self.new ≡ self.old) }
    {
        each_shard_of_a_base_has_a_primary();
        primaries_of_a_base_have_the_tables_of_its_topology();
        a_core_stays_one();
        events_by_hand_step_and_leave_the_ways();
        shards.facts();
        by_hand::add_keyspace(&mut self.topology, &mut self.primaries, name, shards)
    }

    /// Adds a table without rows: `F1 NoKeyspace`, `F30 Exists`, `F27 Full`, `F0 Memory`.
    #[inline(never)]
    fn add_table(&mut self, keyspace: &KeyspaceName, table: &TableName) -> Result<(), Reason>
        ensures does { AddsTable self.old.base keyspace.now table.now (done_by result) self.new.base }
        ensures ways { self.new.ways ≡ self.old.ways }
        ensures unchanged { OnErr result (self.new ≡ self.old) }
    {
        each_shard_of_a_base_has_a_primary();
        primaries_of_a_base_have_the_tables_of_its_topology();
        a_core_stays_one();
        events_by_hand_step_and_leave_the_ways();
        by_hand::add_table(&mut self.topology, &mut self.primaries, keyspace, table)
    }

    /// Sets the rule of a key, or takes it away: `F22 RuleOwned`, `F27 Full`, `F0 Memory`.
    #[inline(never)]
    fn edit_rule(&mut self, key: &RuleKey, target: Option<&RuleTarget>) -> Result<(), Reason>
        ensures does { EditsRule self.old.base key.now (option_copied target.entry) (done_by result) self.new.base }
        ensures ways { self.new.ways ≡ self.old.ways }
        ensures unchanged { OnErr result (self.new ≡ self.old) }
    {
        a_core_stays_one();
        events_by_hand_step_and_leave_the_ways();
        by_hand::edit_rule(
            &mut self.topology,
            &self.workflows,
            key,
            target.map(RuleTarget::copied),
        )
    }

    /// Cancels a workflow: `F7 NoWorkflow`, `F13 UnderWay`, `F20 TrafficSwitched`. It takes no memory, and asks nobody.
    fn cancel(&mut self, name: &WorkflowName) -> Result<(), Reason>
        ensures does { Cancels self.old.base name.now (done_by result) self.new.base }
        ensures ways { self.new.ways ≡ self.old.ways }
        ensures unchanged { OnErr result (self.new ≡ self.old) }
    {
        workflows_of_a_base_stand_in_place();
        a_core_stays_one();
        events_on_workflows_step_and_leave_the_ways();
        each_is_a_primary(self.alloc, &self.primaries);
        cancel(
            &mut self.topology,
            &mut self.primaries,
            &mut self.workflows,
            name,
        )
    }

    /// Begins a way forward on a workflow: `F7 NoWorkflow`, `F13 UnderWay`, `F15 NothingToSwitch`, `F17 Copying`, `F27 Full`,
    /// `F0 Memory`.
    fn begin_switch(&mut self, name: &WorkflowName, types: TypeSet) -> Result<(), Reason>
        ensures does { BeginsSwitch self.old name.now types (done_by result) self.new }
        ensures unchanged { OnErr result (self.new ≡ self.old) }
    {
        a_core_stays_one();
        workflows_of_a_base_stand_in_place();
        each_open_way_has_a_record();
        a_begin_steps();
        begin_switch(
            self.alloc,
            &mut self.workflows,
            &mut self.opened,
            &mut self.begun,
            name,
            types,
        )
    }

    /// Begins a way back on a workflow: `F7 NoWorkflow`, `F13 UnderWay`, `F16 NothingToReverse`, `F27 Full`, `F0 Memory`.
    fn begin_reverse(&mut self, name: &WorkflowName, types: TypeSet) -> Result<(), Reason>
        ensures does { BeginsReverse self.old name.now types (done_by result) self.new }
        ensures unchanged { OnErr result (self.new ≡ self.old) }
    {
        a_core_stays_one();
        workflows_of_a_base_stand_in_place();
        each_open_way_has_a_record();
        a_begin_steps();
        begin_reverse(
            self.alloc,
            &mut self.workflows,
            &mut self.opened,
            &mut self.begun,
            name,
            types,
        )
    }

    /// Does the next step of the way that is open on a workflow: `F7 NoWorkflow`, `F14 NothingUnderWay`, `F28 Undoing`,
    /// `F25 Stale`, and what the step itself is refused by.
    fn step<W: Asks>(&mut self, watchers: &W, name: &WorkflowName, at: u64) -> Result<(), Reason>
        ensures does { StepsWorkflow self.old (W.scopes watchers.now) (W.may_answer watchers.now) name.now at (done_by result) self.new }
        ensures unchanged { OnErr result (self.new ≡ self.old) }
    {
        a_core_stays_one();
        workflows_of_a_base_stand_in_place();
        each_open_way_has_a_record();
        what_a_step_looks_at_is_kept();
        workflows_of_a_base_know_their_shards();
        a_step_steps(watchers);
        step(
            self.alloc,
            &mut self.topology,
            &mut self.primaries,
            &mut self.workflows,
            &mut self.opened,
            &mut self.journal,
            watchers,
            name,
            at,
        )
    }

    /// Undoes the last step of the way that is open on a workflow: `F7 NoWorkflow`, `F14 NothingUnderWay`, `F19 PastJournal`,
    /// `F25 Stale`. It takes no memory, and asks nobody.
    fn undo<W: Asks>(&mut self, watchers: &W, name: &WorkflowName, at: u64) -> Result<(), Reason>
        ensures does { UndoesWorkflow self.old name.now at (done_by result) self.new }
        ensures unchanged { OnErr result (self.new ≡ self.old) }
    {
        a_core_stays_one();
        workflows_of_a_base_stand_in_place();
        each_open_way_has_a_record();
        what_a_step_looks_at_is_kept();
        workflows_of_a_base_know_their_shards();
        an_undo_steps(watchers);
        undo(
            &mut self.topology,
            &mut self.primaries,
            &mut self.workflows,
            &mut self.opened,
            &mut self.journal,
            watchers,
            name,
            at,
        )
    }

    /// Completes a workflow: `F7 NoWorkflow`, `F13 UnderWay`, `F21 NotAllSwitched`. It takes no memory, and asks nobody.
    fn complete(&mut self, name: &WorkflowName) -> Result<(), Reason>
        ensures does { Completes self.old name.now (done_by result) self.new }
        ensures unchanged { OnErr result (self.new ≡ self.old) }
    {
        a_core_stays_one();
        workflows_of_a_base_stand_in_place();
        workflows_of_a_base_know_their_shards();
        primaries_of_a_base_have_the_tables_of_its_topology();
        a_complete_steps();
        each_is_a_primary(self.alloc, &self.primaries);
        complete(
            &mut self.topology,
            &mut self.primaries,
            &mut self.workflows,
            name,
        )
    }
}
