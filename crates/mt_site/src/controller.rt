//! The core of the controller: the topology, a primary for each shard of its keyspaces, the live workflows, and what is kept of ways.
ghost use Rattle.std.specs.Prelude.{◌≡◌, IfErr, IfOk, List, option_copied, option_map, slice_get, string_bytes};
ghost use Rattle.mt_event.specs.Asks.{event_of_ask};
ghost use Rattle.mt_event.specs.Events.{answer_from, lent_shown};
ghost use Rattle.mt_model.specs.declared.entries.Scope.{Scope};
ghost use Rattle.mt_model.specs.Documents.{dump_text, rules_text};
ghost use Rattle.mt_model.specs.Topology.{resolution};
ghost use Rattle.mt_plain.specs.Plain.{Plain, live_at, opening};
ghost use Rattle.mt_plain.specs.Refuse.{owed, shard_of_range};
ghost use Rattle.mt_plain.specs.Serve.{served};
ghost use Rattle.mt_primary.specs.Primaries.{shards_of};
ghost use Rattle.mt_stands.specs.Base.{workflow_at};
ghost use Rattle.mt_stands.specs.Purges.{IsPurged, with_purges};
ghost use Rattle.mt_stands.specs.Ways.{CoreStands, empty_core};
ghost use Rattle.mt_stands.specs.Workflows.{shown_by};
ghost use Rattle.mt_site.specs.Applied.{Applied};
ghost use Rattle.mt_site.specs.Asks.{answer_of, shown_in};
ghost use Rattle.mt_site.specs.Owed.{owed_to};
ghost use Rattle.mt_site.specs.Shards.{shard_from, shard_in};

mod placed;
mod taking;

use crate::owed::a_base_owes_what_its_state_owes;
use crate::replies::{done, refused_by, row};
use crate::rows::NOWHERE;
use crate::{OpenWays, Primaries, Workflows, owed, shards, show};
use indexmap::IndexMap;
use mt_event::{Ask, Reason, Refusal, Reply, ShownOf, Told, Verb};
use mt_journal::Journal;
use mt_model::TopologyFault;
use mt_moves::purge;
use mt_names::{KeyRange, KeyspaceName, RuleKey, RuleTarget, TabletType, WorkflowName};
use mt_primary::Primary;
use mt_refinement::{
    a_base_tells_what_its_state_serves, a_core_stays_one, a_purged_base_stands,
    a_purged_core_stands, streams_of_a_base_lie_in_their_logs,
    workflows_of_a_base_know_their_shards,
};
use mt_rules::RulesFault;
use mt_topology::Topology;
use mt_watch::Asks;
use mt_workflow::Workflow;
pub use placed::Place;
use std::alloc::Global;
use std::marker::Model;

/// The state of the controller: the topology, for each shard of a keyspace its primary, the live workflows, the ways that are open with what
/// their undo needs, the journal, and how many ways were begun. Whoever asks it hands in the watchers. (Vitess: what MoveTables
/// works on)
#[derive(Drop)]
pub struct Core {
    alloc: Global,
    topology: Topology,
    primaries: Primaries,
    workflows: Workflows,
    opened: OpenWays,
    journal: Journal,
    begun: u64,
}

impl Model for Core {
    ghost use Rattle.mt_stands.specs.Ways.{IsCore, CoreState};

    ghost Value = { CoreState };

    ghost view = { λ core. record {
      base = record { topology = core.topology; primaries = core.primaries; workflows = core.workflows.entries };
      ways = record { opened = core.opened.entries; journal = core.journal; begun = core.begun };
    } };

    ghost invariant = { λ core. IsCore (record {
      base = record { topology = core.topology; primaries = core.primaries; workflows = core.workflows.entries };
      ways = record { opened = core.opened.entries; journal = core.journal; begun = core.begun };
    }) };
}

impl Core {
    /// A core without keyspaces and workflows. It takes no memory.
    pub fn new(alloc: Global) -> Self
        ensures value { result ≡ empty_core }
        ensures stands { (scopes : List Scope) → CoreStands (opening scopes) scopes result }
        ensures purged { IsPurged result.base }
    {
        a_core_stays_one();
        Core {
            alloc,
            topology: Topology::new(alloc),
            primaries: Primaries::new(alloc),
            workflows: IndexMap::new(alloc),
            opened: IndexMap::new(alloc),
            journal: Journal::new(alloc),
            begun: 0,
        }
    }

    /// The topology. It takes no memory.
    pub fn topology(&self) -> &Topology
        ensures { result.now ≡ self.now.base.topology }
    {
        &self.topology
    }

    /// A live workflow, or none of that name. It takes no memory.
    pub fn workflow(&self, name: &WorkflowName) -> Option<&Workflow>
        ensures { option_copied result ≡ workflow_at self.now.base.workflows name.now }
    {
        self.workflows.get(name)
    }

    /// The primary of a shard of a keyspace, or none: its rows, and its log, of which is kept what a stream has still to read. It takes no
    /// memory.
    pub fn primary(&self, keyspace: &KeyspaceName, shard: u8) -> Option<&Primary>
        ensures { option_copied result ≡ slice_get (shards_of self.now.base.primaries keyspace.now).each shard }
    {
        match self.primaries.place(keyspace) {
            None => None,
            Some(place) => self.primaries.all(place).get(usize::from(shard)),
        }
    }

    /// The shard of a live workflow's target whose range is written so, by its place: `F7 NoWorkflow`, `F32 NoShard`. It takes no memory.
    pub fn shard(&self, workflow: &WorkflowName, range: &KeyRange) -> Result<u8, Reason>
        ensures place { shard_from result ≡ shard_in (workflow_at self.now.base.workflows workflow.now) range.now }
        ensures stands { (p : Plain) (scopes : List Scope) → CoreStands p scopes self.now → shard_from result ≡ shard_of_range (live_at p workflow.now) range.now }
    {
        shards::place_of(&self.workflows, workflow, range)
    }

    /// Where a name leads for a type. It takes no memory.
    pub fn resolve(
        &self,
        key: &RuleKey,
        tablet_type: TabletType,
    ) -> Result<RuleTarget, TopologyFault>
        ensures value { result ≡ resolution self.now.base.topology key.now tablet_type }
        ensures served { (p : Plain) (scopes : List Scope) → CoreStands p scopes self.now → result ≡ resolution (served p) key.now tablet_type }
    {
        a_base_tells_what_its_state_serves();
        self.topology.resolve(key, tablet_type)
    }

    /// The document of the rules, as the commands `rules` and `mt rules` write them: `R0 Memory`.
    pub fn rules_json(&self) -> Result<String, RulesFault>
        ensures text { IfOk result (λ text. string_bytes text ≡ rules_text self.now.base.topology.rules) }
        ensures served { (p : Plain) (scopes : List Scope) → CoreStands p scopes self.now → IfOk result (λ text. string_bytes text ≡ rules_text (served p).rules) }
        ensures memory { IfErr result (λ fault. fault ≡ RulesFault.Memory) }
    {
        a_core_stays_one();
        a_base_tells_what_its_state_serves();
        self.topology.rules().to_json(self.alloc)
    }

    /// The document of the whole topology: `T0 Memory`.
    pub fn dump(&self) -> Result<String, TopologyFault>
        ensures text { IfOk result (λ text. string_bytes text ≡ dump_text self.now.base.topology) }
        ensures served { (p : Plain) (scopes : List Scope) → CoreStands p scopes self.now → IfOk result (λ text. string_bytes text ≡ dump_text (served p)) }
        ensures memory { IfErr result (λ fault. fault ≡ TopologyFault.Memory) }
    {
        a_core_stays_one();
        a_base_tells_what_its_state_serves();
        self.topology.dump(self.alloc)
    }

    /// The events that are owed to the live workflows, so that each can be given up: to each its Cancel, and where a way is
    /// open before its journal an undo of each step that stands done, or of the begin. It takes no memory.
    pub fn owed(&self) -> usize
        ensures value { result ≡ owed_to self.now.base.workflows }
        ensures served { (p : Plain) (scopes : List Scope) → CoreStands p scopes self.now → result ≡ owed p }
    {
        a_core_stays_one();
        a_base_owes_what_its_state_owes();
        owed::owed(&self.workflows)
    }

    /// Drops what no stream will read any more of each log. It takes no memory.
    fn purge(&mut self)
        ensures base { self.new.base ≡ with_purges self.old.base }
        ensures ways { self.new.ways ≡ self.old.ways }
    {
        a_purged_base_stands();
        a_purged_core_stands();
        purge(&self.workflows, &mut self.primaries);
    }

    /// What is told of a live workflow, if there is one of that name. It takes no memory, and asks nobody. (Vitess: Show of MoveTables)
    pub fn shown(&self, workflow: &WorkflowName) -> Option<ShownOf<'_>>
        ensures { option_map lent_shown result ≡ option_map shown_by (workflow_at self.now.base.workflows workflow.now) }
    {
        a_core_stays_one();
        workflows_of_a_base_know_their_shards();
        streams_of_a_base_lie_in_their_logs();
        show::show(&self.workflows, workflow)
    }

    /// Applies what is asked for, which is done whole or refused; what is refused leaves the core as it was. The answer is one that the
    /// definitions allow in each state that the core stands for, and the core then stands for the next one. Of the events Read,
    /// Undo, Cancel, Complete and Show take no memory. Create asks the watchers of its target's primary, and of the steps a refresh
    /// those of the primary that it is about; no other event asks anybody. Behind an event that is taken each log is purged below what the
    /// streams that read it, frozen ones apart, have still to read; behind a write as a segment gets whole. (Vitess: MoveTables)
    ///
    /// `Applied` is all that is promised of it. Its `headline` is the promise of the whole: whatever client calls, stream steps, rule edits
    /// and workflow commands were applied before, in whatever order, Cancel gives back the workflow's part of the topology from before
    /// Create, ReverseTraffic that from before SwitchTraffic, an abandoned switch that from its start; no moved table is ever writable in
    /// two keyspaces, and each primary read answers from the acknowledged writes, each once. `steps` and `headline` speak of each state that
    /// the core stands for with these watchers. There is one if there was one before: from `new` on, if each call hands in watchers of the
    /// same scopes.
    pub fn apply<W: Asks>(&mut self, watchers: &W, ask: Ask<'_>) -> Result<Told, Refusal>
        ensures { Applied (W.scopes watchers.now) (W.may_answer watchers.now) self.old (event_of_ask ask.entry) (answer_of self.new ask.entry result) self.new }
    {
        match ask {
            Ask::Write(keyspace, table, op) => {
                refused_by(done(self.write(NOWHERE, keyspace, table, op.copied())))
            }
            Ask::Read(keyspace, table, key, type_of) => {
                refused_by(row(self.read(NOWHERE, keyspace, table, key, type_of)))
            }
            Ask::On(workflow, verb) => refused_by(self.apply_on(watchers, workflow, verb)),
            _ => self.apply_by_hand(watchers, ask),
        }
    }

    /// The reply to what was asked for last, by what `apply` told of it. It takes no memory.
    pub fn reply(&self, ask: Ask<'_>, told: Result<Told, Refusal>) -> Result<Reply, Refusal>
        ensures { answer_from result ≡ answer_of self.now ask.entry told }
    {
        match told? {
            Told::Done => Ok(Reply::Done),
            Told::Row(row) => Ok(Reply::Row(row)),
            Told::Advanced(counts) => Ok(Reply::Advanced(counts)),
            Told::Shown => self.shown_reply(ask),
        }
    }

    /// The reply to what tells of a workflow.
    fn shown_reply(&self, ask: Ask<'_>) -> Result<Reply, Refusal>
        ensures { answer_from result ≡ shown_in self.now ask.entry }
    {
        match ask {
            Ask::On(workflow, Verb::Show) => match self.shown(workflow) {
                Some(shown) => Ok(Reply::Shown(shown.owned())),
                None => Err(Refusal::Other(Reason::NoWorkflow)),
            },
            _ => Ok(Reply::Done),
        }
    }
}
