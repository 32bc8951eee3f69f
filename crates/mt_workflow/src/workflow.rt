//! A workflow.
ghost use Rattle.std.specs.Prelude.{◌≡◌, ◌≢◌, ℕ, ◌<◌, ◌≤◌, true, false, List, if◌then◌else◌, None, Some, AllPairs, IfOk, IfErr, length, map, option_copied, option_map, slice_get};
ghost use Rattle.mt_names.specs.Shards.{AreCuts, ranges_of, shard_count};
ghost use Rattle.mt_names.specs.Tables.{most_tables};
ghost use Rattle.mt_model.specs.Topology.{cuts_at, rule_at};
ghost use Rattle.mt_plain.specs.Answers.{range_at};
ghost use Rattle.mt_plain.specs.Events.{running};
ghost use Rattle.mt_plain.specs.Plain.{among, before_way, each_once, in_keyspace, is_side};
ghost use Rattle.mt_plain.specs.Serve.{is_denied_at, owned_before, serve_plain, serve_rule};
ghost use Rattle.mt_plain.specs.Slots.{written_side};
ghost use Rattle.mt_rules.specs.Rules.{lent_rule};
ghost use Rattle.mt_primary.specs.Primary.{end_of, has_table};
ghost use Rattle.mt_stream.specs.Streams.{StreamValue, state_from};
ghost use Rattle.mt_workflow.specs.Advance.{AdvancesSlot};
ghost use Rattle.mt_workflow.specs.Workflows.{IsWorkflow, all_in_state, feeding, is_as_before, keys_of_part, live_of, new_lane, new_workflow, ranges_in, rules_only, slot_of, stream_name, wanted, way_from, with_slot};

use crate::building::{each_once, kept_rules, table_list};
use crate::fault::WorkflowFault;
use crate::lane::{Lane, first_lanes};
use crate::part::table_part_key;
use crate::way::{Slot, Way};
use arrayvec::ArrayVec;
use indexmap::{IndexMap, IndexSet};
use mt_model::{Entry, EntryKey};
use mt_names::{
    KeyRange, KeyspaceName, MAX_TABLES, Position, RuleKey, RuleTarget, TableName, TabletType,
    TypeSet, WorkflowName,
};
use mt_primary::Primary;
use mt_stream::{Advanced, Stream, StreamFault, StreamState};
use mt_topology::Topology;
use std::alloc::Global;
use std::marker::Model;
use std::mem;

/// How many keys each table adds to a part.
const KEYS_OF_TABLE: usize = 15;

/// A workflow: it moves some tables from its source to its target. It keeps the rule that each rule key of its part had
/// before Create, so that Cancel can give that back, and its streams. It owns neither the topology nor a primary.
/// (Vitess: a workflow of MoveTables with its reverse workflow)
#[derive(Drop)]
pub struct Workflow {
    name: WorkflowName,
    source: KeyspaceName,
    target: KeyspaceName,
    tables: IndexSet<TableName>,
    switched: TypeSet,
    way: Option<Way>,
    kept: IndexMap<RuleKey, Option<RuleTarget>>,
    /// One for each shard of the target, in their order.
    lanes: Vec<Lane>,
}

impl Model for Workflow {
    ghost use Rattle.std.specs.Prelude.{option_map};
    ghost use Rattle.mt_workflow.specs.Builds.{Agrees};
    ghost use Rattle.mt_workflow.specs.Workflows.{IsWorkflow, WorkflowState, kept_of, ranges_in, way_from};

    ghost Value = { WorkflowState };

    ghost view = { λ w. record { name = w.name; source = w.source; target = w.target; tables = w.tables.keys; switched = w.switched; way = option_map way_from w.way; kept = kept_of w.kept.entries w.source w.target w.tables.keys; lanes = w.lanes.items } };

    ghost invariant = { λ w. IsWorkflow w.source w.target w.tables.keys (ranges_in w.lanes.items) × Agrees w.kept.entries (kept_of w.kept.entries w.source w.target w.tables.keys) };
}

impl Workflow {
    /// A new workflow of some tables, each of which counts once, in the order in which they are first named; at most 16 may
    /// be named, and the sides must be two. Nothing is switched and no way is open. It keeps the rule that the topology has
    /// at each rule key of its part, or that there is none. It has a lane for each shard that its target has in the topology, or
    /// one of all keys if the target isn't there. The forward stream of a lane has the keys of that shard, has copied nothing, runs,
    /// and reads the source's log from this position on; there is no back stream. `W0 Memory`. It alone takes memory, and it refuses
    /// nothing for the sake of the topology: see `may_create`. (Vitess: Create of MoveTables)
    pub fn new(
        alloc: Global,
        name: &WorkflowName,
        source: &KeyspaceName,
        target: &KeyspaceName,
        tables: &[TableName],
        topology: &Topology,
        position: Position,
    ) -> Result<Self, WorkflowFault>
        requires apart { source.now ≢ target.now }
        requires few { length tables.now ≤ most_tables }
        ensures value { IfOk result (λ w. w ≡ new_workflow topology.now name.now source.now target.now (each_once tables.now) position) }
        ensures memory { IfErr result (λ fault. fault ≡ WorkflowFault.Memory) }
    {
        let tables = each_once(alloc, tables)?;
        let kept = kept_rules(alloc, source, target, tables.as_slice(), topology.rules())?;
        let lanes = lanes_of(alloc, tables.as_slice(), target, topology, position)?;
        Ok(Workflow {
            name: name.copied(),
            source: source.copied(),
            target: target.copied(),
            tables,
            switched: TypeSet::NONE,
            way: None,
            kept,
            lanes,
        })
    }

    /// What is true of every workflow, for a caller's proof: no table is named twice, there are at most 16, the sides are two, and its
    /// lanes have the ranges of the shards of a keyspace, of which there are from one to eight. It does nothing.
    pub fn facts(&self)
        ensures { IsWorkflow self.now.source self.now.target self.now.tables (ranges_in self.now.lanes) }
    {
        let _tables = &self.tables;
    }

    /// Its name.
    pub fn name(&self) -> &WorkflowName
        ensures { result.now ≡ self.now.name }
    {
        &self.name
    }

    /// The keyspace that its tables move from.
    pub fn source(&self) -> &KeyspaceName
        ensures { result.now ≡ self.now.source }
    {
        &self.source
    }

    /// The keyspace that they move to.
    pub fn target(&self) -> &KeyspaceName
        ensures { result.now ≡ self.now.target }
    {
        &self.target
    }

    /// Its tables, each once, in the order in which they were first named.
    pub fn tables(&self) -> &[TableName]
        ensures { result.now ≡ self.now.tables }
    {
        self.tables.as_slice()
    }

    /// Its tables as a list of their own, as a stream takes it. It takes no memory.
    pub fn table_list(&self) -> ArrayVec<TableName, MAX_TABLES>
        ensures tables { result.items ≡ self.now.tables }
        ensures distinct { AllPairs ◌≢◌ self.now.tables }
    {
        table_list(self.tables.as_slice())
    }

    /// The tablet types whose traffic is switched. (Vitess: SwitchTraffic)
    pub fn switched(&self) -> TypeSet
        ensures { result ≡ self.now.switched }
    {
        self.switched
    }

    /// The way that is open, if one is. (Vitess: SwitchTraffic, ReverseTraffic)
    pub fn way(&self) -> Option<Way>
        ensures { option_map way_from result ≡ self.now.way }
    {
        self.way
    }

    /// How many keys its part has: 15 for each table.
    #[tactic(auto, using(crate::proofs::PartLemmas::length_part))]
    pub fn part_len(&self) -> usize
        ensures { result ≡ length (keys_of_part self.now) }
    {
        self.tables.len() * KEYS_OF_TABLE
    }

    /// A key of its part by its index: table by table, and of each its twelve rule keys, its denial at the source and at the
    /// target, and its presence at the target. It takes no memory, and makes that key alone.
    pub fn part_key(&self, index: usize) -> EntryKey
        requires { index < length (keys_of_part self.now) }
        ensures { Some result ≡ slice_get (keys_of_part self.now) index }
    {
        let table = &self.tables.as_slice()[index / KEYS_OF_TABLE];
        table_part_key(&self.source, &self.target, table, index % KEYS_OF_TABLE)
    }

    /// What an entry of its part is to say once these types are switched. Of an entry of another part the answer means
    /// nothing. It takes no memory. (Vitess: how traffic is switched)
    pub fn wanted(&self, key: &EntryKey, types: TypeSet) -> Entry
        ensures { result ≡ wanted self.now types key.now }
    {
        match key {
            EntryKey::Rule(key) => Entry::Rule(key.copied(), self.wanted_rule(key, types)),
            EntryKey::Denied(keyspace, table) => Entry::Denied(
                keyspace.copied(),
                table.copied(),
                self.is_denied_at(keyspace, types),
            ),
            EntryKey::Present(keyspace, table) => {
                Entry::Present(keyspace.copied(), table.copied(), true)
            }
        }
    }

    /// Whether a side is to refuse its tables once these types are switched: the one that is not the owner. It takes no
    /// memory. (Vitess: how traffic is switched)
    pub fn is_denied_at(&self, keyspace: &KeyspaceName, types: TypeSet) -> bool
        ensures { result ≡ is_denied_at (live_of self.now) types keyspace.now }
    {
        if &self.source == keyspace {
            types.primary
        } else {
            !types.primary
        }
    }

    /// The rule of a key of its part once these types are switched, if the key is to have one. Of a key of another part the
    /// answer means nothing. It takes no memory. (Vitess: how traffic is switched)
    #[inline(always)]
    pub fn wanted_rule(&self, key: &RuleKey, types: TypeSet) -> Option<RuleTarget>
        ensures { result ≡ serve_rule (rules_only self.now.kept) (live_of self.now) types key.now key.now.tablet_type }
    {
        let (keyspace, table) = self.wanted_names(key, types)?;
        Some(RuleTarget {
            keyspace: keyspace.copied(),
            table: table.copied(),
        })
    }

    /// The names of the keyspace and the table that the rule of a key leads to, as `wanted_rule` answers it, without a copy of either.
    #[inline(always)]
    pub fn wanted_names<'a>(
        &'a self,
        key: &'a RuleKey,
        types: TypeSet,
    ) -> Option<(&'a KeyspaceName, &'a TableName)>
        ensures { lent_rule result ≡ serve_rule (rules_only self.now.kept) (live_of self.now) types key.now key.now.tablet_type }
    {
        if self.is_as_before(key, types) {
            let rule = self.kept(key)?;
            return Some((&rule.keyspace, &rule.table));
        }
        let keyspace = self.leads_to(key, types)?;
        Some((keyspace, &key.table))
    }

    /// Whether a key is to have the rule from before Create: that of the name at the source, as long as the source is the owner.
    fn is_as_before(&self, key: &RuleKey, types: TypeSet) -> bool
        ensures { result ≡ is_as_before self.now types key.now }
    {
        if types.primary || key.tablet_type.is_some() {
            return false;
        }
        match &key.keyspace {
            None => false,
            Some(keyspace) => &self.source == keyspace,
        }
    }

    /// The keyspace that the rule of a key leads to, if the key is to have a rule that isn't the one from before Create.
    fn leads_to(&self, key: &RuleKey, types: TypeSet) -> Option<&KeyspaceName>
        requires { is_as_before self.now types key.now ≡ false }
        ensures { option_map (λ keyspace. in_keyspace keyspace key.now.table) (option_copied result)
            ≡ serve_rule (rules_only self.now.kept) (live_of self.now) types key.now key.now.tablet_type }
    {
        match key.tablet_type {
            None => self.plain_leads_to(key, types),
            Some(TabletType::Primary) => None,
            Some(TabletType::Replica) => Some(self.side(types.replica)),
            Some(TabletType::Rdonly) => Some(self.side(types.rdonly)),
        }
    }

    /// The keyspace that the rule of a key for all types leads to, if the key is to have one that isn't the one from before Create.
    fn plain_leads_to(&self, key: &RuleKey, types: TypeSet) -> Option<&KeyspaceName>
        requires plain { key.now.tablet_type ≡ None }
        requires other { is_as_before self.now types key.now ≡ false }
        ensures { option_map (λ keyspace. in_keyspace keyspace key.now.table) (option_copied result)
            ≡ serve_plain (rules_only self.now.kept) (live_of self.now) types key.now key.now.keyspace }
    {
        match &key.keyspace {
            None => Some(self.side(types.primary)),
            Some(keyspace) => {
                if !types.primary {
                    return Some(&self.source);
                }
                if &self.source == keyspace {
                    return Some(&self.target);
                }
                None
            }
        }
    }

    /// The target, or the source. (Vitess: MoveTables)
    pub fn side(&self, is_target: bool) -> &KeyspaceName
        ensures { result.now ≡ (if is_target then self.now.target else self.now.source) }
    {
        if is_target {
            &self.target
        } else {
            &self.source
        }
    }

    /// The rule that a key had before Create, if it is a rule key of its part and had one. It takes no memory. (Vitess:
    /// Routing Rules)
    pub fn kept(&self, key: &RuleKey) -> Option<&RuleTarget>
        ensures { option_copied result ≡ rule_at self.now.kept key.now }
    {
        if self.kept.is_empty() {
            return None;
        }
        self.kept.get(key)?.as_ref()
    }

    /// Whether it is known to keep no rule, so that no rule key of its part had one before Create. It takes no memory, and looks at
    /// no key.
    pub fn keeps_nothing(&self) -> bool
        ensures { result ≡ true → (key : RuleKey) → rule_at self.now.kept key ≡ None }
    {
        self.kept.is_empty()
    }

    /// The types that were switched before the way that is open, or that are switched where none is.
    pub fn types_before(&self) -> TypeSet
        ensures { result ≡ before_way (live_of self.now) }
    {
        match &self.way {
            Some(way) => way.before,
            None => self.switched,
        }
    }

    /// Whether a keyspace owned the tables before the way that is open, or owns them where none is.
    pub fn owned_before(&self, keyspace: &KeyspaceName) -> bool
        ensures { result ≡ owned_before (live_of self.now) keyspace.now }
    {
        self.side(self.types_before().primary) == keyspace
    }

    /// Which of its streams writes at a side: the back stream at the source, the forward stream at the target.
    pub fn feeding(&self, side: &KeyspaceName) -> Slot
        ensures value { stream_name result ≡ feeding self.now side.now }
        ensures writes { is_side (live_of self.now) side.now ≡ true → written_side (live_of self.now) (stream_name result) ≡ side.now }
    {
        if &self.source == side {
            Slot::Back
        } else {
            Slot::Forward
        }
    }

    /// How many shards its target has, from one to eight. (Vitess: the shards of the target keyspace)
    pub fn shards(&self) -> u8
        ensures value { result ≡ length self.now.lanes }
        ensures cuts { result ≡ shard_count (live_of self.now).cuts }
        ensures some { 1 ≤ result }
    {
        self.lanes.len() as u8
    }

    /// The key range of one of them. (Vitess: the key range of a shard)
    pub fn range(&self, shard: u8) -> &KeyRange
        requires { shard < length self.now.lanes }
        ensures value { result.now ≡ range_at (live_of self.now).cuts shard }
        ensures lane { option_map (λ lane. lane.range) (slice_get self.now.lanes shard) ≡ Some result.now }
    {
        self.lanes[usize::from(shard)].range()
    }

    /// The forward stream or the back stream of a shard of its target, if there is one. It takes no memory.
    pub fn slot(&self, shard: u8, slot: Slot) -> Option<&Stream>
        ensures { option_copied result ≡ slot_of self.now shard (stream_name slot) }
    {
        self.lanes.get(usize::from(shard))?.slot(slot)
    }

    /// Puts a stream there, or none, and answers what stood there. It takes no memory.
    pub fn put_slot(&mut self, shard: u8, slot: Slot, stream: Option<Stream>) -> Option<Stream>
        requires { shard < length self.old.lanes }
        ensures before { result ≡ slot_of self.old shard (stream_name slot) }
        ensures after { self.new ≡ with_slot self.old shard (stream_name slot) stream }
    {
        self.lanes[usize::from(shard)].put_slot(slot, stream)
    }

    /// Advances the forward stream or the back stream of a shard of its target where it stands, as `Stream::advance` says; none, if
    /// there is none. All else of the workflow stays. (Vitess: a VReplication stream of the workflow, or of its reverse workflow)
    pub fn advance(
        &mut self,
        shard: u8,
        slot: Slot,
        source: &Primary,
        sink: &mut Primary,
        at: Position,
        max: u16,
    ) -> Option<Result<Advanced, StreamFault>>
        requires kept { (s : StreamValue) → slot_of self.old shard (stream_name slot) ≡ Some s → s.state ≡ running → source.now.log.purged ≤ s.position }
        requires within { (s : StreamValue) → slot_of self.old shard (stream_name slot) ≡ Some s → s.position ≤ end_of source.now }
        requires there { (s : StreamValue) → slot_of self.old shard (stream_name slot) ≡ Some s → (table : List ℕ) → among s.tables table ≡ true → has_table sink.old table ≡ true }
        ensures advances { AdvancesSlot (slot_of self.old shard (stream_name slot)) source.now sink.old at max result (slot_of self.new shard (stream_name slot)) sink.new }
        ensures rest { self.new ≡ with_slot self.old shard (stream_name slot) (slot_of self.new shard (stream_name slot)) }
    {
        let lane = self.lanes.get_mut(usize::from(shard))?;
        lane.advance(slot, source, sink, at, max)
    }

    /// Lets the forward stream or the back stream of each shard of its target run, stop or freeze where it stands, if there is one. All
    /// else of the workflow stays. It takes no memory. (Vitess: the state of a VReplication stream)
    pub fn set_state(&mut self, slot: Slot, state: StreamState)
        ensures { self.new ≡ all_in_state self.old (stream_name slot) (state_from state) }
    {
        for lane in self.lanes.iter_mut() {
            lane.set_state(slot, state);
        }
    }

    /// Says which types are switched, and answers which were. It takes no memory.
    pub fn set_switched(&mut self, types: TypeSet) -> TypeSet
        ensures before { result ≡ self.old.switched }
        ensures after { self.new ≡ record self.old { switched = types } }
    {
        mem::replace(&mut self.switched, types)
    }

    /// Says which way is open, or that none is, and answers what stood there. It takes no memory.
    pub fn set_way(&mut self, way: Option<Way>) -> Option<Way>
        ensures before { option_map way_from result ≡ self.old.way }
        ensures after { self.new ≡ record self.old { way = option_map way_from way } }
    {
        mem::replace(&mut self.way, way)
    }
}

/// The lanes of a new workflow of some tables: one for each shard that its target has in the topology, or one of all keys if the target
/// isn't there. `W0 Memory`.
fn lanes_of(
    alloc: Global,
    tables: &[TableName],
    target: &KeyspaceName,
    topology: &Topology,
    position: Position,
) -> Result<Vec<Lane>, WorkflowFault>
    requires few { length tables.now ≤ most_tables }
    requires distinct { AllPairs ◌≢◌ tables.now }
    ensures value { IfOk result (λ lanes. lanes.items ≡ map (new_lane tables.now position) (ranges_of (cuts_at topology.now.keyspaces target.now))) }
    ensures cuts { IfOk result (λ _. AreCuts (cuts_at topology.now.keyspaces target.now)) }
    ensures memory { IfErr result (λ fault. fault ≡ WorkflowFault.Memory) }
{
    match topology.shards(target) {
        Some(shards) => first_lanes(alloc, tables, shards.as_slice(), position),
        None => first_lanes(alloc, tables, &[KeyRange::whole()], position),
    }
}
