//! Workflows between the primary of a source and those of a target's shards, and their steps.
ghost use Rattle.std.specs.Prelude.{◌≡◌, ◌<◌, ◌≤◌, length, true, Some, option_copied};
ghost use Rattle.mt_names.specs.Tables.{most_tables};
ghost use Rattle.mt_plain.specs.Plain.{last_step, next_step, write_journal};
ghost use Rattle.mt_workflow.specs.Workflows.{slot_of, way_from};
ghost use Rattle.mt_steps.specs.Entries.{HasPlaces};
ghost use Rattle.mt_steps.specs.Plans.{number};
ghost use Rattle.mt_steps.specs.Streams.{KeepsToFeed, feeding_name, read_for};
ghost use Rattle.mt_stream.specs.Streams.{StreamValue};

use mt_journal::Journal;
use mt_names::{KeyspaceName, Position, TableName, TypeSet, WorkflowName, table_list};
use mt_primary::{Primary, PrimaryFault};
use mt_steps::{
    Sides, Step, StepFault, UndoLog, a_record_stays_that_of_its_workflow, do_step, undo_last,
};
use mt_stream::Stream;
use mt_topology::Topology;
use mt_watch::{Asks, Entry, Notice, WatchersFault};
use mt_workflow::{Slot, Way, Workflow};
use std::alloc::Global;
use std::marker::Model;

/// Two tables at the keyspace `a`, and keyspaces of one, two, three and eight shards, which are named by these numbers.
const DUMP: &str =
    "{\"version\":2,\"keyspaces\":[{\"name\":\"a\",\"tables\":[\"t\",\"u\"]},{\"name\":\"one\",\"shards\":[\"-\"]},{\"name\":\"two\",\"shards\":[\"-80\",\"80-\"]},{\"name\":\"three\",\"shards\":[\"-40\",\"40-80\",\"80-\"]},{\"name\":\"eight\",\"shards\":[\"-20\",\"20-40\",\"40-60\",\"60-80\",\"80-a0\",\"a0-c0\",\"c0-e0\",\"e0-\"]}]}";

/// A workflow with its record, and the primaries of its target's shards, in their order.
#[derive(Drop)]
pub struct Moved {
    workflow: Workflow,
    targets: Vec<Primary>,
    log: UndoLog,
    number: u64,
}

impl Model for Moved {
    ghost use Rattle.std.specs.Prelude.{⊤};
    ghost use Rattle.mt_steps.specs.Undo.{IsLogOf};

    ghost Value = { ⊤ };

    ghost view = { λ m. tt };

    ghost invariant = { λ m. IsLogOf m.workflow m.log };
}

/// The topology, the primary of the keyspace `a`, and the journal.
#[derive(Drop)]
pub struct Scene {
    pub topology: Topology,
    pub source: Primary,
    pub journal: Journal,
}

/// Whether each key of a part has a place.
fn has_places(topology: &Topology, workflow: &Workflow) -> bool
    ensures { result ≡ true → HasPlaces topology.now workflow.now }
{
    for index in 0..workflow.part_len() {
        if !topology.has_place(&workflow.part_key(index)) {
            return false;
        }
    }
    true
}

/// Whether a step is the next one of a way.
fn is_next(way: Way, step: Step) -> bool
    ensures { result ≡ true → number step ≡ next_step (way_from way) }
{
    u16::from(step.number()) == way.next_step()
}

/// Whether a primary keeps what a stream, if it is there, has still to read.
fn keeps_to_read(stream: Option<&Stream>, read: &Primary) -> bool
    ensures { result ≡ true → (s : StreamValue) → option_copied stream.entry ≡ Some s → read.now.log.purged ≤ s.position }
{
    match stream {
        Some(stream) => read.first_kept() <= stream.position(),
        None => true,
    }
}

/// Whether the primary that the feeding stream of each shard reads keeps what that has still to read.
fn keeps_to_feed(workflow: &Workflow, way: Way, source: &Primary, targets: &[Primary]) -> bool
    requires { length targets.now ≡ length workflow.now.lanes }
    ensures { result ≡ true → KeepsToFeed workflow.now (way_from way) source.now targets.now }
{
    for shard in 0..workflow.shards() {
        if !keeps_at(workflow, way, source, targets, shard) {
            return false;
        }
    }
    true
}

/// Whether that of one shard does.
fn keeps_at(workflow: &Workflow, way: Way, source: &Primary, targets: &[Primary], shard: u8) -> bool
    requires { shard < length targets.now }
    ensures { result ≡ true → (s : StreamValue) → slot_of workflow.now shard (feeding_name (way_from way)) ≡ Some s → (read_for (way_from way) source.now targets.now shard).log.purged ≤ s.position }
{
    if way.back {
        return keeps_to_read(
            workflow.slot(shard, Slot::Back),
            &targets[usize::from(shard)],
        );
    }
    keeps_to_read(workflow.slot(shard, Slot::Forward), source)
}

/// Whether the step of a way that was done last is before the journal.
fn is_before_journal(way: Way) -> bool
    ensures { result ≡ true → last_step (way_from way) < write_journal }
{
    way.step_at_place(way.next_place().saturating_sub(1)) < u16::from(Way::JOURNAL)
}

/// Whether there are as many primaries as a workflow has shards, and a way counts as many.
fn fits(workflow: &Workflow, way: Way, targets: &[Primary]) -> bool
    ensures targets { result ≡ true → length targets.now ≡ length workflow.now.lanes }
    ensures shards { result ≡ true → way.shards ≡ length workflow.now.lanes }
{
    targets.len() == usize::from(workflow.shards()) && way.shards == workflow.shards()
}

/// A workflow of some tables from `a` to a keyspace, over the topology of a scene.
fn workflow_of(
    alloc: Global,
    scene: &Scene,
    name: &str,
    target: &str,
    listed: &str,
) -> Option<Workflow> {
    let source = KeyspaceName::parse("a").ok()?;
    let target = KeyspaceName::parse(target).ok()?;
    if source == target {
        return None;
    }
    let name = WorkflowName::parse(name).ok()?;
    let tables = table_list(listed).ok()?;
    let at = scene.source.position();
    Workflow::new(alloc, &name, &source, &target, &tables, &scene.topology, at).ok()
}

/// Primaries for the shards of a workflow's target, each of which has its tables and refuses them.
fn targets_of(alloc: Global, workflow: &Workflow) -> Option<Vec<Primary>> {
    workflow.facts();
    let notice = denials(alloc, workflow.target(), workflow.tables()).ok()?;
    let mut targets = Vec::new(alloc);
    for _shard in 0..workflow.shards() {
        let mut primary = Primary::new(alloc);
        if make_tables(&mut primary, workflow.tables()).is_err() {
            drop(primary);
            drop(targets);
            return None;
        }
        primary.take_denied(workflow.target(), &notice, workflow.tables());
        if targets.push(primary).is_err() {
            drop(targets);
            return None;
        }
    }
    Some(targets)
}

impl Moved {
    /// A workflow of some tables from `a` to a keyspace, with primaries for that one's shards; its forward streams are level.
    pub fn new(
        alloc: Global,
        scene: &Scene,
        name: &str,
        target: &str,
        listed: &str,
    ) -> Option<Self> {
        let workflow = workflow_of(alloc, scene, name, target, listed)?;
        let Some(targets) = targets_of(alloc, &workflow) else {
            drop(workflow);
            return None;
        };
        let Ok(log) = UndoLog::reserve(alloc, &workflow) else {
            drop(workflow);
            drop(targets);
            return None;
        };
        a_record_stays_that_of_its_workflow();
        let mut moved = Moved {
            workflow,
            targets,
            log,
            number: 0,
        };
        moved.level(Slot::Forward, &scene.source);
        Some(moved)
    }

    /// The workflow.
    pub fn workflow(&self) -> &Workflow {
        &self.workflow
    }

    /// The primaries of its target's shards.
    pub fn targets(&self) -> &[Primary] {
        self.targets.as_slice()
    }

    /// That of the last shard.
    pub fn last_target(&mut self) -> Option<&mut Primary> {
        self.targets.last_mut()
    }

    /// Where the log ends that a stream of a shard reads.
    pub fn read_end(&self, slot: Slot, shard: u8, source: &Primary) -> Position {
        match slot {
            Slot::Forward => source.position(),
            Slot::Back => self
                .targets
                .get(usize::from(shard))
                .map_or(0, |target| target.position()),
        }
    }

    /// Puts streams that run and are level into the slots of all shards.
    pub fn level(&mut self, slot: Slot, source: &Primary) {
        for shard in 0..self.workflow.shards() {
            self.put_level(slot, shard, source);
        }
    }

    /// Puts one into the slot of a shard, if the shard is there.
    fn put_level(&mut self, slot: Slot, shard: u8, source: &Primary) {
        self.workflow.facts();
        if shard >= self.workflow.shards() {
            return;
        }
        let at = self.read_end(slot, shard, source);
        let range = self.workflow.range(shard).copied();
        let stream = Stream::new_running(self.workflow.table_list(), range, at);
        a_record_stays_that_of_its_workflow();
        self.workflow.put_slot(shard, slot, Some(stream));
    }

    /// Opens a way with a number and a record of its own.
    pub fn begin(&mut self, alloc: Global, number: u64, way: Way) -> Result<(), StepFault> {
        self.log = UndoLog::reserve(alloc, &self.workflow)?;
        self.workflow.set_way(Some(way));
        self.number = number;
        a_record_stays_that_of_its_workflow();
        Ok(())
    }

    /// How a step is answered; nothing if it isn't the next one, or isn't to be asked.
    pub fn does<W: Asks>(
        &mut self,
        alloc: Global,
        scene: &mut Scene,
        watchers: &W,
        step: Step,
    ) -> Option<Result<(), StepFault>> {
        let way = self.workflow.way()?;
        let is_new = scene.journal.find(self.number).is_none();
        if !is_next(way, step) || !is_new && step == Step::Journal {
            return None;
        }
        if !has_places(&scene.topology, &self.workflow) {
            return None;
        }
        if !fits(&self.workflow, way, &self.targets)
            || !keeps_to_feed(&self.workflow, way, &scene.source, &self.targets)
        {
            return None;
        }
        let mut sides = Sides {
            topology: &mut scene.topology,
            source: &mut scene.source,
            targets: &mut self.targets,
            workflow: &mut self.workflow,
            journal: &mut scene.journal,
            watchers,
            number: self.number,
        };
        Some(do_step(alloc, &mut sides, &mut self.log, step))
    }

    /// Whether the last step is taken back; it isn't if none stands done, or the journal's does.
    pub fn undoes<W: Asks>(&mut self, scene: &mut Scene, watchers: &W) -> bool {
        let Some(way) = self.workflow.way() else {
            return false;
        };
        if way.done == 0
            || !is_before_journal(way)
            || !has_places(&scene.topology, &self.workflow)
            || !fits(&self.workflow, way, &self.targets)
        {
            return false;
        }
        let mut sides = Sides {
            topology: &mut scene.topology,
            source: &mut scene.source,
            targets: &mut self.targets,
            workflow: &mut self.workflow,
            journal: &mut scene.journal,
            watchers,
            number: self.number,
        };
        undo_last(&mut sides, &mut self.log);
        true
    }
}

impl Scene {
    /// The tables `t` and `u` stand at `a`, and there are places for the parts of their moves to two keyspaces.
    pub fn new(alloc: Global, targets: [&str; 2]) -> Option<Self> {
        let source = KeyspaceName::parse("a").ok()?;
        let tables = table_list("t,u").ok()?;
        let topology = topology_with(alloc, &source, targets, &tables)?;
        let mut scene = Scene {
            topology,
            source: Primary::new(alloc),
            journal: Journal::new(alloc),
        };
        if make_tables(&mut scene.source, &tables).is_err() {
            drop(scene);
            return None;
        }
        Some(scene)
    }

    /// Writes the part of a workflow as Create does.
    pub fn create(&mut self, moved: &Moved) {
        let workflow = moved.workflow();
        for index in 0..workflow.part_len() {
            let key = workflow.part_key(index);
            write_there(&mut self.topology, workflow.wanted(&key, TypeSet::NONE));
        }
    }
}

/// Writes an entry whose key has a place.
fn write_there(topology: &mut Topology, entry: Entry) {
    if topology.has_place(&entry.key()) {
        topology.write(entry);
    }
}

/// Makes tables that aren't there.
fn make_tables(primary: &mut Primary, tables: &[TableName]) -> Result<(), PrimaryFault> {
    for table in tables {
        if !primary.has_table(table) {
            primary.create_table(table)?;
        }
    }
    Ok(())
}

/// The topology of the dump, with places for the parts of moves of these tables.
fn topology_with(
    alloc: Global,
    source: &KeyspaceName,
    targets: [&str; 2],
    tables: &[TableName],
) -> Option<Topology> {
    let mut topology = Topology::load(alloc, DUMP.as_bytes()).ok()?;
    for target in targets {
        if reserve(&mut topology, source, target, tables).is_none() {
            drop(topology);
            return None;
        }
    }
    Some(topology)
}

/// Makes places for the parts of moves of these tables to a keyspace.
fn reserve(
    topology: &mut Topology,
    source: &KeyspaceName,
    target: &str,
    tables: &[TableName],
) -> Option<()> {
    let target = KeyspaceName::parse(target).ok()?;
    topology.reserve_part(source, &target, tables).ok()
}

/// That tables are denied at a keyspace.
fn denials(
    alloc: Global,
    keyspace: &KeyspaceName,
    tables: &[TableName],
) -> Result<Notice, WatchersFault> {
    let mut notice = Notice::new(alloc);
    for table in tables {
        notice.push(Entry::Denied(keyspace.copied(), table.copied(), true))?;
    }
    Ok(notice)
}
