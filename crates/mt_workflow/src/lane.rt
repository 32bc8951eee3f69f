//! What goes on for one shard of a workflow's target.
ghost use Rattle.std.specs.Prelude.{◌≡◌, ◌≢◌, ℕ, ◌≤◌, true, List, Some, AllPairs, IfOk, IfErr, length, map, option_copied, option_map};
ghost use Rattle.mt_names.specs.Tables.{most_tables};
ghost use Rattle.mt_plain.specs.Events.{running};
ghost use Rattle.mt_plain.specs.Plain.{among};
ghost use Rattle.mt_primary.specs.Primary.{end_of, has_table};
ghost use Rattle.mt_stream.specs.Streams.{StreamValue, state_from};
ghost use Rattle.mt_workflow.specs.Advance.{AdvancesSlot};
ghost use Rattle.mt_workflow.specs.Workflows.{in_state, lane_in_state, lane_slot, new_lane, stream_name, with_lane_slot};

use crate::building::table_list;
use crate::fault::WorkflowFault;
use crate::way::Slot;
use mt_names::{KeyRange, Position, TableName};
use mt_primary::Primary;
use mt_stream::{Advanced, Stream, StreamFault, StreamState};
use std::alloc::Global;
use std::marker::Model;
use std::mem;

/// The streams of one shard of a workflow's target, with the range of its keys.
#[derive(Drop)]
pub(crate) struct Lane {
    range: KeyRange,
    /// From the source to the shard.
    forward: Option<Stream>,
    /// From the shard to the source.
    back: Option<Stream>,
}

impl Model for Lane {
    ghost use Rattle.mt_workflow.specs.Workflows.{LaneState};

    ghost Value = { LaneState };

    ghost view = { λ lane. record { range = lane.range; forward = lane.forward; back = lane.back } };
}

impl Lane {
    /// That of a new workflow of some tables: it has a forward stream, which reads the source's log from a position on, and no back
    /// stream. It takes no memory.
    fn new(tables: &[TableName], range: &KeyRange, position: Position) -> Self
        requires few { length tables.now ≤ most_tables }
        requires distinct { AllPairs ◌≢◌ tables.now }
        ensures { result ≡ new_lane tables.now position range.now }
    {
        Lane {
            range: range.copied(),
            forward: Some(Stream::new_copy(table_list(tables), range.copied(), position)),
            back: None,
        }
    }

    /// The range of its shard.
    pub fn range(&self) -> &KeyRange
        ensures { result.now ≡ self.now.range }
    {
        &self.range
    }

    /// Its forward stream or its back stream, if it has that.
    pub fn slot(&self, slot: Slot) -> Option<&Stream>
        ensures { option_copied result ≡ lane_slot (stream_name slot) self.now }
    {
        match slot {
            Slot::Forward => self.forward.as_ref(),
            Slot::Back => self.back.as_ref(),
        }
    }

    /// Puts a stream there, or none, and answers what stood there.
    pub fn put_slot(&mut self, slot: Slot, stream: Option<Stream>) -> Option<Stream>
        ensures before { result ≡ lane_slot (stream_name slot) self.old }
        ensures after { self.new ≡ with_lane_slot (stream_name slot) stream self.old }
    {
        match slot {
            Slot::Forward => mem::replace(&mut self.forward, stream),
            Slot::Back => mem::replace(&mut self.back, stream),
        }
    }

    /// Advances its forward stream or its back stream, as `Stream::advance` says; none, if it hasn't that.
    pub fn advance(
        &mut self,
        slot: Slot,
        source: &Primary,
        sink: &mut Primary,
        at: Position,
        max: u16,
    ) -> Option<Result<Advanced, StreamFault>>
        requires kept { (s : StreamValue) → lane_slot (stream_name slot) self.old ≡ Some s → s.state ≡ running → source.now.log.purged ≤ s.position }
        requires within { (s : StreamValue) → lane_slot (stream_name slot) self.old ≡ Some s → s.position ≤ end_of source.now }
        requires there { (s : StreamValue) → lane_slot (stream_name slot) self.old ≡ Some s → (table : List ℕ) → among s.tables table ≡ true → has_table sink.old table ≡ true }
        ensures advances { AdvancesSlot (lane_slot (stream_name slot) self.old) source.now sink.old at max result (lane_slot (stream_name slot) self.new) sink.new }
        ensures rest { self.new ≡ with_lane_slot (stream_name slot) (lane_slot (stream_name slot) self.new) self.old }
    {
        match slot {
            Slot::Forward => advance_in(&mut self.forward, source, sink, at, max),
            Slot::Back => advance_in(&mut self.back, source, sink, at, max),
        }
    }

    /// Lets its forward stream or its back stream run, stop or freeze, if it has that.
    pub fn set_state(&mut self, slot: Slot, state: StreamState)
        ensures { self.new ≡ lane_in_state (stream_name slot) (state_from state) self.old }
    {
        match slot {
            Slot::Forward => set_state_in(&mut self.forward, state),
            Slot::Back => set_state_in(&mut self.back, state),
        }
    }
}

/// The lanes of a new workflow of some tables, one for each shard of its target, with room for no others. `W0 Memory`.
pub(crate) fn first_lanes(
    alloc: Global,
    tables: &[TableName],
    shards: &[KeyRange],
    position: Position,
) -> Result<Vec<Lane>, WorkflowFault>
    requires few { length tables.now ≤ most_tables }
    requires distinct { AllPairs ◌≢◌ tables.now }
    ensures value { IfOk result (λ lanes. lanes.items ≡ map (new_lane tables.now position) shards.now) }
    ensures memory { IfErr result (λ fault. fault ≡ WorkflowFault.Memory) }
{
    let Ok(mut lanes) = Vec::with_capacity(alloc, shards.len()) else {
        return Err(WorkflowFault::Memory);
    };
    for range in shards {
        if lanes.push(Lane::new(tables, range, position)).is_err() {
            return Err(WorkflowFault::Memory);
        }
    }
    Ok(lanes)
}

/// Advances the stream that stands there, if one does.
fn advance_in(
    stream: &mut Option<Stream>,
    source: &Primary,
    sink: &mut Primary,
    at: Position,
    max: u16,
) -> Option<Result<Advanced, StreamFault>>
    requires kept { (s : StreamValue) → stream.old ≡ Some s → s.state ≡ running → source.now.log.purged ≤ s.position }
    requires within { (s : StreamValue) → stream.old ≡ Some s → s.position ≤ end_of source.now }
    requires there { (s : StreamValue) → stream.old ≡ Some s → (table : List ℕ) → among s.tables table ≡ true → has_table sink.old table ≡ true }
    ensures { AdvancesSlot stream.old source.now sink.old at max result stream.new sink.new }
{
    match stream {
        None => None,
        Some(stream) => Some(stream.advance(source, sink, at, max)),
    }
}

/// Lets the stream that stands there run, stop or freeze, if one does.
fn set_state_in(stream: &mut Option<Stream>, state: StreamState)
    ensures { stream.new ≡ option_map (in_state (state_from state)) stream.old }
{
    let Some(stream) = stream else {
        return;
    };
    match state {
        StreamState::Running => stream.start(),
        StreamState::Stopped => stream.stop(),
        StreamState::Frozen => stream.freeze(),
    }
}
