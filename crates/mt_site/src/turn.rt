//! The turns of a drive: what it asks for, and what follows from the answer.
ghost use Rattle.std.specs.Option.{option_map_or};
ghost use Rattle.std.specs.Prelude.{◌≡◌, List, ℕ, if◌then◌else◌, nat_lt, option_map, suc};
ghost use Rattle.mt_event.specs.Drives.{driven_from};
ghost use Rattle.mt_event.specs.Reasons.{reason_from};
ghost use Rattle.mt_model.specs.declared.entries.Scope.{Scope};
ghost use Rattle.mt_plain.specs.Drive as plain;
ghost use Rattle.mt_plain.specs.Plain.{Plain};
ghost use Rattle.mt_stands.specs.Ways.{CoreStands};
ghost use Rattle.mt_workflow.specs.Workflows.{slot_of, stream_name, way_from};
ghost use Rattle.mt_site.specs.Drives.{Turns, end_from, heard_from, turn_from};
ghost use Rattle.mt_site.specs.Stood.{StaysCore};

use crate::Core;
use mt_event::{Driven, Reason, Refusal, Verb};
use mt_names::{Position, WorkflowName};
use mt_watch::Asks;
use mt_workflow::{Slot, Way, Workflow};

/// How often a step is tried at most.
pub(crate) const MOST_TRIES: u8 = 64;

/// How many entries are read before a step is tried again.
const MOST_AT_ONCE: u16 = 100;

/// What a drive that is begun asks for next.
#[derive(Drop)]
pub(crate) enum Turn {
    /// The next step, which may be tried so many times more.
    Steps(u8),
    /// An advance of the feeding stream of a shard, and then of those behind it, before the step may be tried so many times more.
    Feeds(u8, u8),
    /// An undo, after this refusal, which it will tell.
    GivesUp(Reason),
}

/// How a drive that is begun ends: see `Driven`, which has room for a refusal with a name, as no event of a drive is refused.
#[derive(Drop)]
pub(crate) enum End {
    /// All its steps are done, and the way is closed.
    Done,
    /// This refusal came before the journal: all is undone, and the way is closed.
    Abandoned(Reason),
    /// This refusal came behind the journal, with so many steps done: the way stays open.
    Stopped(Reason, u64),
}

/// What follows from an answer.
#[derive(Drop)]
pub(crate) enum Heard {
    /// The drive goes on.
    GoesOn(Turn),
    /// It ends.
    Ends(End),
}

impl End {
    /// How the drive ends, as `drive` answers it.
    pub(crate) fn driven(self) -> Driven
        ensures { driven_from result ≡ end_from self }
    {
        match self {
            End::Done => Driven::Done,
            End::Abandoned(reason) => Driven::Abandoned(Refusal::from(reason)),
            End::Stopped(reason, steps) => Driven::Stopped(Refusal::from(reason), steps),
        }
    }
}

/// The way that is open on a workflow.
fn way_of(core: &Core, workflow: &WorkflowName) -> Option<Way>
    ensures { (p : Plain) (scopes : List Scope) → CoreStands p scopes core.now → option_map way_from result ≡ plain.way_of p workflow.now }
{
    core.workflow(workflow)?.way()
}

/// How many of its steps stand done.
fn steps_done(way: Option<Way>) -> u64
    ensures { (p : Plain) (workflow : List ℕ) → option_map way_from way ≡ plain.way_of p workflow → result ≡ plain.steps_done p workflow }
{
    match way {
        None => 0,
        Some(way) => u64::from(way.done),
    }
}

/// Which of the streams of each shard feeds on a way.
fn feeding(way: Option<Way>) -> Slot
    ensures { (p : Plain) (workflow : List ℕ) → option_map way_from way ≡ plain.way_of p workflow → stream_name result ≡ plain.feeding_stream p workflow }
{
    match way {
        Some(way) if way.back => Slot::Back,
        _ => Slot::Forward,
    }
}

/// The position of a stream of a shard of a workflow's target, if there is one.
fn position_in(workflow: &Workflow, stream: Slot, shard: u8) -> Position
    ensures { result ≡ option_map_or (λ stream. stream.position) (slot_of workflow.now shard (stream_name stream)) 0 }
{
    match workflow.slot(shard, stream) {
        None => 0,
        Some(found) => found.position(),
    }
}

/// So of a live workflow.
fn position_of(core: &Core, workflow: &WorkflowName, stream: Slot, shard: u8) -> Position
    ensures { (p : Plain) (scopes : List Scope) → CoreStands p scopes core.now → result ≡ plain.position_of p workflow.now (stream_name stream) shard }
{
    match core.workflow(workflow) {
        None => 0,
        Some(found) => position_in(found, stream, shard),
    }
}

/// What follows once a way may have closed: that ends the drive, and else it goes on.
fn unless_closed(way: Option<Way>, end: End, turn: Turn) -> Heard
    ensures { (workflow : List ℕ) → heard_from workflow result
        ≡ plain.unless_closed (option_map way_from way) (end_from end) (turn_from workflow turn) }
{
    match way {
        None => Heard::Ends(end),
        Some(_) => Heard::GoesOn(turn),
    }
}

/// What follows from a refusal: before the journal all is undone, and behind it the drive stops.
fn fail(way: Option<Way>, refusal: Reason) -> Heard
    ensures { (p : Plain) (workflow : List ℕ) → option_map way_from way ≡ plain.way_of p workflow
        → heard_from workflow result ≡ plain.fails p workflow (reason_from refusal) }
{
    match way {
        Some(found) if found.is_past_journal() => Heard::Ends(End::Stopped(
            refusal,
            steps_done(way),
        )),
        _ => Heard::GoesOn(Turn::GivesUp(refusal)),
    }
}

/// What follows from the refusal of a step: it is tried again behind an advance, where the stream isn't level and tries are left.
fn refused_step(way: Option<Way>, tries: u8, refusal: Reason) -> Heard
    ensures { (p : Plain) (workflow : List ℕ) → option_map way_from way ≡ plain.way_of p workflow
        → heard_from workflow result ≡ plain.refused_step p workflow tries (reason_from refusal) }
{
    match refusal {
        Reason::NotLevel if tries > 1 => Heard::GoesOn(Turn::Feeds(0, tries - 1)),
        refusal => fail(way, refusal),
    }
}

/// Tries the next step.
fn step<W: Asks>(core: &mut Core, watchers: &W, workflow: &WorkflowName, tries: u8) -> Heard
    ensures turns { Turns (W.scopes watchers.now) core.old (plain.steps workflow.now tries) (heard_from workflow.now result) core.new }
    ensures stays { StaysCore (W.scopes watchers.now) core.old core.new }
{
    let at = steps_done(way_of(core, workflow));
    let answer = core.apply_on(watchers, workflow, Verb::Step(at));
    let way = way_of(core, workflow);
    match answer {
        Ok(_) => unless_closed(way, End::Done, Turn::Steps(MOST_TRIES)),
        Err(refusal) => refused_step(way, tries, refusal),
    }
}

/// How many shards the target of a workflow has.
fn shards_of(core: &Core, workflow: &WorkflowName) -> u8
    ensures { (p : Plain) (scopes : List Scope) → CoreStands p scopes core.now → result ≡ plain.lanes_of p workflow.now }
{
    match core.workflow(workflow) {
        None => 0,
        Some(found) => found.shards(),
    }
}

/// What follows once the feeding stream of a shard was advanced: that of the next one is, and behind the last one the step is tried again.
fn fed(shards: u8, shard: u8, tries: u8) -> Turn
    ensures { (workflow : List ℕ) → turn_from workflow result
        ≡ (if nat_lt (suc shard) shards then plain.feeds workflow (suc shard) tries else plain.steps workflow tries) }
{
    if shard < shards && shard + 1 < shards {
        Turn::Feeds(shard + 1, tries)
    } else {
        Turn::Steps(tries)
    }
}

/// Advances the feeding stream of a shard, before the step is tried again.
fn feed<W: Asks>(
    core: &mut Core,
    watchers: &W,
    workflow: &WorkflowName,
    shard: u8,
    tries: u8,
) -> Heard
    ensures turns { Turns (W.scopes watchers.now) core.old (plain.feeds workflow.now shard tries) (heard_from workflow.now result) core.new }
    ensures stays { StaysCore (W.scopes watchers.now) core.old core.new }
{
    let stream = feeding(way_of(core, workflow));
    let at = position_of(core, workflow, stream, shard);
    let advance = Verb::Advance {
        stream,
        shard,
        at,
        max: MOST_AT_ONCE,
    };
    match core.apply_on(watchers, workflow, advance) {
        Ok(_) => Heard::GoesOn(fed(shards_of(core, workflow), shard, tries)),
        Err(refusal) => fail(way_of(core, workflow), refusal),
    }
}

/// Undoes the last step that stands done, after a refusal.
fn give_up<W: Asks>(
    core: &mut Core,
    watchers: &W,
    workflow: &WorkflowName,
    refusal: Reason,
) -> Heard
    ensures turns { Turns (W.scopes watchers.now) core.old (plain.gives_up workflow.now (reason_from refusal)) (heard_from workflow.now result) core.new }
    ensures stays { StaysCore (W.scopes watchers.now) core.old core.new }
{
    let at = steps_done(way_of(core, workflow));
    let _ = core.apply_on(watchers, workflow, Verb::Undo(at));
    unless_closed(
        way_of(core, workflow),
        End::Abandoned(refusal),
        Turn::GivesUp(refusal),
    )
}

/// Takes one turn: asks for the event that is due, and says what follows from its answer.
pub(crate) fn take<W: Asks>(
    core: &mut Core,
    watchers: &W,
    workflow: &WorkflowName,
    turn: Turn,
) -> Heard
    ensures turns { Turns (W.scopes watchers.now) core.old (turn_from workflow.now turn) (heard_from workflow.now result) core.new }
    ensures stays { StaysCore (W.scopes watchers.now) core.old core.new }
{
    match turn {
        Turn::Steps(tries) => step(core, watchers, workflow, tries),
        Turn::Feeds(shard, tries) => feed(core, watchers, workflow, shard, tries),
        Turn::GivesUp(refusal) => give_up(core, watchers, workflow, refusal),
    }
}
