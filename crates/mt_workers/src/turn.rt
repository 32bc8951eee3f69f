//! The turns of a controller: what it asks for, and what follows from the answer.
ghost use Rattle.std.specs.Prelude.{◌≡◌, ◌+◌, ◌<◌, ◌≤◌};
ghost use Rattle.mt_names.specs.Shards.{most_shards};
ghost use Rattle.mt_workers.specs.Controls.{advance_refused, again, due, fails, fed, heard, heard_advance, most_places, shard_of, step_refused, stepped, undo_refused, undone};

use crate::course::{Course, places_told};
use crate::stream::next_position;
use mt_desk::Answer;
use mt_event::{Driven, Event, Reason, Refusal, Reply};
use mt_names::WorkflowName;
use mt_workflow::Slot;

/// How many entries are read before a step is tried again.
const MOST_AT_ONCE: u16 = 100;

/// What a controller on its course asks for next.
#[derive(Drop)]
pub(crate) enum Turn {
    /// The next step.
    Steps,
    /// An advance of the feeding stream of a shard, and then of those behind it, before the step is tried again.
    Feeds(u8),
    /// An undo, after this refusal, which it will tell.
    GivesUp(Refusal),
}

/// What follows from an answer.
#[derive(Drop)]
pub(crate) enum Heard {
    /// The controller goes on.
    GoesOn(Turn, Course),
    /// It ends.
    Ends(Result<Driven, Refusal>),
}

/// The event that is due.
pub(crate) fn due(workflow: &WorkflowName, turn: &Turn, course: Course) -> Event
    requires { shard_of turn.now < most_shards }
    ensures { result ≡ due workflow.now turn.now course }
{
    let workflow = workflow.copied();
    let at = u64::from(course.way.done);
    match turn {
        Turn::Steps => Event::Step { workflow, at },
        Turn::Feeds(shard) => Event::Advance {
            workflow,
            stream: if course.way.back {
                Slot::Back
            } else {
                Slot::Forward
            },
            shard: *shard,
            at: course.positions[usize::from(*shard)],
            max: MOST_AT_ONCE,
        },
        Turn::GivesUp(_) => Event::Undo { workflow, at },
    }
}

/// What follows from a refusal: before the journal all is undone, and behind it the controller stops.
fn fails(course: Course, refusal: Refusal) -> Heard
    ensures { result ≡ fails course refusal }
{
    if course.way.is_past_journal() {
        Heard::Ends(Ok(Driven::Stopped(refusal, u64::from(course.way.done))))
    } else {
        Heard::GoesOn(Turn::GivesUp(refusal), course)
    }
}

/// What follows from a refusal after which a try is made, if one is left.
fn again(turn: Turn, course: Course, refusal: Refusal) -> Heard
    ensures { result ≡ again turn course refusal }
{
    if course.tries > 1 {
        Heard::GoesOn(
            turn,
            Course {
                tries: course.tries - 1,
                ..course
            },
        )
    } else {
        fails(course, refusal)
    }
}

/// What follows from a step that is taken: the last one closes the way.
fn stepped(course: Course) -> Heard
    requires { course.way.done ≤ most_places }
    ensures { result ≡ stepped course }
{
    let way = course.way;
    if way.next_step() + 1 < u16::from(way.behind_last()) {
        Heard::GoesOn(Turn::Steps, course.with_done(way.done + 1))
    } else {
        Heard::Ends(Ok(Driven::Done))
    }
}

/// What follows from the refusal of a step.
fn step_refused(course: Course, refusal: Refusal) -> Heard
    ensures { result ≡ step_refused course refusal }
{
    match refusal {
        Refusal::Other(Reason::NotLevel) => again(
            Turn::Feeds(0),
            course,
            Refusal::Other(Reason::NotLevel),
        ),
        Refusal::Other(Reason::Stale(current)) => again(
            Turn::Steps,
            course.with_done(places_told(current)),
            Refusal::Other(Reason::Stale(current)),
        ),
        Refusal::Other(Reason::NoWorkflow) => Heard::Ends(Err(Refusal::Other(Reason::NoWorkflow))),
        Refusal::Other(Reason::NothingUnderWay) => Heard::Ends(Err(Refusal::Other(
            Reason::NothingUnderWay,
        ))),
        refusal => fails(course, refusal),
    }
}

/// What follows from an advance in a shard that is taken: the next shard's stream is fed, and behind the last one the step is tried again.
fn fed(shard: u8, course: Course) -> Heard
    requires { shard < most_shards }
    ensures { result ≡ fed shard course }
{
    if shard + 1 < course.way.shards {
        Heard::GoesOn(Turn::Feeds(shard + 1), course)
    } else {
        Heard::GoesOn(Turn::Steps, course)
    }
}

/// What follows from the refusal of an advance in a shard.
fn advance_refused(shard: u8, course: Course, refusal: Refusal) -> Heard
    requires { shard < most_shards }
    ensures { result ≡ advance_refused shard course refusal }
{
    match refusal {
        Refusal::Other(Reason::Stale(current)) => again(
            Turn::Feeds(shard),
            course.with_position(shard, current),
            Refusal::Other(Reason::Stale(current)),
        ),
        refusal => fails(course, refusal),
    }
}

/// What follows from the answer to an advance in a shard.
fn hear_advance(shard: u8, course: Course, answer: Answer) -> Heard
    requires { shard < most_shards }
    ensures { result ≡ heard_advance shard course answer }
{
    let position = next_position(course.positions[usize::from(shard)], &answer);
    match answer {
        Ok(_) => fed(shard, course.with_position(shard, position)),
        Err(refusal) => advance_refused(shard, course, refusal),
    }
}

/// What follows from an undo that is taken: the one that leaves no step done closes the way.
fn undone(why: Refusal, course: Course) -> Heard
    ensures { result ≡ undone why course }
{
    let done = course.way.done;
    if done > 1 {
        Heard::GoesOn(Turn::GivesUp(why), course.with_done(done - 1))
    } else {
        Heard::Ends(Ok(Driven::Abandoned(why)))
    }
}

/// What follows from the refusal of an undo.
fn undo_refused(why: Refusal, course: Course, refusal: Refusal) -> Heard
    ensures { result ≡ undo_refused why course refusal }
{
    match refusal {
        Refusal::Other(Reason::Stale(current)) if course.tries > 1 => Heard::GoesOn(
            Turn::GivesUp(why),
            Course {
                tries: course.tries - 1,
                ..course.with_done(places_told(current))
            },
        ),
        refusal => Heard::Ends(Err(refusal)),
    }
}

/// What follows from the answer to the event that was due.
pub(crate) fn hear(turn: Turn, course: Course, answer: Answer) -> Heard
    requires shard { shard_of turn < most_shards }
    requires done { course.way.done ≤ most_places }
    ensures { result ≡ heard turn course answer }
{
    match (turn, answer) {
        (Turn::Steps, Ok(Reply::Done)) => stepped(course),
        // (a step is answered by no other reply)
        (Turn::Steps, Ok(_)) => Heard::Ends(Err(Refusal::Other(Reason::NothingUnderWay))),
        (Turn::Steps, Err(refusal)) => step_refused(course, refusal),
        (Turn::Feeds(shard), answer) => hear_advance(shard, course, answer),
        (Turn::GivesUp(why), Ok(_)) => undone(why, course),
        (Turn::GivesUp(why), Err(refusal)) => undo_refused(why, course, refusal),
    }
}
