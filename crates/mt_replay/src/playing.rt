//! How a play goes, one line after the other.

use crate::asked::{Asked, asked_by, times};
use crate::plays::Step;
use crate::told::{Kind, Told};
use crate::twin::stands_as;
use crate::venue::Venue;
use crate::watches::Watch;
use mt_event::Event;
use mt_names::{KeyRange, Position, WorkflowName};
use mt_script::AdvanceWords;
use mt_stream::Advanced;
use std::alloc::Global;
use std::sync::Wait;

/// What memory there is.
#[derive(Clone, Copy, Debug, Eq, PartialEq)]
pub enum Memory {
    /// As much as is needed.
    Ample,
    /// One allocation may fail: what is refused for that has changed nothing, and is asked again.
    OneFails,
    /// All may fail from one on: no line behind `without memory` may be refused for that.
    AllFail,
}

/// A play.
#[derive(Drop)]
pub struct Play<'a> {
    /// Its steps.
    pub steps: Vec<Step<'a>>,
    /// What says how things stand.
    pub looks: Vec<Step<'a>>,
    /// Who watches.
    pub watches: Vec<Watch>,
    /// What memory there is.
    pub memory: Memory,
}

/// A step of a play whose turn it is.
#[derive(Clone, Copy)]
pub struct Turn<'p, 'a> {
    /// The allocator.
    pub alloc: Global,
    /// The play.
    pub play: &'p Play<'a>,
    /// The step's place among its steps.
    pub index: usize,
    /// The step.
    pub step: Step<'a>,
}

/// What of a step differs from what it must be.
#[derive(Clone, Copy, Debug, Eq, PartialEq)]
pub enum Differs {
    /// Its answer.
    Answer,
    /// What stands behind it, where it was refused out of memory, or cut short.
    State,
    /// Its answer at a second try, behind one that was refused out of memory.
    SecondTry,
    /// The rest of an advance that was cut short.
    Rest,
}

impl Differs {
    /// What is said of it.
    pub fn text(self) -> &'static str {
        match self {
            Differs::Answer => "the answer",
            Differs::State => "what stands behind it, out of memory,",
            Differs::SecondTry => "the answer at a second try",
            Differs::Rest => "the rest of it",
        }
    }
}

/// A step that went otherwise.
#[derive(Drop)]
pub struct Wrong<'a> {
    /// The step.
    pub step: Step<'a>,
    /// What was told.
    pub told: Told,
    /// What of it differs.
    pub differs: Differs,
}

/// How a play goes on.
#[derive(Drop)]
enum Next<'a> {
    /// With the next step.
    On,
    /// No further: there was no memory.
    Over,
    /// Not as it must.
    Stop(Wrong<'a>),
}

/// Whether a line may be refused so out of memory.
fn wants_memory(told: &Told, asked: &Asked<'_>, want: &str) -> bool {
    match told.kind {
        Kind::Owed => want != "ok",
        Kind::Memory => !matches!(
            asked,
            Asked::Event(
                Event::Undo { .. }
                    | Event::Cancel { .. }
                    | Event::Complete { .. }
                    | Event::Read { .. }
                    | Event::Show { .. }
            )
        ) || told.text() == b"out of memory".as_slice(),
        Kind::Watcher => matches!(
            asked,
            Asked::Event(Event::Create { .. } | Event::Step { .. })
        ),
        Kind::Plain | Kind::Unasked => false,
    }
}

/// What an advance is to do, if a line says so.
fn advanced_of(want: &str) -> Option<(u16, u16)> {
    let (events, rows) = want.strip_prefix("events ")?.split_once(" rows ")?;
    Some((events.parse::<u16>().ok()?, rows.parse::<u16>().ok()?))
}

/// What is left of an advance that was cut short, and what it is to do; none if it did no less than it must.
fn left_of(words: &AdvanceWords<'_>, did: Advanced, want: &str) -> Option<(u64, u16, (u16, u16))> {
    let (events, rows) = advanced_of(want)?;
    let more = (events.checked_sub(did.events)?, rows.checked_sub(did.rows)?);
    let at = words.at.checked_add(u64::from(did.events))?;
    let max = words.max.checked_sub(did.events)?.checked_sub(did.rows)?;
    Some((at, max, more))
}

/// An advance as another, from a position and by as much.
fn asked_from<'a>(
    workflow: &WorkflowName,
    range: &KeyRange,
    words: &AdvanceWords<'a>,
    at: Position,
    max: u16,
) -> Asked<'a> {
    let words = AdvanceWords {
        stream: words.stream,
        range: words.range,
        at,
        max,
    };
    Asked::Advance(workflow.copied(), range.copied(), words)
}

/// What goes otherwise with an advance that was cut short: it did as one that asked for no more, and one from its
/// new position does the rest.
fn cut_short<'a, V: Venue, R: Wait>(
    rt: &R,
    venue: &mut V,
    turn: Turn<'_, 'a>,
    told: Told,
    did: Advanced,
) -> Next<'a> {
    let step = turn.step;
    let asked = asked_by(step.line);
    let Asked::Advance(workflow, range, words) = &asked else {
        return stopped(step, told, Differs::Answer);
    };
    let Some((at, max, more)) = left_of(words, did, step.want) else {
        return stopped(step, told, Differs::Answer);
    };
    let taken = did.events.saturating_add(did.rows);
    let less = asked_from(workflow, range, words, words.at, taken);
    if !stands_as(rt, venue, turn, Some((&less, &told))) {
        return stopped(step, told, Differs::State);
    }
    let rest = venue.tell(rt, &asked_from(workflow, range, words, at, max));
    match rest.advanced {
        Some(Advanced { events, rows }) if (events, rows) == more => Next::On,
        _ => stopped(step, rest, Differs::Rest),
    }
}

/// A step that went otherwise, so that the play goes no further.
fn stopped<'a>(step: Step<'a>, told: Told, differs: Differs) -> Next<'a> {
    Next::Stop(Wrong {
        step,
        told,
        differs,
    })
}

/// What goes otherwise with a line that was refused out of memory: all stands as before it, and at a second try it
/// is answered as it must be.
fn again<'a, V: Venue, R: Wait>(
    rt: &R,
    venue: &mut V,
    turn: Turn<'_, 'a>,
    asked: &Asked<'_>,
    told: Told,
) -> Next<'a> {
    if !stands_as(rt, venue, turn, None) {
        return stopped(turn.step, told, Differs::State);
    }
    let second = venue.tell(rt, asked);
    if second.is(turn.step.want) {
        return Next::On;
    }
    stopped(turn.step, second, Differs::SecondTry)
}

/// How a step that wasn't answered as it must be goes on.
fn otherwise<'a, V: Venue, R: Wait>(
    rt: &R,
    venue: &mut V,
    turn: Turn<'_, 'a>,
    asked: &Asked<'_>,
    told: Told,
    is_last: bool,
) -> Next<'a> {
    match (turn.play.memory, told.advanced) {
        (Memory::OneFails, Some(did)) => cut_short(rt, venue, turn, told, did),
        (Memory::OneFails, None) if wants_memory(&told, asked, turn.step.want) => {
            again(rt, venue, turn, asked, told)
        }
        (Memory::AllFail, _) if !is_last => Next::Over,
        _ => stopped(turn.step, told, Differs::Answer),
    }
}

/// How a step goes on.
fn step_on<'a, V: Venue, R: Wait>(
    rt: &R,
    venue: &mut V,
    turn: Turn<'_, 'a>,
    is_last: bool,
) -> Next<'a> {
    let (count, line) = times(turn.step.line);
    let asked = asked_by(line);
    for _ in 0..count {
        let told = venue.tell(rt, &asked);
        if told.kind != Kind::Unasked && !told.is(turn.step.want) {
            match otherwise(rt, venue, turn, &asked, told, is_last) {
                Next::On => {}
                other => return other,
            }
        }
    }
    Next::On
}

/// What goes otherwise first, if anything does.
pub fn first_wrong<'a, V: Venue, R: Wait>(
    rt: &R,
    alloc: Global,
    venue: &mut V,
    play: &Play<'a>,
) -> Option<Wrong<'a>> {
    let mut is_last = false;
    for (index, step) in play.steps.iter().enumerate() {
        is_last = is_last || step.line == "without memory";
        let turn = Turn {
            alloc,
            play,
            index,
            step: *step,
        };
        match step_on(rt, venue, turn, is_last) {
            Next::On => {}
            Next::Over => return None,
            Next::Stop(wrong) => return Some(wrong),
        }
    }
    None
}
