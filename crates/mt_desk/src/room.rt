//! The places that the history keeps free, so that each move can always be given up.
ghost use Rattle.std.specs.Prelude.{◌≡◌, ◌+◌, ◌<◌, ◌≤◌, [], false, true, IfOk, IsOk};
ghost use Rattle.std.specs.Vec.{vec_capacity, vec_len};
ghost use Rattle.mt_event.specs.Asks.{event_of_ask};
ghost use Rattle.mt_workflow.specs.Workflows.{way_from};
ghost use Rattle.mt_site.specs.Owed.{owed_to};
ghost use Rattle.mt_desk.specs.Room.{can_cancel, can_undo, gives_up};

use crate::Line;
use mt_event::{Ask, Verb};
use mt_site::Core;
use mt_workflow::{Way, Workflow};
use std::alloc::{AllocError, Global};

/// Whether an undo has the right number, before the journal.
fn can_undo(way: Way, at: u64) -> bool
    ensures { result ≡ can_undo at (way_from way) }
{
    !way.is_past_journal() && at == u64::from(way.done)
}

/// Whether nothing of a workflow is switched, and no way is open on it.
fn can_cancel(workflow: &Workflow) -> bool
    ensures { result ≡ can_cancel workflow.now }
{
    let switched = workflow.switched();
    workflow.way().is_none() && !(switched.primary || switched.replica || switched.rdonly)
}

/// Whether what is asked for gives a move up: an undo with the right number before the journal, or a Cancel where nothing is switched and
/// no way is open. It takes no memory.
pub(crate) fn gives_up(core: &Core, ask: Ask<'_>) -> bool
    ensures { result ≡ gives_up core.now (event_of_ask ask.entry) }
{
    match ask {
        Ask::On(workflow, Verb::Undo(at)) => match core.workflow(workflow) {
            Some(found) => match found.way() {
                Some(way) => can_undo(way, at),
                None => false,
            },
            None => false,
        },
        Ask::On(workflow, Verb::Cancel) => match core.workflow(workflow) {
            Some(found) => can_cancel(found),
            None => false,
        },
        _ => false,
    }
}

/// Makes the places that a history needs before an event, and says whether they are there. An event that gives a move up finds its own place, and for
/// it nothing grows; before each other there are then at least two more than are owed.
pub(crate) fn make_room(history: &mut Vec<Line>, core: &Core, ask: Ask<'_>) -> bool
    ensures items { history.new.items ≡ history.old.items }
    ensures len { vec_len history.new ≡ vec_len history.old }
    ensures place { result ≡ true → vec_len history.new < vec_capacity history.new }
    ensures kept { vec_capacity history.old ≤ vec_capacity history.new }
    ensures same { gives_up core.now (event_of_ask ask.entry) ≡ true → vec_capacity history.new ≡ vec_capacity history.old }
    ensures found { gives_up core.now (event_of_ask ask.entry) ≡ true → vec_len history.old < vec_capacity history.old → result ≡ true }
    ensures others { gives_up core.now (event_of_ask ask.entry) ≡ false → result ≡ true
        → vec_len history.old + owed_to core.now.base.workflows + 2 ≤ vec_capacity history.new }
{
    if gives_up(core, ask) {
        return history.len() < history.capacity();
    }
    match core.owed().checked_add(2) {
        Some(places) => history.reserve(places).is_ok(),
        None => false,
    }
}

/// A history without lines, which has a place for each event that is owed. It is refused only when out of memory, and takes none where
/// no workflow is live.
pub(crate) fn new_history(alloc: Global, core: &Core) -> Result<Vec<Line>, AllocError>
    ensures none { IfOk result (λ history. history.items ≡ []) }
    ensures room { IfOk result (λ history. vec_len history + owed_to core.now.base.workflows ≤ vec_capacity history) }
    ensures none_live { core.now.base.workflows ≡ [] → IsOk result }
{
    let mut history = Vec::new(alloc);
    history.reserve(core.owed())?;
    Ok(history)
}
