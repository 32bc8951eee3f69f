//! A move that is given up at a book: an undo and a Cancel, for neither of which memory is taken.
ghost use Rattle.std.specs.Prelude.{◌≡◌, ◌++◌, ◌∷◌, [], true, IfOk, Ok, length};
ghost use Rattle.mt_event.specs.declared.reply.Reply.TheVariants.{Done};
ghost use Rattle.mt_event.specs.Events.{event_of};
ghost use Rattle.mt_site.specs.GivenUp.{CanBeGivenUp};
ghost use Rattle.mt_site.specs.Stood.{IsCoreWith};
ghost use Rattle.mt_desk.specs.Histories.{line};
ghost use Rattle.mt_desk.specs.Room.{is_undo_or_cancel};
ghost use Rattle.mt_desk_tests.specs.GivenUp.{AreGivenUp, AreListed, Leaves};

use mt_desk::{Answer, Book, CompactEvent, DeskFault, DeskName, Opened};
use mt_event::Event;
use mt_names::WorkflowName;
use mt_site::Core;
use mt_watch::Asks;
use std::alloc::Global;
use std::marker::Brand;
use std::sync::Wait;
use std::sync::ledger::Blank;

/// What an undo and a Cancel behind it were answered, and how many lines the history then has.
#[derive(Drop)]
pub struct GivenUp {
    /// The undo's answer.
    pub undone: Result<Answer, DeskFault>,
    /// The Cancel's.
    pub cancelled: Result<Answer, DeskFault>,
    /// The lines.
    pub lines: usize,
}

/// Takes an undo or a Cancel at a book. Where it can give its move up it is done, whatever memory is left.
fn take_back<D: DeskName, W: Asks>(
    alloc: Global,
    book: &mut Book<D>,
    watchers: &W,
    event: &Event,
) -> Result<Answer, DeskFault>
    requires scopes { W.scopes watchers.now ≡ D.scopes }
    requires back { is_undo_or_cancel (event_of event.now) ≡ true }
    ensures given_up { CanBeGivenUp book.old.core (event_of event.now) → result ≡ Ok (Ok Done) }
    ensures leaves { Leaves (W.scopes watchers.now) book.old.core (event_of event.now) result book.new.core }
    ensures line { IfOk result (λ r. book.new.history.items ≡ book.old.history.items ++ line 0 event.now r ∷ []) }
{
    let Ok(kept) = CompactEvent::new(alloc, event.ask()) else {
        return Err(DeskFault::Memory);
    };
    let told = book.take(watchers, 0, event.ask(), kept)?;
    Ok(told.copied())
}

/// Undoes the last step of a workflow's way that stands done, and cancels the workflow. The Cancel is done where it can give the move up as the undo left
/// the core.
fn give_up<D: DeskName, W: Asks>(
    alloc: Global,
    book: &mut Book<D>,
    watchers: &W,
    workflow: &WorkflowName,
    at: u64,
) -> GivenUp
    requires { W.scopes watchers.now ≡ D.scopes }
    ensures given_up { AreGivenUp (W.scopes watchers.now) book.old.core workflow.now at result.undone result.cancelled }
    ensures listed { AreListed book.old.history.items workflow.now at result.undone result.cancelled book.new.history.items }
    ensures lines { result.lines ≡ length book.new.history.items }
{
    let undo = Event::Undo {
        workflow: workflow.copied(),
        at,
    };
    let undone = take_back(alloc, book, watchers, &undo);
    let cancel = Event::Cancel {
        workflow: workflow.copied(),
    };
    let cancelled = take_back(alloc, book, watchers, &cancel);
    GivenUp {
        undone,
        cancelled,
        lines: book.lines().len(),
    }
}

/// Gives a move up at a book that is opened for a core.
fn give_up_anew<D: DeskName, W: Asks, R: Wait>(
    rt: &R,
    alloc: Global,
    blank: Blank,
    opened: Opened,
    core: Core,
    watchers: &W,
    workflow: &WorkflowName,
    at: u64,
) -> Result<GivenUp, DeskFault>
    requires name { (blank.name ≡ D.name) × (blank.parts ≡ D.parts) }
    requires list { (opened.seen.book ≡ D.book) × (opened.blank.name ≡ D.shown) }
    requires opening { core ≡ D.opening }
    requires stood { IsCoreWith D.scopes core }
    requires scopes { W.scopes watchers.now ≡ D.scopes }
    ensures given_up { IfOk result (λ r. AreGivenUp (W.scopes watchers.now) core workflow.now at r.undone r.cancelled) }
    ensures lines { IfOk result (λ r. IfOk r.undone (λ first. IfOk r.cancelled (λ second. r.lines ≡ 2))) }
{
    let mut book: Book<D> = Book::open(alloc, rt, blank, opened, core)?;
    Ok(give_up(alloc, &mut book, watchers, workflow, at))
}

/// Gives a move up at a book that is opened for a core, under a name of its own: an undo and a Cancel, each of which is done where it can give the move
/// up as the core then stands, whatever memory is left. Where both were taken the history has two lines. It is refused where there is no memory to
/// open the book.
pub fn given_up_at_a_book<W: Asks, R: Wait>(
    rt: &R,
    alloc: Global,
    core: Core,
    watchers: &W,
    workflow: &WorkflowName,
    at: u64,
) -> Result<GivenUp, DeskFault>
    requires { IsCoreWith (W.scopes watchers.now) core }
    ensures given_up { IfOk result (λ r. AreGivenUp (W.scopes watchers.now) core workflow.now at r.undone r.cancelled) }
    ensures lines { IfOk result (λ r. IfOk r.undone (λ first. IfOk r.cancelled (λ second. r.lines ≡ 2))) }
{
    let (blank, opened) = (Blank::new(1), Opened::new());
    give_up_anew::<Brand, W, R>(rt, alloc, blank, opened, core, watchers, workflow, at)
}
