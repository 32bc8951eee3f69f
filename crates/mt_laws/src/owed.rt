//! Laws on the events that are owed to the live workflows.
ghost use Rattle.std.specs.Prelude.{◌≡◌, ℕ, ◌+◌, ◌*◌, ◌≤◌, List};
ghost use Rattle.mt_laws.specs.WayBack.{IsReached};
ghost use Rattle.mt_plain.specs.Answers.{Answers};
ghost use Rattle.mt_plain.specs.Events.{Event, undo, cancel, Refusal, Answer, done, refused};
ghost use Rattle.mt_plain.specs.Next.{next};
ghost use Rattle.mt_plain.specs.Plain.{Plain};
ghost use Rattle.mt_plain.specs.Refuse.{most_workflows, owed};

/// In each state that a run reaches: an undo and a Cancel that are taken leave at least one event less owed, no event leaves
/// more than one event more owed, and a refused one leaves as many; and to each of 16 live workflows at most 14 are owed. So a
/// caller that has room for what is owed before an event, and for one event more, has room for what is owed after it.
pub fn each_event_owes_one_at_most()
    ensures undo { (p : Plain) → IsReached p → (name : List ℕ) (at : ℕ) → Answers p (undo name at) done
        → owed (next p (undo name at) done) + 1 ≤ owed p }
    ensures cancel { (p : Plain) → IsReached p → (name : List ℕ) → Answers p (cancel name) done
        → owed (next p (cancel name) done) + 1 ≤ owed p }
    ensures others { (p : Plain) → IsReached p → (event : Event) (answer : Answer) → Answers p event answer
        → owed (next p event answer) ≤ owed p + 1 }
    ensures bounded { (p : Plain) → IsReached p → owed p ≤ 14 * most_workflows }
    ensures refused { (p : Plain) (event : Event) (refusal : Refusal) → owed (next p event (refused refusal)) ≡ owed p }
{}
