//! What follows from how events and answers are told apart.
ghost use Rattle.std.specs.Prelude.{◌≡◌, Result};
ghost use Rattle.mt_names.specs.Same.{DecidesEquality};
ghost use Rattle.mt_event.specs.declared.event.Event.{Event};
ghost use Rattle.mt_event.specs.declared.refusal.Refusal.{Refusal};
ghost use Rattle.mt_event.specs.declared.reply.Reply.{Reply};
ghost use Rattle.mt_event.specs.Events.{answer_from, event_of};
ghost use Rattle.mt_event.specs.Same.{same_event, same_refusal, same_reply};

/// `==` of two events, of two answers or of two refusals is true exactly where they are equal.
pub fn events_and_answers_are_told_apart()
    ensures events { DecidesEquality same_event }
    ensures replies { DecidesEquality same_reply }
    ensures refusals { DecidesEquality same_refusal }
{}

/// No two events are one event to the definitions, and no two answers are one answer.
pub fn events_and_answers_are_told_in_full()
    ensures events { (a b : Event) → event_of a ≡ event_of b → a ≡ b }
    ensures answers { (a b : Result Reply Refusal) → answer_from a ≡ answer_from b → a ≡ b }
{}
