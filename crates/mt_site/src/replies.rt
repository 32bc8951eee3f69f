//! What is told of what is taken, by what each call tells.
ghost use Rattle.std.specs.Prelude.{◌≡◌};
ghost use Rattle.mt_event.specs.Asks.{answer_told, answer_told_by};
ghost use Rattle.mt_event.specs.Events.{done_from};
ghost use Rattle.mt_event.specs.Reasons.{done_by};
ghost use Rattle.mt_plain.specs.Events.{Answer};
ghost use Rattle.mt_site.specs.Advance.{advanced_from};
ghost use Rattle.mt_site.specs.ByHand.{read_from};

use mt_event::{Reason, Refusal, Told};
use mt_names::Value;
use mt_stream::Advanced;

/// That it is done, or why it isn't.
pub(crate) fn done(told: Result<(), Reason>) -> Result<Told, Reason>
    ensures { (shown : Answer) → answer_told_by shown result ≡ done_by told }
{
    told?;
    Ok(Told::Done)
}

/// What an advance did.
pub(crate) fn advanced(told: Result<Advanced, Reason>) -> Result<Told, Reason>
    ensures { (shown : Answer) → answer_told_by shown result ≡ advanced_from told }
{
    Ok(Told::Advanced(told?))
}

/// The row that was read.
pub(crate) fn row(told: Result<Option<Value>, Reason>) -> Result<Told, Reason>
    ensures { (shown : Answer) → answer_told_by shown result ≡ read_from told }
{
    Ok(Told::Row(told?))
}

/// That it is done, or why it isn't, where no name is told.
pub(crate) fn refused(told: Result<(), Reason>) -> Result<(), Refusal>
    ensures { done_from result ≡ done_by told }
{
    Ok(told?)
}

/// What is told, where no name is.
#[inline(always)]
pub(crate) fn refused_by(told: Result<Told, Reason>) -> Result<Told, Refusal>
    ensures { (shown : Answer) → answer_told shown result ≡ answer_told_by shown told }
{
    Ok(told?)
}
