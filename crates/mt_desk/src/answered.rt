//! What is asked for, applied, and its answer kept: once for the history, and once for whoever asked, who share what is long of it.
ghost use Rattle.std.specs.Prelude.{◌≡◌, false, true, None, IfOk, IsOk, OnErr};
ghost use Rattle.mt_event.specs.Asks.{event_of_ask};
ghost use Rattle.mt_event.specs.CompactAnswers.{said_by};
ghost use Rattle.mt_event.specs.Events.{answer_from};
ghost use Rattle.mt_site.specs.Applied.{Applied};
ghost use Rattle.mt_site.specs.Asks.{answer_of};
ghost use Rattle.mt_site.specs.Stood.{IsCoreWith};
ghost use Rattle.mt_stands.specs.Purges.{IsPurged};
ghost use Rattle.mt_desk.specs.Kept.{is_show, may_take_memory};
ghost use Rattle.mt_desk.specs.Room.{is_undo_or_cancel};

use mt_event::{Ask, CompactAnswer, Refusal, Told};
use mt_site::Core;
use mt_watch::Asks;
use std::alloc::{AllocError, Global};

/// Applies what is asked for, as `Core::apply` tells, and keeps its answer, for two who share it. It is refused only when out of memory, and then the
/// core is as it was: only the answer to a read or a Show takes memory, and a refusal that tells a name.
pub(crate) fn answered<W: Asks>(
    alloc: Global,
    core: &mut Core,
    watchers: &W,
    ask: Ask<'_>,
) -> Result<(CompactAnswer, CompactAnswer), AllocError>
    requires stood { IsCoreWith (W.scopes watchers.now) core.old }
    ensures same { IfOk result (λ r. r.1 ≡ r.0) }
    ensures applied { IfOk result (λ r. Applied (W.scopes watchers.now) (W.may_answer watchers.now) core.old (event_of_ask ask.entry) (answer_from r.0) core.new) }
    ensures purged { IsPurged core.old.base → IsPurged core.new.base }
    ensures none { OnErr result (core.new ≡ core.old) }
    ensures in_place { is_undo_or_cancel (event_of_ask ask.entry) ≡ true → IsOk result }
{
    let told = core.apply(watchers, ask);
    let answer = kept(alloc, core, ask, told)?;
    let again = answer.again()?;
    Ok((answer, again))
}

/// Keeps the answer to what was asked for last, from what the core told of it. It is refused only when out of memory: only a row, what tells of a
/// workflow and a refusal that tells a name take any.
fn kept(
    alloc: Global,
    core: &Core,
    ask: Ask<'_>,
    told: Result<Told, Refusal>,
) -> Result<CompactAnswer, AllocError>
    ensures answer { IfOk result (λ answer. answer_from answer ≡ answer_of core.now ask.entry told) }
    ensures in_place { may_take_memory (event_of_ask ask.entry) told ≡ false → IsOk result }
{
    match CompactAnswer::of_told(alloc, &told)? {
        Some(answer) => Ok(answer),
        None => kept_by_value(alloc, core, ask, told),
    }
}

/// The same of what stands in the core, which only a Show tells. It stands apart, since room for a reply is cleared.
#[inline(never)]
fn kept_by_value(
    alloc: Global,
    core: &Core,
    ask: Ask<'_>,
    told: Result<Told, Refusal>,
) -> Result<CompactAnswer, AllocError>
    requires { said_by told ≡ None }
    ensures answer { IfOk result (λ answer. answer_from answer ≡ answer_of core.now ask.entry told) }
    ensures in_place { is_show (event_of_ask ask.entry) ≡ false → IsOk result }
{
    CompactAnswer::new(alloc, &core.reply(ask, told))
}
