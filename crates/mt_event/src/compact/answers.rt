//! Answers, as they are kept.
ghost use Rattle.std.specs.Prelude.{◌≡◌, ◌↔◌, false, true, IfOk, IsOk};
ghost use Rattle.std.specs.Option.{option_map_or};
ghost use Rattle.mt_event.specs.CompactAnswers.{IsApart, answer_from, may_stand_apart, said_by};

use crate::compact::names::are_same;
use crate::{Reason, Refusal, Reply, Told, events_and_answers_are_told_apart};
use mt_model::SharedValue;
use mt_names::copied_value;
use mt_stream::Advanced;
use std::alloc::{AllocError, Global};
use std::marker::Model;
use std::sync::Arc;

/// The answer to an event: a reply where it was taken, and else why it was refused.
pub type Answer = Result<Reply, Refusal>;

/// A copy of an answer. It takes no memory.
pub fn copied_answer(answer: &Answer) -> Answer
    ensures { result ≡ answer.now }
{
    match answer {
        Ok(reply) => Ok(reply.copied()),
        Err(refusal) => Err(refusal.copied()),
    }
}

/// Whether two answers are the same.
fn are_same_answers(answer: &Answer, other: &Answer) -> bool
    ensures { (result ≡ true) ↔ (answer.now ≡ other.now) }
{
    events_and_answers_are_told_apart();
    match (answer, other) {
        (Ok(reply), Ok(other)) => *reply == *other,
        (Err(refusal), Err(other)) => *refusal == *other,
        _ => false,
    }
}

/// What is answered.
#[derive(Drop)]
enum Kept {
    Done,
    NoRow,
    Row(SharedValue),
    Advanced(Advanced),
    Refused(Reason),
    Other(Arc<Answer>),
}

/// An answer, as it is kept: contracts see it as the answer. One that is no longer than a row of 22 bytes stands in place, another in memory of its
/// own, which all who keep the answer share.
#[derive(Drop)]
pub struct CompactAnswer {
    kept: Kept,
}

impl Model for CompactAnswer {
    ghost use Rattle.std.specs.Prelude.{Result};
    ghost use Rattle.mt_event.specs.declared.refusal.Refusal.{Refusal};
    ghost use Rattle.mt_event.specs.declared.reply.Reply.{Reply};
    ghost use Rattle.mt_event.specs.CompactAnswers.{IsApart, answer_from};

    ghost Value = { Result Reply Refusal };

    ghost view = { λ answer. answer_from answer.kept };

    ghost invariant = { λ answer. IsApart answer.kept };
}

impl CompactAnswer {
    /// An answer, to be kept. It is refused only when out of memory; one that is no row, tells of no workflow and is no refusal that tells a name
    /// takes none.
    pub fn new(alloc: Global, answer: &Answer) -> Result<Self, AllocError>
        ensures same { IfOk result (λ kept. kept ≡ answer.now) }
        ensures in_place { may_stand_apart answer.now ≡ false → IsOk result }
    {
        let kept = match answer {
            Ok(Reply::Done) => Kept::Done,
            Ok(Reply::Row(None)) => Kept::NoRow,
            Ok(Reply::Row(Some(value))) => Kept::Row(SharedValue::new(alloc, copied_value(value))?),
            Ok(Reply::Advanced(advanced)) => Kept::Advanced(*advanced),
            Err(Refusal::Other(reason)) => Kept::Refused(*reason),
            Ok(Reply::Shown(_)) | Err(Refusal::RuleConflict(_)) | Err(Refusal::TargetHasTable(_)) =>
                { Kept::Other(Arc::new(alloc, copied_answer(answer))?) }
        };
        Ok(CompactAnswer { kept })
    }

    /// The answer that the core told, to be kept, or none of a workflow that is there: what is told of it stands in the core. It is refused only
    /// when out of memory; one that is no row and no refusal that tells a name takes none.
    pub fn of_told(alloc: Global, told: &Result<Told, Refusal>) -> Result<Option<Self>, AllocError>
        ensures same { IfOk result (λ kept. kept ≡ said_by told.now) }
        ensures in_place { option_map_or may_stand_apart (said_by told.now) false ≡ false → IsOk result }
    {
        let kept = match told {
            Ok(Told::Done) => Kept::Done,
            Ok(Told::Row(None)) => Kept::NoRow,
            Ok(Told::Row(Some(value))) => Kept::Row(SharedValue::new(alloc, copied_value(value))?),
            Ok(Told::Advanced(advanced)) => Kept::Advanced(*advanced),
            Ok(Told::Shown) => return Ok(None),
            Err(Refusal::Other(reason)) => Kept::Refused(*reason),
            Err(refusal) => Kept::Other(Arc::new(alloc, Err(refusal.copied()))?),
        };
        Ok(Some(CompactAnswer { kept }))
    }

    /// The answer, for one more who keeps it. It takes no memory, and is refused only where those who share can't be counted any further; one that
    /// `new` keeps without memory is never refused.
    pub fn again(&self) -> Result<Self, AllocError>
        ensures same { IfOk result (λ kept. kept ≡ self.now) }
        ensures in_place { may_stand_apart self.now ≡ false → IsOk result }
    {
        let kept = match &self.kept {
            Kept::Done => Kept::Done,
            Kept::NoRow => Kept::NoRow,
            Kept::Row(value) => Kept::Row(value.try_clone()?),
            Kept::Advanced(advanced) => Kept::Advanced(*advanced),
            Kept::Refused(reason) => Kept::Refused(*reason),
            Kept::Other(answer) => Kept::Other(Arc::try_clone(answer)?),
        };
        Ok(CompactAnswer { kept })
    }

    /// Whether another one is the same answer. It takes no memory; of two that stand in place for rows neither is copied whole.
    pub fn is_same(&self, other: &Self) -> bool
        ensures { (result ≡ true) ↔ (self.now ≡ other.now) }
    {
        match (&self.kept, &other.kept) {
            (Kept::Done, Kept::Done) | (Kept::NoRow, Kept::NoRow) => true,
            (Kept::Row(value), Kept::Row(its_value)) => are_same(value, its_value),
            _ => are_same_copied(self, other),
        }
    }

    /// A copy of the answer. It takes no memory.
    pub fn copied(&self) -> Answer
        ensures { result ≡ self.now }
    {
        match &self.kept {
            Kept::Done => Ok(Reply::Done),
            Kept::NoRow => Ok(Reply::Row(None)),
            Kept::Row(value) => Ok(Reply::Row(Some(value.value()))),
            Kept::Advanced(advanced) => Ok(Reply::Advanced(*advanced)),
            Kept::Refused(reason) => Err(Refusal::Other(*reason)),
            Kept::Other(answer) => copied_apart(answer),
        }
    }
}

/// A copy of an answer. It stands apart from what copies rows, since room for the copy is cleared.
#[inline(never)]
fn copied_apart(answer: &Answer) -> Answer
    ensures { result ≡ answer.now }
{
    copied_answer(answer)
}

/// Whether two kept answers are the same, by copies of both. It stands apart from what compares rows, since room for the copies is cleared.
#[inline(never)]
fn are_same_copied(one: &CompactAnswer, other: &CompactAnswer) -> bool
    ensures { (result ≡ true) ↔ (one.now ≡ other.now) }
{
    are_same_answers(&one.copied(), &other.copied())
}
