//! What the workers of a race were told.
ghost use Rattle.std.specs.Prelude.{◌≡◌, IfSome, map};
ghost use Rattle.mt_race.specs.Agreements.{acknowledged_in, is_done, is_row, rows_found, writes_acknowledged};

use mt_desk::{Answer, Call, DeskName, Pass};
use mt_event::Reply;

/// Whether a write is acknowledged.
fn is_done(answer: &Answer) -> bool
    ensures { result ≡ is_done answer.now }
{
    matches!(answer, Ok(Reply::Done))
}

/// Whether a read finds a row.
fn is_row(answer: &Answer) -> bool
    ensures { result ≡ is_row answer.now }
{
    matches!(answer, Ok(Reply::Row(Some(_))))
}

/// How many writes of some calls were acknowledged.
fn writes_acknowledged(calls: &[Call]) -> u64
    ensures { result ≡ writes_acknowledged calls.now }
{
    let mut count = 0;
    for call in calls {
        if is_done(&call.answer.copied()) {
            count += 1;
        }
    }
    count
}

/// How many reads of some calls found a row.
pub(crate) fn rows_found(calls: &[Call]) -> u64
    ensures { result ≡ rows_found calls.now }
{
    let mut count = 0;
    for call in calls {
        if is_row(&call.answer.copied()) {
            count += 1;
        }
    }
    count
}

/// How many writes of some passes were acknowledged, if that fits into the number.
pub(crate) fn acknowledged_in<D: DeskName>(passes: &[Pass<D>]) -> Option<u64>
    ensures { IfSome result (λ count. count ≡ acknowledged_in (map (λ pass. (pass.client, pass.calls.items)) passes.now)) }
{
    let mut count: u64 = 0;
    for pass in passes {
        count = count.checked_add(writes_acknowledged(pass.calls()))?;
    }
    Some(count)
}
