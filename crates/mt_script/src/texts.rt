//! The texts of answers.
ghost use Rattle.std.specs.Prelude.{◌≡◌, ◌+◌, ◌<◌, ◌≤◌, ◌++◌, Ok, codes, length};
ghost use Rattle.mt_plain.specs.Numbers.{number_text};
ghost use Rattle.mt_plain.specs.Drive.{stopped};
ghost use Rattle.mt_plain.specs.Events as answer;
ghost use Rattle.mt_plain.specs.Events.{advanced, done, refused};
ghost use Rattle.mt_plain.specs.Output.{answer_text, driven_text, ended_text, line_feed, refused_text, spaced};
ghost use Rattle.mt_event.specs.Drives.{ended_from};
ghost use Rattle.mt_event.specs.declared.reply.Reply.TheVariants as reply;
ghost use Rattle.mt_event.specs.Events.{answer_from, lent_shown, refusal_from};
ghost use Rattle.mt_event.specs.Reasons.{reason_from};
ghost use Rattle.mt_model.specs.Faults.{topology_fault_text};
ghost use Rattle.mt_names.specs.Faults.{fault_text};
ghost use Rattle.mt_script.specs.Lines.{line_refusal_text};

use crate::LONGEST_LINE;
use crate::lines::LineRefusal;
use crate::shown::{number, shown_line, spaced};
use arrayvec::ArrayVec;
use mt_event::{Driven, Reason, Refusal, Reply, ShownOf};
use mt_model::TopologyFault;
use mt_names::{NameFault, Value};
use mt_stream::Advanced;

/// Adds a line of the two texts, one behind the other.
fn put_line<const N: usize>(text: &mut ArrayVec<u8, N>, first: &[u8], second: &[u8])
    requires { length text.old.items + (length first.now + length second.now) < N }
    ensures { text.new.items ≡ text.old.items ++ first.now ++ second.now ++ line_feed }
{
    let _fits = text.try_extend_from_slice(first);
    let _fits = text.try_extend_from_slice(second);
    text.push(b'\n');
}

/// How many rows an advance copied.
fn rows_text(rows: u16) -> ArrayVec<u8, 25>
    ensures { result.items ≡ spaced (codes "rows") (number_text rows) }
{
    spaced(b"rows", &number(u64::from(rows)))
}

/// How many events an advance applied, and what stands behind.
fn events_text(events: u16, rows: &ArrayVec<u8, 25>) -> ArrayVec<u8, 46>
    ensures { result.items ≡ spaced (number_text events) rows.now.items }
{
    spaced(&number(u64::from(events)), rows)
}

/// Adds the line that tells what an advance did.
pub fn put_advanced<const N: usize>(text: &mut ArrayVec<u8, N>, did: Advanced)
    requires room { length text.old.items + LONGEST_LINE ≤ N }
    ensures { text.new.items ≡ text.old.items ++ answer_text (advanced did.events did.rows) ++ line_feed }
{
    put_line(
        text,
        b"events ",
        &events_text(did.events, &rows_text(did.rows)),
    );
}

/// Adds the line that tells of a workflow.
#[inline(never)]
pub fn put_shown<const N: usize>(text: &mut ArrayVec<u8, N>, shown: &ShownOf<'_>)
    requires room { length text.old.items + LONGEST_LINE ≤ N }
    ensures { text.new.items ≡ text.old.items ++ answer_text (answer.shown (lent_shown shown.now)) ++ line_feed }
{
    let _fits = text.try_extend_from_slice(&shown_line(shown));
}

/// Adds the line that tells the answer to an event.
pub fn put_answer<const N: usize>(text: &mut ArrayVec<u8, N>, answer: &Result<Reply, Refusal>)
    requires room { length text.old.items + LONGEST_LINE ≤ N }
    ensures { text.new.items ≡ text.old.items ++ answer_text (answer_from answer.now) ++ line_feed }
{
    match answer {
        Ok(Reply::Done) => put_written(text),
        Ok(Reply::Row(row)) => put_row(text, row),
        Ok(Reply::Advanced(advanced)) => put_advanced(text, *advanced),
        Ok(Reply::Shown(shown)) => put_shown(text, &shown.lent()),
        Err(refusal) => put_refused(text, refusal),
    }
}

/// Adds the line that tells why what was asked for is refused.
pub fn put_refused<const N: usize>(text: &mut ArrayVec<u8, N>, refusal: &Refusal)
    requires room { length text.old.items + LONGEST_LINE ≤ N }
    ensures { text.new.items ≡ text.old.items ++ answer_text (refused (refusal_from refusal.now)) ++ line_feed }
{
    put_line(text, b"refused ", refusal.as_str().as_bytes());
}

/// Adds the line that tells of a refusal behind the journal, and how many steps are done.
fn put_stopped<const N: usize>(text: &mut ArrayVec<u8, N>, refusal: &Refusal, steps: u64)
    requires room { length text.old.items + LONGEST_LINE ≤ N }
    ensures { text.new.items ≡ text.old.items ++ driven_text (stopped (refusal_from refusal.now) steps) ++ line_feed }
{
    let told = spaced::<41>(refusal.as_str().as_bytes(), &number(steps));
    put_line(text, b"stopped ", &told);
}

/// Adds the line that tells how a whole switch or reversal of traffic ended, or that its begin was refused.
pub fn put_driven<const N: usize>(text: &mut ArrayVec<u8, N>, end: &Result<Driven, Refusal>)
    requires room { length text.old.items + LONGEST_LINE ≤ N }
    ensures { text.new.items ≡ text.old.items ++ ended_text (ended_from end.now) ++ line_feed }
{
    match end {
        Ok(Driven::Done) => put_line(text, b"ok", b""),
        Ok(Driven::Abandoned(refusal)) => {
            put_line(text, b"abandoned ", refusal.as_str().as_bytes());
        }
        Ok(Driven::Stopped(refusal, steps)) => put_stopped(text, refusal, *steps),
        Err(refusal) => put_line(text, b"refused ", refusal.as_str().as_bytes()),
    }
}

/// Adds the line that tells that a row is written, or a command done.
pub fn put_written<const N: usize>(text: &mut ArrayVec<u8, N>)
    requires room { length text.old.items + LONGEST_LINE ≤ N }
    ensures { text.new.items ≡ text.old.items ++ answer_text done ++ line_feed }
{
    put_line(text, b"ok", b"");
}

/// Adds the line that tells of a row that was read, or that there is none.
pub fn put_row<const N: usize>(text: &mut ArrayVec<u8, N>, row: &Option<Value>)
    requires room { length text.old.items + LONGEST_LINE ≤ N }
    ensures { text.new.items ≡ text.old.items ++ answer_text (answer_from (Ok (reply.Row row.now))) ++ line_feed }
{
    match row {
        None => put_line(text, b"none", b""),
        Some(value) => put_line(text, b"row ", value),
    }
}

/// Adds the line that tells why a row or a command is refused.
pub fn put_reason<const N: usize>(text: &mut ArrayVec<u8, N>, reason: Reason)
    requires room { length text.old.items + LONGEST_LINE ≤ N }
    ensures { text.new.items ≡ text.old.items ++ answer_text (refused (reason_from reason)) ++ line_feed }
{
    put_line(text, b"refused ", reason.as_str().as_bytes());
}

/// Adds the line that tells why a look-up is refused.
pub fn put_look_up<const N: usize>(text: &mut ArrayVec<u8, N>, fault: TopologyFault)
    requires room { length text.old.items + LONGEST_LINE ≤ N }
    ensures { text.new.items ≡ text.old.items ++ refused_text (topology_fault_text fault) ++ line_feed }
{
    put_line(text, b"refused ", fault.as_str().as_bytes());
}

/// Adds the line that tells the fault of a name.
pub fn put_fault<const N: usize>(text: &mut ArrayVec<u8, N>, why: NameFault)
    requires room { length text.old.items + LONGEST_LINE ≤ N }
    ensures { text.new.items ≡ text.old.items ++ refused_text (fault_text why) ++ line_feed }
{
    put_line(text, b"refused ", why.as_str().as_bytes());
}

/// Adds the line that tells why a line is refused.
pub fn put_refusal<const N: usize>(text: &mut ArrayVec<u8, N>, refusal: LineRefusal)
    requires room { length text.old.items + LONGEST_LINE ≤ N }
    ensures { text.new.items ≡ text.old.items ++ refused_text (line_refusal_text refusal) ++ line_feed }
{
    let why = match refusal {
        LineRefusal::BadLine => "X1 BadLine",
        LineRefusal::TooLong => "X2 LineTooLong",
    };
    put_line(text, b"refused ", why.as_bytes());
}
