//! Rows of a script, where names lead.
ghost use Rattle.std.specs.Prelude.{◌≡◌, ◌+◌, ◌≤◌, ◌++◌, length};
ghost use Rattle.mt_event.specs.Reasons.{done_by};
ghost use Rattle.mt_plain.specs.Output.{answer_text, line_feed};
ghost use Rattle.mt_plain.specs.Script.{change, get};
ghost use Rattle.mt_script.specs.Lines.{op_from, row_from};
ghost use Rattle.mt_site.specs.ByHand.{read_from};
ghost use Rattle.mt_run.specs.Runs.{IsRowTold, through_text};

use crate::cached::CachedSite;
use arrayvec::ArrayVec;
use mt_event::Reason;
use mt_model::{Op, TopologyFault};
use mt_names::{RuleKey, TabletType, Value};
use mt_script::{
    LONGEST_LINE, OpText, RowAsked, put_fault, put_look_up, put_reason, put_row, put_written,
};
use mt_watch::Asks;

/// Tells of a write through a name.
#[inline(always)]
fn tell_written<const N: usize>(
    told: &Result<Result<(), Reason>, TopologyFault>,
    waiting: &mut ArrayVec<u8, N>,
)
    requires room { length waiting.old.items + LONGEST_LINE ≤ N }
    ensures { waiting.new.items ≡ waiting.old.items ++ through_text done_by told.now }
{
    match told {
        Ok(Ok(())) => put_written(waiting),
        Ok(Err(reason)) => put_reason(waiting, *reason),
        Err(fault) => put_look_up(waiting, *fault),
    }
}

/// Tells of a row that was read where a name leads.
#[inline(always)]
fn tell_row<const N: usize>(told: &Result<Option<Value>, Reason>, waiting: &mut ArrayVec<u8, N>)
    requires room { length waiting.old.items + LONGEST_LINE ≤ N }
    ensures { waiting.new.items ≡ waiting.old.items ++ answer_text (read_from told.now) ++ line_feed }
{
    match told {
        Ok(row) => put_row(waiting, row),
        Err(reason) => put_reason(waiting, *reason),
    }
}

/// Tells of a row that was read through a name.
#[inline(always)]
fn tell_read<const N: usize>(
    told: &Result<Result<Option<Value>, Reason>, TopologyFault>,
    waiting: &mut ArrayVec<u8, N>,
)
    requires room { length waiting.old.items + LONGEST_LINE ≤ N }
    ensures { waiting.new.items ≡ waiting.old.items ++ through_text read_from told.now }
{
    match told {
        Ok(told) => tell_row(told, waiting),
        Err(fault) => put_look_up(waiting, *fault),
    }
}

/// Writes a row of the table that a name leads to, which has a keyspace or a type, or is in fault.
#[inline(never)]
fn write_by_key<A: Asks, const N: usize>(
    cached: &mut CachedSite<A>,
    name: &str,
    op: Op,
    waiting: &mut ArrayVec<u8, N>,
)
    requires room { length waiting.old.items + LONGEST_LINE ≤ N }
    ensures watchers { cached.new.site.watchers ≡ cached.old.site.watchers }
    ensures told { IsRowTold cached.old.site.core (change name.now op) waiting.old.items waiting.new.items cached.new.site.core }
{
    match RuleKey::parse(name) {
        Ok(key) => tell_written(&cached.write_through(&key, op), waiting),
        Err(fault) => put_fault(waiting, fault),
    }
}

/// Writes a row of the table that a name leads to, which most often is a table's name alone.
#[inline(always)]
fn write<A: Asks, const N: usize>(
    cached: &mut CachedSite<A>,
    name: &str,
    text: &OpText<'_>,
    waiting: &mut ArrayVec<u8, N>,
)
    requires room { length waiting.old.items + LONGEST_LINE ≤ N }
    ensures watchers { cached.new.site.watchers ≡ cached.old.site.watchers }
    ensures told { IsRowTold cached.old.site.core (change name.now (op_from text.now)) waiting.old.items waiting.new.items cached.new.site.core }
{
    match cached.write_named(name.as_bytes(), text.op()) {
        Some(told) => tell_written(&told, waiting),
        None => write_by_key(cached, name, text.op(), waiting),
    }
}

/// Reads a row of the table that a name leads to, which has a keyspace or a type, or is in fault.
#[inline(never)]
fn read_by_key<A: Asks, const N: usize>(
    cached: &CachedSite<A>,
    name: &str,
    key: u64,
    waiting: &mut ArrayVec<u8, N>,
)
    requires room { length waiting.old.items + LONGEST_LINE ≤ N }
    ensures { IsRowTold cached.now.site.core (get name.now key) waiting.old.items waiting.new.items cached.now.site.core }
{
    match RuleKey::parse(name) {
        Ok(name) => {
            let tablet_type = name.tablet_type.unwrap_or(TabletType::Primary);
            tell_read(&cached.read_through(&name, key, tablet_type), waiting)
        }
        Err(fault) => put_fault(waiting, fault),
    }
}

/// Reads a row of the table that a name leads to, which most often is a table's name alone.
#[inline(always)]
fn read<A: Asks, const N: usize>(
    cached: &mut CachedSite<A>,
    name: &str,
    key: u64,
    waiting: &mut ArrayVec<u8, N>,
)
    requires room { length waiting.old.items + LONGEST_LINE ≤ N }
    ensures watchers { cached.new.site.watchers ≡ cached.old.site.watchers }
    ensures told { IsRowTold cached.old.site.core (get name.now key) waiting.old.items waiting.new.items cached.new.site.core }
{
    match cached.read_named(name.as_bytes(), key) {
        Some(told) => tell_read(&told, waiting),
        None => read_by_key(cached, name, key, waiting),
    }
}

/// Answers a line that asks for a row where a name leads.
#[inline(always)]
pub fn row<A: Asks, const N: usize>(
    cached: &mut CachedSite<A>,
    name: &str,
    asked: &RowAsked<'_>,
    waiting: &mut ArrayVec<u8, N>,
)
    requires room { length waiting.old.items + LONGEST_LINE ≤ N }
    ensures watchers { cached.new.site.watchers ≡ cached.old.site.watchers }
    ensures told { IsRowTold cached.old.site.core (row_from change get name.now asked.now) waiting.old.items waiting.new.items cached.new.site.core }
{
    match asked {
        RowAsked::Write(text) => write(cached, name, text, waiting),
        RowAsked::Read(key) => read(cached, name, *key, waiting),
    }
}
