//! A run whose lines are handed in one at a time.
ghost use Rattle.std.specs.Prelude.{◌≡◌, ◌+◌, ◌≤◌, [], length};
ghost use Rattle.mt_plain.specs.Plain.{Plain};
ghost use Rattle.mt_stands.specs.Ways.{CoreStands};
ghost use Rattle.mt_run.specs.LineRuns.{AddsLine, SoFar};
ghost use Rattle.mt_run.specs.Runs.{AsksDocument, OnDocument, RunsLine, answered_by};

use crate::asking::{add_keyspace, add_table, create, edit_rule, row_at, workflow};
use crate::cached::CachedSite;
use crate::rows::row;
use arrayvec::ArrayVec;
use mt_script::{LONGEST_LINE, Line, put_fault, put_refusal, read};
use mt_watch::Asks;
use std::alloc::Global;

/// How a line of a script is answered.
#[derive(Drop)]
pub enum Answered {
    /// By a line, which stands behind what waited, or by nothing.
    Line,
    /// By a document, without its line feed. Nothing is added to what waited.
    Document(String),
    /// There was no memory for the document that the line asks for. Nothing is done or added.
    NoMemory,
}

/// A document that is made, or for which there was no memory.
fn document<E: Drop>(made: Result<String, E>) -> Answered
    ensures { result ≡ answered_by made }
{
    match made {
        Ok(text) => Answered::Document(text),
        Err(_) => Answered::NoMemory,
    }
}

/// Answers a line, where a line of output has room.
fn run_line<A: Asks, const N: usize>(
    cached: &mut CachedSite<A>,
    waiting: &mut ArrayVec<u8, N>,
    line: &[u8],
) -> Answered
    requires room { length waiting.old.items + LONGEST_LINE ≤ N }
    ensures watchers { cached.new.site.watchers ≡ cached.old.site.watchers }
    ensures runs { (p : Plain) → CoreStands p (A.scopes cached.old.site.watchers) cached.old.site.core
        → RunsLine (A.scopes cached.old.site.watchers) p line.now cached.new.site.core waiting.old.items waiting.new.items result }
    ensures document { OnDocument result (AsksDocument line.now) }
    ensures unchanged { OnDocument result (cached.new ≡ cached.old) }
    ensures waits { OnDocument result (waiting.new.items ≡ waiting.old.items) }
{
    let named = match read(line) {
        Line::Silent => Ok(()),
        Line::Refused(refusal) => {
            put_refusal(waiting, refusal);
            Ok(())
        }
        Line::Row(name, asked) => {
            row(cached, name, &asked, waiting);
            Ok(())
        }
        Line::At(name, asked) => row_at(cached, &name, &asked, waiting),
        Line::Workflow(name, asked) => workflow(cached, name, asked, waiting),
        Line::Create(words) => create(cached, words, waiting),
        Line::Keyspace(name, shards) => add_keyspace(cached, name, shards, waiting),
        Line::Table(keyspace, name) => add_table(cached, keyspace, name, waiting),
        Line::Rule(key, target) => edit_rule(cached, key, target, waiting),
        Line::Rules => return document(cached.site.rules_json()),
        Line::Dump => return document(cached.site.dump()),
    };
    if let Err(fault) = named {
        put_fault(waiting, fault);
    }
    Answered::Line
}

/// A run of a script whose lines are handed in one at a time, as by a program that embeds the controller; `run_script` goes through its lines so. It begins
/// with a topology without keyspaces. What its lines wrote is what a script of them writes (`SoFar`), and the headline holds of it.
#[derive(Drop)]
pub struct LineRun<A: Asks> {
    cached: CachedSite<A>,
}

impl<A: Asks> LineRun<A> {
    /// A run without lines, which asks these watchers. It takes no memory.
    pub fn open(alloc: Global, watchers: A) -> Self
        ensures watchers { result.cached.site.watchers ≡ watchers }
        ensures begins { SoFar (A.scopes watchers) [] [] result.cached.site.core }
    {
        LineRun {
            cached: CachedSite::open(alloc, watchers),
        }
    }

    /// Answers the next line, without its line feed, where a line of output has room: a line of its answer is added to what waits to be
    /// written, and a document is handed out. An event that finds no memory is answered `refused F0 Memory`; where there is none for a document, the run is as
    /// it was, and so it is behind a document.
    pub fn answer<const N: usize>(&mut self, waiting: &mut ArrayVec<u8, N>, line: &[u8]) -> Answered
        requires room { length waiting.old.items + LONGEST_LINE ≤ N }
        ensures watchers { self.new.cached.site.watchers ≡ self.old.cached.site.watchers }
        ensures adds { AddsLine (A.scopes self.old.cached.site.watchers) line.now self.old.cached.site.core self.new.cached.site.core waiting.old.items waiting.new.items result }
        ensures document { OnDocument result (AsksDocument line.now) }
        ensures unchanged { OnDocument result (self.new ≡ self.old) }
        ensures waits { OnDocument result (waiting.new.items ≡ waiting.old.items) }
    {
        run_line(&mut self.cached, waiting, line)
    }
}
