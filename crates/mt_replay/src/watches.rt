//! Who watches in a play: `watch K` is a watcher of the primary of a keyspace, which tells each change, and
//! `watch K refuses deny T N` one that refuses the change of number N, from 0, among those that deny this table, or
//! all of them with `always` in the place of the number; with `allow`, among those that allow it. The routers'
//! watcher comes last. Where a play says nothing of watchers, those of `commerce` and `customer` are there.
ghost use Rattle.std.specs.Prelude.{◌≡◌, IfOk};
ghost use Rattle.mt_watch.specs.Notices.{notice_of};

use crate::plays::{FileFault, Step, kept};
use mt_model::Entry;
use mt_names::{KeyspaceName, TableName};
use mt_watch::{Change, Notice, Scope, WatchFault, tell};
use std::alloc::Global;
use std::cell::Cell;

/// The changes that a watcher refuses.
#[derive(Debug, Drop)]
pub struct Mark {
    /// The table, if any is refused.
    table: Option<TableName>,
    /// Whether those count that deny it, or those that allow it.
    denies: bool,
    /// The number of the one among them that is refused, or all.
    number: Option<u64>,
}

/// A watcher, and what it refuses.
#[derive(Debug, Drop)]
pub struct Watch {
    /// What it watches.
    pub scope: Scope,
    /// What it refuses.
    pub mark: Mark,
}

impl Mark {
    /// Nothing is refused.
    fn nothing() -> Self {
        Mark {
            table: None,
            denies: false,
            number: None,
        }
    }

    /// A copy.
    pub fn copied(&self) -> Self {
        Mark {
            table: self.table.as_ref().map(|table| table.copied()),
            denies: self.denies,
            number: self.number,
        }
    }

    /// Whether a change counts.
    fn counts(&self, change: &Change) -> bool {
        let Some(table) = &self.table else {
            return false;
        };
        for entry in change.as_slice() {
            if let Entry::Denied(_, marked, denies) = entry {
                if marked == table && *denies == self.denies {
                    return true;
                }
            }
        }
        false
    }

    /// Whether a change is refused behind so many others that counted, and how many have counted then.
    fn refuses(&self, change: &Change, seen: u64) -> (bool, u64) {
        if !self.counts(change) {
            return (false, seen);
        }
        let is_refused = match self.number {
            Some(number) => number == seen,
            None => true,
        };
        (is_refused, seen.saturating_add(1))
    }
}

/// What a watcher answers that refuses some changes, behind so many that counted.
pub fn tell_or_refuse(
    alloc: Global,
    scope: &Scope,
    mark: &Mark,
    seen: &Cell<u64>,
    change: &Change,
) -> Result<Notice, WatchFault>
    ensures { IfOk result (λ notice. notice ≡ notice_of scope.now change.now) }
{
    let (is_refused, more) = mark.refuses(change, seen.get());
    seen.set(more);
    if is_refused {
        return Err(WatchFault(1));
    }
    tell(alloc, scope, change)
}

/// What the words behind `refuses` say.
fn read_mark(words: &str) -> Option<Mark> {
    let (kind, rest) = words.split_once(' ')?;
    let (table, number) = rest.split_once(' ')?;
    let number = match number {
        "always" => None,
        number => Some(number.parse::<u64>().ok()?),
    };
    let denies = match kind {
        "deny" => true,
        "allow" => false,
        _ => return None,
    };
    Some(Mark {
        table: Some(TableName::parse(table).ok()?),
        denies,
        number,
    })
}

/// What the words behind `watch` say.
fn read_watch(words: &str) -> Option<Watch> {
    let (keyspace, mark) = match words.split_once(" refuses ") {
        Some((keyspace, behind)) => (keyspace, read_mark(behind)?),
        None => (words, Mark::nothing()),
    };
    let scope = Scope::Primary(KeyspaceName::parse(keyspace).ok()?);
    Some(Watch { scope, mark })
}

/// Those that watch where nothing is said of it.
static BOTH: [&str; 2] = ["commerce", "customer"];

/// Adds the watcher that the words behind `watch` say, of the line of this number.
fn add(watches: &mut Vec<Watch>, number: u64, words: &str) -> Result<(), FileFault> {
    match read_watch(words) {
        Some(watch) => kept(watches.push(watch).is_ok()),
        None => Err(FileFault::Line(number)),
    }
}

/// Adds those that some steps say.
fn add_said(watches: &mut Vec<Watch>, steps: &[Step<'_>]) -> Result<(), FileFault> {
    for step in steps {
        if let Some(words) = step.line.strip_prefix("watch ") {
            add(watches, step.number, words)?;
        }
    }
    Ok(())
}

/// Adds the two, which no line says.
fn add_both(watches: &mut Vec<Watch>) -> Result<(), FileFault> {
    for keyspace in &BOTH {
        add(watches, 0, keyspace)?;
    }
    Ok(())
}

/// Who watches in a play whose last part has these steps, and the routers' watcher behind them.
pub fn read_watches(alloc: Global, steps: &[Step<'_>]) -> Result<Vec<Watch>, FileFault> {
    let mut watches = Vec::new(alloc);
    add_said(&mut watches, steps)?;
    if watches.is_empty() {
        add_both(&mut watches)?;
    }
    let routes = Watch {
        scope: Scope::Routes,
        mark: Mark::nothing(),
    };
    kept(watches.push(routes).is_ok())?;
    Ok(watches)
}

/// A watcher: it is a macro, since a function that makes a callback and hands it out isn't proved to answer as it says.
macro_rules! watcher_of {
    ($alloc:expr, $watch:expr) => {{
        let alloc = $alloc;
        let watch: &Watch = $watch;
        let scope = watch.scope.copied();
        let own = scope.copied();
        let mark = watch.mark.copied();
        let seen = Cell::new(0u64);
        match Box::new(alloc, move |change: &Change| {
            tell_or_refuse(alloc, &own, &mark, &seen, change)
        }) {
            Ok(call) => Some(Watcher::new(scope, call)),
            Err(_) => None,
        }
    }};
}

pub(crate) use watcher_of;
