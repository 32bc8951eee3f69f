//! What must stand behind a refusal out of memory: what stands at a site that was asked the lines before alone.

use crate::asked::{Asked, asked_by, times};
use crate::at_site::AtSite;
use crate::playing::Turn;
use crate::plays::Step;
use crate::told::{Kind, Told};
use crate::venue::Venue;
use crate::watches::{Watch, tell_or_refuse, watcher_of};
use mt_site::Site;
use mt_watch::{Asks, Change, Watcher, Watchers};
use std::alloc::Global;
use std::cell::Cell;
use std::sync::Wait;

/// What a line more does, if there is one, and what is to be told of it.
type More<'a> = Option<(&'a Asked<'a>, &'a Told)>;

/// Asks a site a line, as often as it says.
fn ask<W: Asks + Drop, R: Wait>(rt: &R, twin: &mut AtSite<'_, W>, line: &str) {
    let (count, line) = times(line);
    let asked = asked_by(line);
    for _ in 0..count {
        let _told = twin.tell(rt, &asked);
    }
}

/// Asks a site some lines.
fn ask_all<W: Asks + Drop, R: Wait>(rt: &R, twin: &mut AtSite<'_, W>, steps: &[Step<'_>]) {
    for step in steps {
        ask(rt, twin, step.line);
    }
}

/// Whether a site tells the same of what is asked, as far as that can be asked.
fn tells_the_same<W: Asks + Drop, V: Venue, R: Wait>(
    rt: &R,
    twin: &mut AtSite<'_, W>,
    venue: &mut V,
    line: &str,
) -> bool {
    let asked = asked_by(line);
    let told = venue.tell(rt, &asked);
    told.kind == Kind::Unasked || twin.tell(rt, &asked).is_same(&told)
}

/// Whether a site tells the same of the documents, of what is owed, and of each look.
fn looks_the_same<W: Asks + Drop, V: Venue, R: Wait>(
    rt: &R,
    twin: &mut AtSite<'_, W>,
    venue: &mut V,
    looks: &[Step<'_>],
) -> bool {
    for line in ["dump", "owed"] {
        if !tells_the_same(rt, twin, venue, line) {
            return false;
        }
    }
    for look in looks {
        if !tells_the_same(rt, twin, venue, look.line) {
            return false;
        }
    }
    true
}

/// Whether a new site stands as a venue does, once it was asked the lines of a play before one, and one more.
fn is_alike<W: Asks + Drop, V: Venue, R: Wait>(
    rt: &R,
    watchers: W,
    venue: &mut V,
    turn: Turn<'_, '_>,
    before: &[Step<'_>],
    more: More<'_>,
) -> bool {
    let mut site = Site::open(turn.alloc, watchers);
    let mut twin = AtSite {
        alloc: turn.alloc,
        site: &mut site,
        by_ones: false,
    };
    ask_all(rt, &mut twin, before);
    let is_told = match more {
        Some((asked, told)) => twin.tell(rt, asked).is_same(told),
        None => true,
    };
    let is_so = is_told && looks_the_same(rt, &mut twin, venue, turn.play.looks.as_slice());
    drop(site);
    is_so
}

/// Whether a venue stands as a new site does that was asked the lines of a play before one, and one more.
pub fn stands_as<V: Venue, R: Wait>(
    rt: &R,
    venue: &mut V,
    turn: Turn<'_, '_>,
    more: More<'_>,
) -> bool {
    let mut watchers = Watchers::new(turn.alloc);
    for watch in &turn.play.watches {
        let Some(watcher) = watcher_of!(turn.alloc, watch) else {
            return false;
        };
        if watchers.add(watcher).is_err() {
            return false;
        }
    }
    let Some(before) = turn.play.steps.get(0..turn.index) else {
        return false;
    };
    is_alike::<Watchers, V, R>(rt, watchers, venue, turn, before, more)
}
