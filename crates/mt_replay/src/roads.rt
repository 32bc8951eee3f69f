//! The roads by which a play is played.

use crate::at_desk::{Gone, by_desk};
use crate::at_site::AtSite;
use crate::by_list::by_list;
use crate::by_script::by_script;
use crate::playing::{Play, Wrong, first_wrong};
use crate::watches::{Watch, tell_or_refuse, watcher_of};
use mt_site::Site;
use mt_watch::{Asks, Change, Watcher, Watchers};
use std::alloc::Global;
use std::cell::Cell;
use std::sync::Wait;

/// A road.
#[derive(Clone, Copy, Debug, Eq, PartialEq)]
pub enum Road {
    /// By `Site::apply`, one event after the other.
    Apply,
    /// By `run_events`, in lists as long as may be.
    List,
    /// By `run_events`, in lists of one event.
    Ones,
    /// Through a desk.
    Desk,
    /// As a script.
    Script,
}

impl Road {
    /// The road of a name.
    pub fn named(name: &str) -> Option<Road> {
        match name {
            "apply" => Some(Road::Apply),
            "list" => Some(Road::List),
            "ones" => Some(Road::Ones),
            "desk" => Some(Road::Desk),
            "script" => Some(Road::Script),
            _ => None,
        }
    }

    /// Its name.
    pub fn name(self) -> &'static str {
        match self {
            Road::Apply => "apply",
            Road::List => "list",
            Road::Ones => "ones",
            Road::Desk => "desk",
            Road::Script => "script",
        }
    }
}

/// How a play goes that is asked line by line at a site.
fn at_site<'a, W: Asks + Drop, R: Wait>(
    rt: &R,
    alloc: Global,
    watchers: W,
    play: &Play<'a>,
    by_ones: bool,
) -> Option<Wrong<'a>> {
    let mut site = Site::open(alloc, watchers);
    let mut venue = AtSite {
        alloc,
        site: &mut site,
        by_ones,
    };
    let wrong = first_wrong(rt, alloc, &mut venue, play);
    drop(site);
    wrong
}

/// How it ends.
fn gone_of(wrong: Option<Wrong<'_>>) -> Gone<'_> {
    match wrong {
        Some(wrong) => Gone::Wrong(wrong),
        None => Gone::AllSo,
    }
}

/// How a play goes by a road, with these watchers.
fn gone_by<'a, W: Asks + Drop, R: Wait>(
    rt: &R,
    alloc: Global,
    watchers: W,
    play: &Play<'a>,
    road: Road,
) -> Gone<'a> {
    match road {
        Road::Apply => gone_of(at_site(rt, alloc, watchers, play, false)),
        Road::Ones => gone_of(at_site(rt, alloc, watchers, play, true)),
        Road::List => gone_of(by_list(rt, alloc, watchers, play)),
        Road::Script => gone_of(by_script(alloc, watchers, play)),
        Road::Desk => by_desk(rt, alloc, watchers, play),
    }
}

/// How a play goes by a road.
pub fn played<'a, R: Wait>(rt: &R, alloc: Global, play: &Play<'a>, road: Road) -> Gone<'a> {
    let mut watchers = Watchers::new(alloc);
    for watch in &play.watches {
        let Some(watcher) = watcher_of!(alloc, watch) else {
            return Gone::NotMade;
        };
        if watchers.add(watcher).is_err() {
            return Gone::NotMade;
        }
    }
    gone_by::<Watchers, R>(rt, alloc, watchers, play, road)
}
