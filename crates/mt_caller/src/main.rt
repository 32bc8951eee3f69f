//! Two moves by a caller of the controller: a table that one caller moves through a `Site`, and another that workers move at a desk, while a
//! client writes to it. It stands on the top crates alone, as a program of yours may.
#![tactic(auto)]

mod alone;
mod names;
mod together;

use crate::alone::move_alone;
use crate::names::{source, target};
use crate::together::move_together;
use mt_site::{Scope, Site, Watchers, telling_watcher};
use std::io;
use std::io::Write;
use std::process::ExitCode;

/// What is told of both moves.
fn told(alone: bool, together: bool) -> &'static str {
    match (alone, together) {
        (true, true) => "corder moved\nproduct moved\n",
        (true, false) => "corder moved\n",
        _ => "",
    }
}

fn main(rt: HostRuntime) -> ExitCode {
    let mut watchers = Watchers::new(rt.alloc());
    let scopes = [
        Scope::Routes,
        Scope::Primary(source()),
        Scope::Primary(target()),
    ];
    for scope in &scopes {
        let Ok(watcher) = telling_watcher!(rt.alloc(), scope.copied()) else {
            return ExitCode::FAILURE;
        };
        if watchers.add(watcher).is_err() {
            return ExitCode::FAILURE;
        }
    }
    let mut site = Site::open(rt.alloc(), watchers);
    let alone = move_alone(rt.alloc(), &mut site);
    let together = alone && move_together(&rt, rt.alloc(), site);
    match io::writer(&rt).write_all(told(alone, together).as_bytes()) {
        Ok(()) if together => ExitCode::SUCCESS,
        _ => ExitCode::FAILURE,
    }
}
