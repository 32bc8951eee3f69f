//! A play as a script, by `run_script`: what no script says is left out.

use crate::asked::{Asked, asked_by, times};
use crate::playing::{Differs, Play, Wrong};
use crate::plays::Step;
use crate::told::Told;
use mt_run::{ScriptFault, run_script};
use mt_script::first_line;
use mt_watch::Asks;
use std::alloc::Global;

/// Whether a script can say it.
fn is_said(line: &str) -> bool {
    if line.starts_with("shard ") {
        return false;
    }
    match asked_by(line) {
        Asked::Owed | Asked::Leads(_) | Asked::Log(_, _) | Asked::WithoutMemory => false,
        _ => true,
    }
}

/// Adds a line to a script, as often as it is asked; whether there was memory.
fn add_line(script: &mut Vec<u8>, line: &str, count: u64) -> bool {
    for _ in 0..count {
        if script.extend_from_slice(line.as_bytes()).is_err() || script.push(b'\n').is_err() {
            return false;
        }
    }
    true
}

/// Adds the lines of some steps; whether there was memory.
fn add_lines(script: &mut Vec<u8>, steps: &[Step<'_>]) -> bool {
    for step in steps {
        let (count, line) = times(step.line);
        if is_said(line) && !add_line(script, line, count) {
            return false;
        }
    }
    true
}

/// Whether an answer is written so, without the value that a refusal carries.
fn is_written(text: &[u8], want: &str) -> bool {
    match want.as_bytes().strip_prefix(text) {
        Some(b"") => true,
        Some([b' ', b'(', ..]) => true,
        _ => false,
    }
}

/// The rest of an output behind the answers to a step, or the first answer that isn't as it must be.
fn behind<'o>(output: &'o [u8], step: &Step<'_>) -> Result<&'o [u8], &'o [u8]> {
    let (count, line) = times(step.line);
    let mut rest = output;
    if !is_said(line) {
        return Ok(rest);
    }
    for _ in 0..count {
        let Some((text, more)) = first_line(rest) else {
            return Err(rest);
        };
        if !is_written(text, step.want) {
            return Err(text);
        }
        rest = more;
    }
    Ok(rest)
}

/// The first step that is answered otherwise.
fn first_other<'a>(output: &[u8], steps: &[Step<'a>]) -> Option<Wrong<'a>> {
    let mut rest = output;
    for step in steps {
        match behind(rest, step) {
            Ok(more) => rest = more,
            Err(text) => return wrong_at(step, Told::of_text(text)),
        }
    }
    None
}

/// A step that went otherwise.
fn wrong_at<'a>(step: &Step<'a>, told: Told) -> Option<Wrong<'a>> {
    Some(Wrong {
        step: *step,
        told,
        differs: Differs::Answer,
    })
}

/// What a script prints.
fn printed<W: Asks + Drop>(
    alloc: Global,
    watchers: W,
    script: &[u8],
) -> Result<Vec<u8>, ScriptFault> {
    let mut reader = script;
    let mut written = Vec::new(alloc);
    match run_script(alloc, &mut reader, &mut written, watchers) {
        Ok(()) => Ok(written),
        Err(fault) => {
            drop(written);
            Err(fault)
        }
    }
}

/// What goes otherwise first, if anything does.
pub fn by_script<'a, W: Asks + Drop>(
    alloc: Global,
    watchers: W,
    play: &Play<'a>,
) -> Option<Wrong<'a>> {
    let mut script = Vec::new(alloc);
    if !add_lines(&mut script, play.steps.as_slice()) {
        drop(script);
        drop(watchers);
        return wrong_at(play.steps.first()?, Told::out_of_memory());
    }
    let written = printed(alloc, watchers, script.as_slice());
    drop(script);
    match written {
        Ok(output) => {
            let found = first_other(output.as_slice(), play.steps.as_slice());
            drop(output);
            found
        }
        Err(fault) => wrong_at(
            play.steps.first()?,
            Told::of_text(fault.as_str().as_bytes()),
        ),
    }
}
