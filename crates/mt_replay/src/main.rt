//! Replays files of plays: scripts with their answers, by each road that leads to the controller. What a file says
//! stands in docs/PLAYS.md.
//!
//!     mt_replay [apply|list|ones|desk|script].. [one-fails|all-fail] FILE..
//!
//! Without a road each play goes by all of them but `ones`. It prints what goes otherwise, and of each file how
//! many plays it has.
#![tactic(auto)]

mod asked;
mod at_desk;
mod at_site;
mod by_list;
mod by_script;
mod playing;
mod plays;
mod roads;
mod told;
mod twin;
mod venue;
mod watches;

use crate::at_desk::Gone;
use crate::playing::{Memory, Play, Wrong};
use crate::plays::{FileFault, Plays, Step, kept, read_plays};
use crate::roads::{Road, played};
use crate::watches::read_watches;
use std::alloc::Global;
use std::process::ExitCode;
use std::rt::Runtime;
use std::sync::Wait;
use std::{env, fs, io, str};

/// The roads of a play where none is named.
static ROADS: [Road; 4] = [Road::Apply, Road::List, Road::Desk, Road::Script];

/// What the words ask for.
#[derive(Drop)]
struct Wanted {
    roads: Vec<Road>,
    memory: Memory,
    files: Vec<String>,
}

/// Takes a word in.
fn take(wanted: &mut Wanted, word: String) -> Result<(), FileFault> {
    match word.as_str() {
        "one-fails" => wanted.memory = Memory::OneFails,
        "all-fail" => wanted.memory = Memory::AllFail,
        name => {
            if let Some(road) = Road::named(name) {
                return kept(wanted.roads.push(road).is_ok());
            }
            return kept(wanted.files.push(word).is_ok());
        }
    }
    Ok(())
}

/// What the words ask for.
fn wanted_by(alloc: Global, words: Vec<String>) -> Result<Wanted, FileFault> {
    let mut wanted = Wanted {
        roads: Vec::new(alloc),
        memory: Memory::Ample,
        files: Vec::new(alloc),
    };
    for (at, word) in words.into_iter().enumerate() {
        if at > 0 {
            take(&mut wanted, word)?;
        }
    }
    if wanted.roads.is_empty() {
        kept(wanted.roads.extend_from_slice(&ROADS).is_ok())?;
    }
    Ok(wanted)
}

/// What says how things stand in a file.
fn looks_of<'a>(alloc: Global, plays: &Plays<'a>) -> Result<Vec<Step<'a>>, FileFault> {
    match plays.looks() {
        Some(looks) => match looks.to_vec(alloc) {
            Ok(looks) => Ok(looks),
            Err(_) => Err(FileFault::Memory),
        },
        None => Ok(Vec::new(alloc)),
    }
}

/// The play that ends with a part, with so much memory.
fn play_of<'a>(
    alloc: Global,
    plays: &Plays<'a>,
    place: usize,
    memory: Memory,
) -> Result<Play<'a>, FileFault> {
    let steps = plays.steps(alloc, place)?;
    let looks = looks_of(alloc, plays)?;
    let Some(own) = plays.own_steps(place) else {
        return Err(FileFault::Memory);
    };
    let watches = read_watches(alloc, own)?;
    Ok(Play {
        steps,
        looks,
        watches,
        memory,
    })
}

/// Tells why a file, or a play of it, isn't read.
fn tell_fault<R: Runtime>(rt: &R, file: &str, fault: FileFault) -> io::Result<()> {
    match fault {
        FileFault::Memory => rt.eprintln("fault Memory"),
        FileFault::Line(number) => println!(rt; "{file}:{number}: no line of a play"),
    }
}

/// A play of a file, by their names.
#[derive(Clone, Copy)]
struct Place<'a> {
    file: &'a str,
    play: &'a str,
}

/// Tells which line went otherwise, how it was to be answered, and what was told.
fn tell_wrong(rt: &impl Print, place: Place<'_>, road: &str, wrong: &Wrong<'_>) -> io::Result<()> {
    let (file, play) = (place.file, place.play);
    let (number, line, want) = (wrong.step.number, wrong.step.line, wrong.step.want);
    let what = wrong.differs.text();
    let told = str::from_utf8(wrong.told.text()).unwrap_or("?");
    let beside = str::from_utf8(wrong.told.beside()).unwrap_or("?");
    println!(rt; "{file}:{number}: {line}")?;
    println!(rt; "  in the play '{play}', by {road}: {what} is otherwise")?;
    println!(rt; "  wanted: {want}")?;
    println!(rt; "  told:   {told}{beside}")
}

/// Whether a play goes as it must by a road; tells it if not.
fn is_played<R: Runtime + AllocGlobal + Wait>(
    rt: &R,
    alloc: Global,
    place: Place<'_>,
    play: &Play<'_>,
    road: Road,
) -> io::Result<bool> {
    let gone = played(rt, alloc, play, road);
    let road = road.name();
    match gone {
        Gone::AllSo => Ok(true),
        Gone::NotMade if play.memory == Memory::AllFail => Ok(true),
        Gone::NotMade => {
            rt.eprintln("fault Memory")?;
            Ok(false)
        }
        Gone::Ungathered => {
            let (file, name) = (place.file, place.play);
            println!(rt; "{file}: play '{name}', by {road}: its calls weren't gathered")?;
            Ok(false)
        }
        Gone::Wrong(wrong) => {
            tell_wrong(rt, place, road, &wrong)?;
            drop(wrong);
            Ok(false)
        }
    }
}

/// By how many roads a play goes otherwise.
fn wrong_roads<R: Runtime + AllocGlobal + Wait>(
    rt: &R,
    alloc: Global,
    place: Place<'_>,
    play: &Play<'_>,
    roads: &[Road],
) -> io::Result<u64> {
    let mut wrong = 0u64;
    for road in roads {
        if !is_played(rt, alloc, place, play, *road)? {
            wrong = wrong.saturating_add(1);
        }
    }
    Ok(wrong)
}

/// How many plays of a file there are, and how many go otherwise by how many roads.
fn play_all<R: Runtime + AllocGlobal + Wait>(
    rt: &R,
    alloc: Global,
    file: &str,
    plays: &Plays<'_>,
    wanted: &Wanted,
) -> io::Result<(u64, u64)> {
    let (mut count, mut wrong) = (0u64, 0u64);
    for place in 0..plays.len() {
        let Some(name) = plays.play_at(place) else {
            continue;
        };
        let play = match play_of(alloc, plays, place, wanted.memory) {
            Ok(play) => play,
            Err(fault) => {
                tell_fault(rt, file, fault)?;
                return Ok((count, wrong.saturating_add(1)));
            }
        };
        let named = Place { file, play: name };
        let more = wrong_roads(rt, alloc, named, &play, wanted.roads.as_slice())?;
        drop(play);
        wrong = wrong.saturating_add(more);
        count = count.saturating_add(1);
    }
    Ok((count, wrong))
}

/// Plays a file, and tells how many plays it has; how many go otherwise.
fn play_file<R: Runtime + AllocGlobal + Wait>(
    rt: &R,
    alloc: Global,
    name: &str,
    wanted: &Wanted,
) -> io::Result<u64> {
    let text = fs::read_to_string(rt, name)?;
    let plays = match read_plays(alloc, text.as_str()) {
        Ok(plays) => plays,
        Err(fault) => {
            tell_fault(rt, name, fault)?;
            return Ok(1);
        }
    };
    let (count, wrong) = play_all(rt, alloc, name, &plays, wanted)?;
    drop(plays);
    if wrong == 0 {
        println!(rt; "{name}: {count}")?;
    }
    Ok(wrong)
}

/// Plays all files; whether all go as they must.
fn replay<R: Runtime + AllocGlobal + Wait>(rt: &R, alloc: Global) -> io::Result<bool> {
    let words: Vec<String> = env::args(rt)?.collect(alloc)?;
    let Ok(wanted) = wanted_by(alloc, words) else {
        rt.eprintln("fault Memory")?;
        return Ok(false);
    };
    let mut wrong = 0u64;
    for file in &wanted.files {
        let more = play_file(rt, alloc, file.as_str(), &wanted)?;
        wrong = wrong.saturating_add(more);
    }
    drop(wanted);
    Ok(wrong == 0)
}

fn main(rt: HostRuntime) -> io::Result<ExitCode> {
    if replay(&rt, rt.alloc())? {
        return Ok(ExitCode::SUCCESS);
    }
    Ok(ExitCode::FAILURE)
}
