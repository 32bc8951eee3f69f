//! The choice that a command line makes.
ghost use Rattle.std.specs.Prelude.{◌≡◌, map, option_and_then};
ghost use Rattle.clap.specs.Words.{found_of, kind_of, one_of, rows_of, subcommand_rows_of};
ghost use Rattle.mt_choice.specs.Meaning.{AnswersKind, Chooses, Says, meaning_of_keyspaces, meaning_of_race, meaning_of_subcommand, number_up_to};

use crate::parser::{CLIENTS, KEYSPACE, WRITES, command};
use crate::{Choice, Wrong, keyspaces};
use clap::error::ErrorKind;
use clap::{ArgMatches, Error};
use std::alloc::Global;
use std::convert::AsStr;

/// The most clients of a race, and the most writes that each of them makes.
const MAX_CLIENTS: u16 = 4;

const MAX_WRITES: u16 = 1000;

/// The number that an option has, where it is 1 to `most`.
fn number(matches: &ArgMatches<'_>, id: &str, most: u16) -> Option<u16>
    ensures { result ≡ option_and_then (number_up_to most) (one_of id.now (rows_of (found_of matches.now))) }
{
    let number = matches.get_one::<u16>(id)?;
    if number < 1 || most < number {
        return None;
    }
    Some(number)
}

/// What `mt run` with these words asks for.
fn run(matches: &ArgMatches<'_>) -> Result<Choice, Wrong>
    ensures { Says (meaning_of_keyspaces (rows_of (found_of matches.now))) result }
{
    match keyspaces(matches.get_strs(KEYSPACE).unwrap_or(&[])) {
        Ok(names) => Ok(Choice::Run(names)),
        Err(fault) => Err(Wrong::Words(fault)),
    }
}

/// What `mt race` with these options asks for.
fn race(matches: &ArgMatches<'_>) -> Result<Choice, Wrong>
    ensures { Says (meaning_of_race (rows_of (found_of matches.now))) result }
{
    let Some(clients) = number(matches, CLIENTS, MAX_CLIENTS) else {
        return Err(Wrong::Usage);
    };
    let Some(writes) = number(matches, WRITES, MAX_WRITES) else {
        return Err(Wrong::Usage);
    };
    Ok(Choice::Race { clients, writes })
}

/// What the matched words ask for.
fn chosen(matches: &ArgMatches<'_>) -> Result<Choice, Wrong>
    ensures { Says (meaning_of_subcommand (subcommand_rows_of matches.now)) result }
{
    match matches.subcommand() {
        Some(("run", matched)) => run(matched),
        Some(("rules", _)) => Ok(Choice::Rules),
        Some(("topology", _)) => Ok(Choice::Topology),
        Some(("race", matched)) => race(matched),
        _ => Err(Wrong::Usage),
    }
}

/// What words that give no matches are answered with.
fn unmatched(alloc: Global, error: &Error) -> Result<Choice, Wrong>
    ensures { AnswersKind (kind_of error.now) result }
{
    match error.kind() {
        ErrorKind::DisplayHelp => match format!(in alloc; "{error}") {
            Ok(text) => Ok(Choice::Help(text)),
            Err(_) => Err(Wrong::Memory),
        },
        ErrorKind::OutOfMemory => Err(Wrong::Memory),
        _ => Err(Wrong::Usage),
    }
}

/// Reads the words of a command line, of which the first is the program's own name, as `std::env::args` gives them.
/// `Wrong::Memory` is answered only if no memory is left; the words are only lent, and nothing else is touched.
pub fn choose<'a, S: AsStr>(alloc: Global, words: &'a [S]) -> Result<Choice, Wrong>
    ensures { Chooses (map S.text words.entry.now) result }
{
    let Ok(command) = command(alloc) else {
        return Err(Wrong::Memory);
    };
    match command.try_get_matches_from(words) {
        Ok(matches) => chosen(&matches),
        Err(error) => unmatched(alloc, &error),
    }
}
