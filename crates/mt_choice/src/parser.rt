//! The command `mt` with its subcommands, as `clap` takes it.
ghost use Rattle.std.specs.Prelude.{◌≡◌, IfOk, false, [], ◌∷◌};
ghost use Rattle.clap.specs.Words.{app_of, new_app, rule_of, with_rule};
ghost use Rattle.clap.specs.declared.builder.command.Command.TheViews.{out-Command};
ghost use Rattle.mt_choice.specs.Command.{keyspace_rule, mt, number_rule, race_app, run_app, rules_app, topology_app};

use clap::{Arg, ArgAction, Command, value_parser};
use std::alloc::{AllocError, Global};

/// The ids of the arguments.
pub(crate) const KEYSPACE: &str = "KEYSPACE";

pub(crate) const CLIENTS: &str = "clients";

pub(crate) const WRITES: &str = "writes";

fn run_command<'a>(alloc: Global) -> Result<Command<'a>, AllocError>
    ensures shape { IfOk result (λ c. app_of c ≡ run_app) }
    ensures local { IfOk result (λ c. (out-Command c).has_globals ≡ false) }
{
    let keyspace = Arg::new(alloc, KEYSPACE)
        .action(ArgAction::Append)
        .help("Keyspaces whose primaries have watchers, at most 31");
    Command::new(alloc, "run")
        .about("Runs the script of standard input")
        .arg(keyspace)
}

fn rules_command<'a>(alloc: Global) -> Command<'a>
    ensures shape { app_of result ≡ rules_app }
    ensures local { (out-Command result).has_globals ≡ false }
{
    Command::new(alloc, "rules").about("Writes the canonical form of a rule document")
}

fn topology_command<'a>(alloc: Global) -> Command<'a>
    ensures shape { app_of result ≡ topology_app }
    ensures local { (out-Command result).has_globals ≡ false }
{
    Command::new(alloc, "topology").about("Writes the canonical form of a topology dump")
}

/// An option with a number of 16 bits.
fn number<'a>(alloc: Global, name: &'a str, default: &'a str, help: &'a str) -> Arg<'a>
    ensures rule { rule_of result ≡ number_rule name.now default.now }
    ensures local { result.global ≡ false }
{
    Arg::new(alloc, name)
        .long(name)
        .value_name("N")
        .value_parser(value_parser!(u16))
        .default_value(default)
        .help(help)
}

fn race_command<'a>(alloc: Global) -> Result<Command<'a>, AllocError>
    ensures shape { IfOk result (λ c. app_of c ≡ race_app) }
    ensures local { IfOk result (λ c. (out-Command c).has_globals ≡ false) }
{
    let clients = number(alloc, CLIENTS, "2", "How many clients write, 1 to 4");
    let writes = number(
        alloc,
        WRITES,
        "10",
        "How many writes each client makes, 1 to 1000",
    );
    Command::new(alloc, "race")
        .about("Runs clients while a controller switches and reverses")
        .arg(clients)?
        .arg(writes)
}

/// The command `mt`.
pub(crate) fn command<'a>(alloc: Global) -> Result<Command<'a>, AllocError>
    ensures { IfOk result (λ c. app_of c ≡ mt) }
{
    Command::new(alloc, "mt")
        .about("Moves tables from one keyspace to another while they are read and written")
        .subcommand_required(true)
        .subcommand(run_command(alloc)?)?
        .subcommand(rules_command(alloc))?
        .subcommand(topology_command(alloc))?
        .subcommand(race_command(alloc)?)
}
