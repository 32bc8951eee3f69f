//! What the words of some command lines ask for, whatever the words are.
ghost use Rattle.std.specs.Prelude.{◌≡◌, ◌≢◌, ℕ, List, All, [], ◌∷◌, None, Some, codes};
ghost use Rattle.std.specs.Str.{IsUtf8};
ghost use Rattle.clap.specs.declared.error.kind.ErrorKind.TheVariants.{DisplayHelp, MissingSubcommand, UnknownArgument};
ghost use Rattle.mt_choice.specs.Keyspaces.{read_keyspaces};
ghost use Rattle.mt_choice.specs.Meaning.{AsksFor, meaning_of_names, misused, race, refusals_of, rules, topology};
ghost use Rattle.mt_choice.specs.Words.{keyspace_words};

/// `mt run` with words of which none behind it looks like an option, but for those behind a `--`, asks for a run with the
/// keyspaces that they name, or is refused for the first of them that is no name or one too many.
pub fn run_reads_its_keyspaces()
    ensures { (program : List ℕ) (words keyspaces : List (List ℕ)) → keyspace_words words ≡ Some keyspaces
        → AsksFor (program ∷ codes "run" ∷ words) (meaning_of_names (read_keyspaces keyspaces)) }
{}

/// `mt run` with another word that looks like an option is refused by `clap`, or answered with help.
pub fn run_takes_no_option()
    ensures { (program : List ℕ) (words : List (List ℕ)) → All IsUtf8 words → keyspace_words words ≡ None
        → refusals_of (program ∷ codes "run" ∷ words) ≢ [] }
{}

/// What some command lines ask for.
pub fn worked_command_lines()
    ensures rules { AsksFor (codes "mt" ∷ codes "rules" ∷ []) rules }
    ensures topology { AsksFor (codes "mt" ∷ codes "topology" ∷ []) topology }
    ensures race { AsksFor (codes "mt" ∷ codes "race" ∷ []) (race 2 10) }
    ensures most { AsksFor (codes "mt" ∷ codes "race" ∷ codes "--clients" ∷ codes "4" ∷ codes "--writes=1000" ∷ []) (race 4 1000) }
    ensures too_many_clients { AsksFor (codes "mt" ∷ codes "race" ∷ codes "--clients" ∷ codes "5" ∷ []) misused }
    ensures no_words { refusals_of (codes "mt" ∷ []) ≡ MissingSubcommand ∷ [] }
    ensures help { refusals_of (codes "mt" ∷ codes "--help" ∷ []) ≡ DisplayHelp ∷ [] }
    ensures more_words { refusals_of (codes "mt" ∷ codes "rules" ∷ codes "commerce" ∷ []) ≡ UnknownArgument ∷ [] }
{}
