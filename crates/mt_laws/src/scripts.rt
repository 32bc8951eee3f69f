//! Laws on the output of a script.
ghost use Rattle.std.specs.Prelude.{◌≡◌, ◌↔◌, ℕ, suc, Bool, true, false, List, [], ◌∷◌, codes, Option, Result, ⊤};
ghost use Rattle.std.specs.Str.Lines.{lines};
ghost use Rattle.mt_names.specs.declared.types.TypeSet.{TypeSet};
ghost use Rattle.mt_model.specs.declared.entries.Scope.{Scope};
ghost use Rattle.mt_laws.specs.Headline.{Headline};
ghost use Rattle.mt_laws.specs.Lines.{KnowsSome, line_feeds, writing_lines};
ghost use Rattle.mt_laws.specs.Scripts.{IsScriptRun};
ghost use Rattle.mt_laws.specs.Turns.{Fits, FitsHeard};
ghost use Rattle.mt_laws.specs.WayBack.{IsReached};
ghost use Rattle.mt_plain.specs.Answers.{Answers, Run};
ghost use Rattle.mt_plain.specs.Drive.{Driven, Drives, Driving, begins, event_of, heard, most_turns};
ghost use Rattle.mt_plain.specs.Next.{next};
ghost use Rattle.mt_plain.specs.Events.{
  Event,
  add_keyspace,
  add_table,
  create,
  advance,
  forward,
  begin_switch,
  step,
  Refusal,
  Answer,
  done,
  advanced,
};
ghost use Rattle.mt_plain.specs.Output.{
  AnswersWithMemory,
  IsOutput,
  IsOutputBy,
  Output,
  Reading,
  output,
  output_by,
  output_from,
  watchers_of,
};
ghost use Rattle.mt_plain.specs.Plain.{Plain, opening};
ghost use Rattle.mt_plain.specs.Script.{Command, read_line, read_line_by};

/// Where no answer is free, a script has one output, the function `output`; and that is one of the outputs that it has anyway.
pub fn output_is_what_is_written_where_memory_is_ample()
    ensures from_each_state { (reading : Reading) (p : Plain) (lines : List (List ℕ)) (out : List ℕ)
        → Output AnswersWithMemory reading p lines out ↔ (out ≡ output_from reading p lines) }
    ensures of_a_script { (reading : Reading) (scopes : List Scope) (input out : List ℕ)
        → Output AnswersWithMemory reading (opening scopes) (lines input) out ↔ (out ≡ output_by reading scopes input) }
    ensures is_an_output { (reading : Reading) (p : Plain) (lines : List (List ℕ)) (out : List ℕ)
        → Output AnswersWithMemory reading p lines out → Output Answers reading p lines out }
{}

/// Each line that isn't silent writes one line, and a silent one none: where no answer is free, and in each output. So it is for
/// the whole language, and for a reading that knows some of its commands and takes each other line for a bad one. No text that is
/// written has a line feed in it, the documents included; and a drive writes one line however it ends.
pub fn each_line_that_writes_writes_one_line()
    ensures where_memory_is_ample { (scopes : List Scope) (input : List ℕ)
        → line_feeds (output scopes input) ≡ writing_lines (lines input) }
    ensures in_each_output { (scopes : List Scope) (input out : List ℕ) → IsOutput scopes input out
        → line_feeds out ≡ writing_lines (lines input) }
    ensures of_some_commands { (read : List (List ℕ) → Option Command) → KnowsSome read → (scopes : List Scope) (input out : List ℕ)
        → IsOutputBy (read_line_by read) scopes input out → line_feeds out ≡ writing_lines (lines input) }
{}

/// No drive asks for as many events as its turns are, and each ends: however its events are answered, among the answers that they may
/// get; and a drive that ends so from a state, however many turns it is given, does so within these.
pub fn drives_end_within_their_turns()
    ensures however_answered { (pick : Plain → Event → Answer) → ((p : Plain) (event : Event) → Answers p event (pick p event))
        → (p : Plain) (workflow : List ℕ) (types : TypeSet) (backward : Bool)
        → Drives (λ q event answer. answer ≡ pick q event) most_turns (λ ended q. ⊤) (begins workflow types backward) p }
    ensures within_its_turns { (p : Plain) (workflow : List ℕ) (types : TypeSet) (backward : Bool) (turns : ℕ) (result : Result Driven Refusal)
        (left : Plain) → Drives Answers turns (λ ended q. (ended ≡ result) × (q ≡ left)) (begins workflow types backward) p
        → Drives Answers most_turns (λ ended q. (ended ≡ result) × (q ≡ left)) (begins workflow types backward) p }
{}

/// Drives end within their turns, told turn by turn for a loop that drives: a drive that begins fits in its turns, each answer leaves
/// one that fits in one turn fewer, and none fits in no turns.
pub fn a_drive_fits_in_the_turns_that_are_left()
    ensures begins { (p : Plain) (workflow : List ℕ) (types : TypeSet) (backward : Bool) → Fits most_turns p (begins workflow types backward) }
    ensures goes_on { (turns : ℕ) (p : Plain) (d : Driving) (answer : Answer) → Fits (suc turns) p d → Answers p (event_of p d) answer
        → FitsHeard turns (next p (event_of p d) answer) (heard (next p (event_of p d) answer) d answer) }
    ensures never_runs_out { (p : Plain) (d : Driving) → Fits 0 p d → ⊥ }
{}

/// Each output of a script is that of a run: the events that its lines ask for, line by line, with answers that they may get,
/// and the text that each line writes; and what such a run writes is an output. Its answers decide the rest of it, the events
/// and the text. And of each such run stands the headline, as `Headline` says it: whatever client calls, stream steps, rule
/// edits and workflow commands a script has, in whatever order, Cancel gives back the workflow's part of the topology from
/// before Create, ReverseTraffic that from before SwitchTraffic, an abandoned switch that from its start; no moved table is
/// ever writable in two keyspaces, and each primary read answers from the acknowledged writes, each once. So it is of the
/// whole language, and of each reading of lines; from an opening, and from each state that is reached.
pub fn each_output_is_that_of_a_run()
    ensures from_each_state { (reading : Reading) (p : Plain) (lines : List (List ℕ)) (out : List ℕ)
        → Output Answers reading p lines out
        → (events : List Event) × (answers : List Answer) × IsScriptRun reading p lines events answers out }
    ensures and_back { (reading : Reading) (p : Plain) (lines : List (List ℕ)) (events : List Event) (answers : List Answer)
        (out : List ℕ) → IsScriptRun reading p lines events answers out → Output Answers reading p lines out }
    ensures is_a_run { (reading : Reading) (p : Plain) (lines : List (List ℕ)) (events : List Event) (answers : List Answer)
        (out : List ℕ) → IsScriptRun reading p lines events answers out → Run p events answers }
    ensures answers_decide { (reading : Reading) (p : Plain) (lines : List (List ℕ)) (events other_events : List Event)
        (answers : List Answer) (out other : List ℕ) → IsScriptRun reading p lines events answers out
        → IsScriptRun reading p lines other_events answers other → (other_events ≡ events) × (other ≡ out) }
    ensures headline { (reading : Reading) (scopes : List Scope) (input out : List ℕ) → IsOutputBy reading scopes input out
        → (events : List Event) × (answers : List Answer) × IsScriptRun reading (opening scopes) (lines input) events answers out
        × Run (opening scopes) events answers × Headline (opening scopes) events answers }
    ensures headline_of_each_run { (reading : Reading) (p : Plain) (lines : List (List ℕ)) (events : List Event)
        (answers : List Answer) (out : List ℕ) → IsReached p → IsScriptRun reading p lines events answers out
        → Headline p events answers }
    ensures headline_from_each_state { (reading : Reading) (p : Plain) (lines : List (List ℕ)) (out : List ℕ) → IsReached p
        → Output Answers reading p lines out
        → (events : List Event) × (answers : List Answer) × IsScriptRun reading p lines events answers out
        × Run p events answers × Headline p events answers }
{}

/// What the lines of a small script did, computed: a comment asks for nothing, each command for one event, a switch in one
/// line for its begin and its steps, and a line that can't be read for none.
pub fn a_small_script_was_this_run()
    ensures { IsScriptRun read_line (opening (watchers_of (codes "a" ∷ codes "b" ∷ [])))
        (lines (codes "# a move\nkeyspace a\nkeyspace b\ntable a t\ncreate w a b t\nadvance w forward 0 100\nswitch w replica\nswitch w\n"))
        (add_keyspace (codes "a") [] ∷ add_keyspace (codes "b") [] ∷ add_table (codes "a") (codes "t")
        ∷ create (codes "w") (codes "a") (codes "b") (codes "t" ∷ []) ∷ advance (codes "w") forward 0 0 100
        ∷ begin_switch (codes "w") (record { primary = false; replica = true; rdonly = false }) ∷ step (codes "w") 0 ∷ [])
        (done ∷ done ∷ done ∷ done ∷ advanced 0 0 ∷ done ∷ done ∷ [])
        (codes "ok\nok\nok\nok\nevents 0 rows 0\nok\nrefused X1 BadLine\n") }
{}
