//! The headline: what holds of every run.
ghost use Rattle.std.specs.Prelude.{List, ◌++◌};
ghost use Rattle.mt_laws.specs.Headline.{Headline};
ghost use Rattle.mt_laws.specs.WayBack.{IsReached};
ghost use Rattle.mt_model.specs.declared.entries.Scope.{Scope};
ghost use Rattle.mt_plain.specs.Answers.{Run, after};
ghost use Rattle.mt_plain.specs.Events.{Event, Answer};
ghost use Rattle.mt_plain.specs.Plain.{Plain, opening};

/// Whatever client calls, stream steps, rule edits and workflow commands come, in whatever order, `Headline` holds of the lines of their
/// run: Cancel gives back the workflow's part of the topology from before Create, and leaves every other entry as it was just before;
/// ReverseTraffic gives back the part from before SwitchTraffic, an abandoned switch or reversal that from its start; no moved table is
/// ever writable in two keyspaces, and where no way is open it is in the owner, at each shard; each primary read answers from the
/// acknowledged writes, each once. With them stand the rows of a move: each write to a moved table is acknowledged at the owner; the other
/// side answers what the writes that were fed leave; as many were not fed yet as stand past the position of the stream that runs; where
/// reads are switched to the other side, and where the journal hands the tables over, that side has every row of the owner; and Complete
/// leaves the target its rows. The run may begin in any state that is reached, whatever workflows are live and whatever was written before;
/// one from an opening is such a run, and so is one with the lines of an earlier run before it, where a workflow may have been made, or a
/// switch begun.
pub fn every_run_keeps_the_headline()
    ensures from_each_state { (p : Plain) (events : List Event) (answers : List Answer) → IsReached p → Run p events answers
        → Headline p events answers }
    ensures with_earlier_lines { (p : Plain) (earlier events : List Event) (earlier_answers answers : List Answer)
        → IsReached p → Run p earlier earlier_answers → Run (after p earlier earlier_answers) events answers
        → Headline p (earlier ++ events) (earlier_answers ++ answers) }
    ensures from_the_opening { (scopes : List Scope) (events : List Event) (answers : List Answer)
        → Run (opening scopes) events answers → Headline (opening scopes) events answers }
{}
