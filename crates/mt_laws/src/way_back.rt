//! Laws on the ways back: Undo, Cancel and ReverseTraffic.
ghost use Rattle.std.specs.Prelude.{◌≡◌, ◌↔◌, ℕ, false, true, List, [], ◌∷◌, None, Some, codes, option_map};
ghost use Rattle.mt_laws.specs.WayBack.{IsBegin, IsReached, NoWayBetween, SinceCreate, WayFrom, in_part};
ghost use Rattle.mt_model.specs.declared.entries.EntryKey.{EntryKey};
ghost use Rattle.mt_model.specs.declared.entries.EntryKey.TheVariants as about;
ghost use Rattle.mt_names.specs.declared.types.TypeSet.{TypeSet};
ghost use Rattle.mt_names.specs.Types.{no_types};
ghost use Rattle.mt_plain.specs.Answers.{Answers};
ghost use Rattle.mt_plain.specs.Events.{Event, begin_switch, begin_reverse, step, undo, cancel, Answer, done, Way};
ghost use Rattle.mt_plain.specs.Drive.{way_of};
ghost use Rattle.mt_plain.specs.Next.{next};
ghost use Rattle.mt_plain.specs.Plain.{Live, Plain, changed_types, each_once, live_at, stands_done, write_journal};
ghost use Rattle.mt_plain.specs.Serve.{served_entry};

/// Before the journal an undo with the right number is done, and so is a cancel where nothing is switched and no way is
/// open: no other answer can come, out of memory and a watcher's refusal included.
pub fn a_way_back_is_open_before_the_journal()
    ensures undo { (p : Plain) (name : List ℕ) (w : Live) (way : Way) → live_at p name ≡ Some w → w.way ≡ Some way
        → stands_done way write_journal ≡ false → (answer : Answer) → Answers p (undo name way.done) answer ↔ (answer ≡ done) }
    ensures cancel { (p : Plain) (name : List ℕ) (w : Live) → live_at p name ≡ Some w → w.way ≡ None
        → w.switched ≡ no_types → (answer : Answer) → Answers p (cancel name) answer ↔ (answer ≡ done) }
{}

/// After a cancel that is taken each entry of the workflow's part is what it was before the create that made the workflow,
/// whatever came between; each other entry is what it was just before the cancel. The part is that of the sides and tables
/// that the create named, each table once.
pub fn cancel_gives_the_part_back()
    ensures sides { (name source target : List ℕ) (tables : List (List ℕ)) (p q : Plain) → IsReached p
        → SinceCreate name source target tables p q → (w : Live) → live_at q name ≡ Some w
        → (w.source ≡ source) × (w.target ≡ target) × (w.tables ≡ each_once tables) }
    ensures part { (name source target : List ℕ) (tables : List (List ℕ)) (p q : Plain) → IsReached p
        → SinceCreate name source target tables p q → Answers q (cancel name) done → (key : EntryKey)
        → in_part q name key ≡ true → served_entry (next q (cancel name) done) key ≡ served_entry p key }
    ensures others { (name source target : List ℕ) (tables : List (List ℕ)) (p q : Plain) → IsReached p
        → SinceCreate name source target tables p q → Answers q (cancel name) done → (key : EntryKey)
        → in_part q name key ≡ false → served_entry (next q (cancel name) done) key ≡ served_entry q key }
{}

/// A way in either direction that was closed by an undo leaves each entry of the workflow's part as it was when the way was
/// begun, whatever came between.
pub fn an_abandoned_way_gives_the_part_back()
    ensures { (name : List ℕ) (begin : Event) (at : ℕ) (p q : Plain) → IsReached p → IsBegin name begin
        → WayFrom name begin (undo name at) p q → (key : EntryKey) → in_part p name key ≡ true
        → served_entry q key ≡ served_entry p key }
{}

/// A switch and a reversal of just the types that it switched, both to their last step, leave each entry of the workflow's
/// part as it was before the switch, whatever came between, as long as no other traffic command of that workflow came to
/// its end between. The same holds of any two ways that change the same types.
pub fn a_reversal_gives_the_part_back()
    ensures reversal { (name : List ℕ) (types back_types : TypeSet) (at at_back : ℕ) (p q r s : Plain) → IsReached p
        → WayFrom name (begin_switch name types) (step name at) p q → NoWayBetween name q r
        → WayFrom name (begin_reverse name back_types) (step name at_back) r s
        → option_map changed_types (way_of (next p (begin_switch name types) done) name)
        ≡ option_map changed_types (way_of (next r (begin_reverse name back_types) done) name)
        → (key : EntryKey) → in_part p name key ≡ true → served_entry s key ≡ served_entry p key }
    ensures any_two { (name : List ℕ) (begin again : Event) (at at_again : ℕ) (p q r s : Plain) → IsReached p
        → IsBegin name begin → IsBegin name again → WayFrom name begin (step name at) p q → NoWayBetween name q r
        → WayFrom name again (step name at_again) r s
        → option_map changed_types (way_of (next p begin done) name)
        ≡ option_map changed_types (way_of (next r again done) name)
        → (key : EntryKey) → in_part p name key ≡ true → served_entry s key ≡ served_entry p key }
{}

/// What the three laws above presuppose does happen: a table is moved, and the move is cancelled; all its traffic is
/// switched, step by step, and reversed; and a switch is abandoned behind two steps.
pub fn each_way_back_can_be_taken()
    ensures cancel { (p : Plain) × (q : Plain) × IsReached p
        × SinceCreate (codes "w") (codes "a") (codes "b") (codes "t" ∷ []) p q × Answers q (cancel (codes "w")) done
        × (in_part q (codes "w") (about.Denied (codes "b") (codes "t")) ≡ true) }
    ensures undo { (p : Plain) × (q : Plain) × (types : TypeSet) × IsReached p
        × WayFrom (codes "w") (begin_switch (codes "w") types) (undo (codes "w") 1) p q }
    ensures reversal { (p : Plain) × (q : Plain) × (r : Plain) × (s : Plain) × (types : TypeSet) × IsReached p
        × WayFrom (codes "w") (begin_switch (codes "w") types) (step (codes "w") 11) p q × NoWayBetween (codes "w") q r
        × WayFrom (codes "w") (begin_reverse (codes "w") types) (step (codes "w") 11) r s
        × (option_map changed_types (way_of (next p (begin_switch (codes "w") types) done) (codes "w"))
        ≡ option_map changed_types (way_of (next r (begin_reverse (codes "w") types) done) (codes "w"))) }
{}
