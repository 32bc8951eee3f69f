//! The way that is open on a workflow, with its arithmetic, and which of its streams is meant.
ghost use Rattle.std.specs.Prelude.{◌≡◌, ◌≤◌};
ghost use Rattle.mt_plain.specs.Plain.{behind_last, changed_types, first_step, next_place, next_step, repeated_step, shard_at_place, stands_done, step_at_place, write_journal};
ghost use Rattle.mt_workflow.specs.Workflows.{way_from};

use mt_names::TypeSet;

/// Which stream of a workflow. (Vitess: the workflow of MoveTables, and its reverse workflow)
#[derive(Clone, Copy, Debug, Eq, PartialEq)]
pub enum Slot {
    /// The one that reads the source and writes the target.
    Forward,
    /// The one that reads the target and writes the source.
    Back,
}

/// A switch or a reversal of traffic that is open. (Vitess: SwitchTraffic and ReverseTraffic of MoveTables)
#[derive(Clone, Copy, Debug, Eq, PartialEq)]
pub struct Way {
    /// Whether it is a reversal.
    pub back: bool,
    /// How many shards the target has, each of which is refreshed at a place of its own.
    pub shards: u8,
    /// The switched types before it.
    pub before: TypeSet,
    /// The switched types after it.
    pub after: TypeSet,
    /// How many places of its plan stand done.
    pub done: u8,
    /// Whether an undo of it was taken, from which on no step is.
    pub undoing: bool,
}

impl Way {
    /// The number of the step that writes the journal.
    pub const JOURNAL: u8 = 6;

    /// The types that it changes. (Vitess: the tablet types of SwitchTraffic and ReverseTraffic)
    pub fn changed_types(self) -> TypeSet
        ensures { result ≡ changed_types (way_from self) }
    {
        TypeSet {
            primary: self.before.primary != self.after.primary,
            replica: self.before.replica != self.after.replica,
            rdonly: self.before.rdonly != self.after.rdonly,
        }
    }

    /// The number of its first step: 0, the reads, or 1 if it changes neither replica nor rdonly. (Vitess: reads first, then writes)
    pub fn first_step(self) -> u8
        ensures value { result ≡ first_step (way_from self) }
        ensures within { result ≤ 1 }
    {
        let types = self.changed_types();
        if types.replica || types.rdonly { 0 } else { 1 }
    }

    /// The number behind its last step: 12, or 1 if it doesn't change primary.
    pub fn behind_last(self) -> u8
        ensures value { result ≡ behind_last (way_from self) }
        ensures within { result ≤ 12 }
    {
        if self.changed_types().primary { 12 } else { 1 }
    }

    /// The step that has a place for each shard: the refresh of the target's primaries. (this profile's own)
    pub fn repeated_step(self) -> u8
        ensures { result ≡ repeated_step (way_from self) }
    {
        if self.back { 2 } else { 8 }
    }

    /// The place of its plan that is next: that of its first step, and as many more as stand done. Past its last step it is none.
    pub fn next_place(self) -> u16
        ensures { result ≡ next_place (way_from self) }
    {
        u16::from(self.first_step()) + u16::from(self.done)
    }

    /// The number of the step at a place. (this profile's own)
    pub fn step_at_place(self, place: u16) -> u16
        ensures { result ≡ step_at_place (way_from self) place }
    {
        let repeated = u16::from(self.repeated_step());
        if place <= repeated {
            return place;
        }
        let later = u16::from(self.shards.saturating_sub(1));
        repeated.max(place.saturating_sub(later))
    }

    /// The shard of the target that a place is for: the first one, but for the later places of the refresh of the target's primaries.
    /// (this profile's own)
    pub fn shard_at_place(self, place: u16) -> u8
        ensures { result ≡ shard_at_place (way_from self) place }
    {
        let repeated = u16::from(self.repeated_step());
        if self.step_at_place(place) != repeated {
            return 0;
        }
        place.saturating_sub(repeated) as u8
    }

    /// The number of the step that is next. Past its last step it names none.
    pub fn next_step(self) -> u16
        ensures { result ≡ next_step (way_from self) }
    {
        self.step_at_place(self.next_place())
    }

    /// The shard of the target that the next place is for.
    pub fn next_shard(self) -> u8
        ensures { result ≡ shard_at_place (way_from self) (next_place (way_from self)) }
    {
        self.shard_at_place(self.next_place())
    }

    /// Whether the journal has its entry: that step stands done, so that no undo is taken any more.
    pub fn is_past_journal(self) -> bool
        ensures { result ≡ stands_done (way_from self) write_journal }
    {
        self.next_step() > u16::from(Way::JOURNAL)
    }
}
