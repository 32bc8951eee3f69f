//! The twelve steps.
ghost use Rattle.std.specs.Prelude.{◌≡◌, ◌<◌};
ghost use Rattle.mt_steps.specs.Plans.{number, step_at};

/// All steps in their order.
pub(crate) static ALL: [Step; 12] = [
    Step::SwitchReads,
    Step::DenySource,
    Step::RefreshSource,
    Step::CatchUp,
    Step::StopFeeding,
    Step::CreateBack,
    Step::Journal,
    Step::AllowTarget,
    Step::RefreshTarget,
    Step::SwitchWriteRules,
    Step::StartBack,
    Step::FreezeOld,
];

/// A step of a way, which is a switch of traffic, or its reversal. Of the two sides the old owner has the tables before the way, and
/// the new owner after it. A workflow has a stream in each direction for each shard of its target. The refresh of the target has a place of
/// its own in the plan for each shard, and is that of this shard's primary alone; every other step is done once, for all shards.
/// (Vitess: what SwitchTraffic and ReverseTraffic do, in this order)
///
/// | number | step | what it does | whom it asks | what refuses it | its undo |
/// |---|---|---|---|---|---|
/// | 0 | `SwitchReads` | the rules of the types replica and rdonly lead to the side that will serve them | | `F18 NotLevel`, if that side isn't the owner and a feeding stream isn't level | the rules before |
/// | 1 | `DenySource` | the topology denies the tables at the old owner | | | the denials before |
/// | 2 | `RefreshSource` | the old owner's primary takes over these denials | the watchers of that primary | `F24 NoWatcher`, `F0 Memory`, `F23 WatcherRefused` | what stood on its own list for these tables |
/// | 3 | `CatchUp` | a test that nothing is left to be fed | | `F18 NotLevel` | |
/// | 4 | `StopFeeding` | the feeding streams stop | | | they run again |
/// | 5 | `CreateBack` | streams the other way are made, stopped, each at the end of the log of the new owner that it reads | | | the streams that were there, or none |
/// | 6 | `Journal` | the journal gets an entry; from here the types are switched | | `F27 Full`, `F0 Memory` | none from here on |
/// | 7 | `AllowTarget` | the topology allows the tables at the new owner | | | |
/// | 8 | `RefreshTarget` | the new owner's primary takes over these denials | the watchers of that primary | `F24 NoWatcher`, `F0 Memory`, `F23 WatcherRefused` | |
/// | 9 | `SwitchWriteRules` | the rules for all types, and those of primary, lead to the new owner | | | |
/// | 10 | `StartBack` | the streams of step 5 start | | | |
/// | 11 | `FreezeOld` | the feeding streams are frozen; on a reversal they are taken away | | | |
#[derive(Clone, Copy, Debug, Eq, PartialEq)]
pub enum Step {
    /// The reads are switched.
    SwitchReads,
    /// The old owner is denied.
    DenySource,
    /// The old owner's primary is told.
    RefreshSource,
    /// The new owner is level.
    CatchUp,
    /// The feeding streams stop.
    StopFeeding,
    /// The streams the other way are made.
    CreateBack,
    /// The journal gets its entry.
    Journal,
    /// The new owner is allowed.
    AllowTarget,
    /// The new owner's primary is told.
    RefreshTarget,
    /// The writes are switched.
    SwitchWriteRules,
    /// The streams the other way start.
    StartBack,
    /// The feeding streams are frozen, or taken away.
    FreezeOld,
}

impl Step {
    /// Its number, from 0 to 11.
    pub fn number(self) -> u8
        ensures value { result ≡ number self }
        ensures within { result < 12 }
    {
        match self {
            Step::SwitchReads => 0,
            Step::DenySource => 1,
            Step::RefreshSource => 2,
            Step::CatchUp => 3,
            Step::StopFeeding => 4,
            Step::CreateBack => 5,
            Step::Journal => 6,
            Step::AllowTarget => 7,
            Step::RefreshTarget => 8,
            Step::SwitchWriteRules => 9,
            Step::StartBack => 10,
            Step::FreezeOld => 11,
        }
    }

    /// The step of a number.
    pub(crate) fn of_number(number: u16) -> Self
        requires { number < 12 }
        ensures { result ≡ step_at number }
    {
        ALL[usize::from(number)]
    }
}
