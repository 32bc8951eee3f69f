//! What is told of the streams of a workflow.
ghost use Rattle.std.specs.Prelude.{◌≡◌, ◌≤◌, length};

use arrayvec::ArrayVec;
use mt_names::{KeyRange, MAX_SHARDS, Position};
use mt_stream::StreamState;
use std::default::MadeWith;

/// What is told of a stream. (Vitess: Show of MoveTables)
#[derive(Clone, Copy, Debug, Eq, PartialEq)]
pub struct ShownStream {
    /// What it does.
    pub state: StreamState,
    /// The position up to which it has read its source's log.
    pub position: Position,
}

/// What is told of the streams for one shard of the target. (Vitess: Show of MoveTables)
#[derive(Debug, Drop, Eq, PartialEq)]
pub struct ShownLane {
    /// The range of the shard.
    pub range: KeyRange,
    /// The forward stream.
    pub forward: ShownStream,
    /// Whether its copy has ended.
    pub copied: bool,
    /// The back stream, if there is one.
    pub back: Option<ShownStream>,
}

/// The blank that an `ArrayVec` of lanes keeps in its unused places.
impl MadeWith<()> for ShownLane {
    fn made_with(_alloc: ()) -> Self {
        let forward = ShownStream {
            state: StreamState::Stopped,
            position: 0,
        };
        ShownLane {
            range: KeyRange::whole(),
            forward,
            copied: false,
            back: None,
        }
    }
}

impl ShownLane {
    ghost use Rattle.std.specs.Prelude.{◌≡◌};

    /// A copy. It takes no memory.
    pub fn copied(&self) -> Self
        ensures { result ≡ self.now }
    {
        ShownLane {
            range: self.range.copied(),
            forward: self.forward,
            copied: self.copied,
            back: self.back,
        }
    }
}

/// A copy of the lanes, as a list of its own. It takes no memory.
pub(crate) fn copied_lanes(lanes: &[ShownLane]) -> ArrayVec<ShownLane, MAX_SHARDS>
    requires { length lanes.now ≤ MAX_SHARDS }
    ensures { result.items ≡ lanes.now }
{
    let mut list = ArrayVec::new_in(());
    for lane in lanes {
        list.push(lane.copied());
    }
    list
}
