//! What a controller knows of the way that it goes.
ghost use Rattle.std.specs.Prelude.{◌≡◌, ◌≤◌, ◌<◌, IfOk, min};
ghost use Rattle.mt_names.specs.Shards.{most_shards};
ghost use Rattle.mt_workers.specs.Controls.{course_of, course_on, feeding_position, most_places, position_on, positions_on, with_done, with_position};

use mt_desk::Answer;
use mt_event::{Refusal, Reply, Shown, ShownLane};
use mt_names::{MAX_SHARDS, Position};
use mt_workflow::Way;

/// No way has more places.
const MOST_PLACES: u64 = 19;

/// What a controller knows of the way that it goes.
#[derive(Clone, Copy)]
pub(crate) struct Course {
    /// The way, with how many of its places stand done.
    pub way: Way,
    /// The positions of the feeding streams, by shard.
    pub positions: [Position; MAX_SHARDS],
    /// How many tries are left.
    pub tries: u64,
}

impl Course {
    /// The same with so many places done.
    pub fn with_done(self, done: u8) -> Self
        ensures { result ≡ with_done self done }
    {
        let way = Way { done, ..self.way };
        Course { way, ..self }
    }

    /// The same with another position of the feeding stream of a shard.
    pub fn with_position(mut self, shard: u8, position: Position) -> Self
        requires { shard < most_shards }
        ensures { result ≡ with_position self shard position }
    {
        self.positions[usize::from(shard)] = position;
        self
    }
}

/// The number of places that are told to stand done, at most those of a way.
pub(crate) fn places_told(told: u64) -> u8
    ensures told { result ≡ min told most_places }
    ensures few { result ≤ most_places }
{
    if told < MOST_PLACES { told as u8 } else { 19 }
}

/// The position of the stream of a lane that feeds on a way.
fn feeding_position(lane: &ShownLane, back: bool) -> Position
    ensures { result ≡ feeding_position back lane.now }
{
    match (back, lane.back) {
        (false, _) => lane.forward.position,
        (true, Some(stream)) => stream.position,
        (true, None) => 0,
    }
}

/// The position that Show told of the stream of a shard that feeds on a way.
fn position_on(shown: &Shown, back: bool, shard: usize) -> Position
    ensures { result ≡ position_on shown.now back shard }
{
    match shown.lanes.get(shard) {
        Some(lane) => feeding_position(lane, back),
        None => 0,
    }
}

/// The positions that Show told of the streams that feed on a way, by shard.
fn positions_on(shown: &Shown, back: bool) -> [Position; MAX_SHARDS]
    ensures { result ≡ positions_on shown.now back }
{
    let mut positions = [0; MAX_SHARDS];
    for shard in 0..MAX_SHARDS {
        positions[shard] = position_on(shown, back, shard);
    }
    positions
}

/// What Show told of the way that is open.
fn course_on(tries: u64, shown: &Shown, way: Way) -> Course
    ensures course { result ≡ course_on tries shown.now way }
    ensures done { result.way.done ≤ most_places }
    ensures shards { result.way.shards ≤ most_shards }
{
    let way = Way {
        shards: shown.lanes.len() as u8,
        done: places_told(u64::from(way.done)),
        ..way
    };
    Course {
        way,
        positions: positions_on(shown, way.back),
        tries,
    }
}

/// What an answer to Show tells of the way that is open; if none is, the refusal that the controller ends with.
pub(crate) fn course_of(tries: u64, none: Refusal, answer: Answer) -> Result<Course, Refusal>
    ensures course { result ≡ course_of tries none answer }
    ensures few { IfOk result (λ course. (course.way.done ≤ most_places) × (course.way.shards ≤ most_shards)) }
{
    let Reply::Shown(shown) = answer? else {
        return Err(none);
    };
    match shown.way {
        Some(way) => Ok(course_on(tries, &shown, way)),
        None => Err(none),
    }
}
