//! A segment of a log.
ghost use Rattle.std.specs.Prelude.{◌≡◌, slice_get};
ghost use Rattle.std.specs.Option.{option_copied};

use mt_model::RowChange;
use std::marker::Model;

/// A segment that is whole: 256 entries.
#[derive(Drop)]
pub(crate) struct Segment {
    pub(crate) entries: Vec<RowChange>,
}

impl Model for Segment {
    ghost use Rattle.mt_store.specs.Segments.{SegmentState};

    ghost Value = { SegmentState };

    ghost view = { λ segment. segment.entries.items };
}

impl Segment {
    /// The entry at a place.
    pub(crate) fn entry(&self, place: usize) -> Option<&RowChange>
        ensures { option_copied result ≡ slice_get self.now place }
    {
        self.entries.get(place)
    }
}
