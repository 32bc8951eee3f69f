//! Streams: copying the rows of some tables from one primary to another, and following the log of the first from then on.
#![tactic(auto)]

mod copying;
mod fault;
mod following;
mod laws;
mod stream;

pub use fault::StreamFault;
pub use laws::{the_copied_range_follows_the_source, the_rows_left_are_the_uncopied_rows};
pub use stream::{Advanced, Stream, StreamState};
