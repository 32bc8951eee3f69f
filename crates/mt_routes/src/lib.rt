//! What routers are shown: a list of publications, which only grows. Each is a value that nobody changes, and that all who know of it
//! share; a router looks names up in it and waits for nobody. (Vitess: routers watch the serving VSchema and route by the copy that
//! they hold.)
#![tactic(auto)]

mod added;
mod differences;
mod head;
mod holders;
mod law;
mod laws;
mod maps;
mod places;
mod publication;
mod publisher;
mod router;
mod shown;
mod told;
mod turn;

pub use added::Added;
pub use differences::Standing;
pub use head::{Head, Opened};
pub use law::{Law, Naming};
pub use laws::{
    fronts_never_fall, look_ups_are_refused_in_two_ways, routes_lead_as_their_topology,
    routes_of_a_topology_say_each_of_themselves, routes_say_what_their_topology_says,
    what_is_written_agrees,
};
pub use places::Places;
pub use publication::{Front, Next, Publication};
pub use publisher::{Begun, Publisher};
pub use router::{MAX_ROUTERS, Router, RoutersFull};
pub use shown::Counts;
pub use told::Told;
pub use turn::{Place, Turn};
