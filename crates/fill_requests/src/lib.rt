//! Of each event of a run its kind, the limbs that its row shows, and what the row asks of the small tables.
#![tactic(auto)]

mod accesses;
mod behind;
mod bits;
mod calls;
mod limbs;
mod numbers;
mod perms;
mod ranges;
mod requests;
mod same;
mod spans;

pub use behind::seen_behind;
pub use limbs::{Limbs, limbs_of};
pub use requests::{no_requests, push_requests};
pub use same::is_op;
pub use spans::respans;
