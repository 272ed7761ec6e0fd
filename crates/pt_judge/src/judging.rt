//! The plain judge of histories.

mod entries;
mod flights;
mod holdings;
mod links;
mod lives;
mod queues;
mod resumed;
mod state;
mod trial;

pub use flights::Flights;
pub use resumed::Holding;
pub use state::State;
pub use trial::{replay, replay_from};
