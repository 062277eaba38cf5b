//! A follower: commits and marks in any order and with repeats, and the one copy up to a watermark.
#![tactic(auto)]

mod commits;
mod follower;
mod lane;
mod order;
mod rows;
mod rule;

pub use follower::{Follower, Taken};
pub use mk_feed_words::{Mark, Received};
pub use rule::{KEYS, PickRule, Subscription};
