//! Which attempts are settled, up to which number of each client, and the outcomes that are kept.
#![tactic(auto)]

mod kept;
mod outcomes;
mod runs;
mod settled;

pub use kept::Kept;
use mk_words::Phase;
pub use settled::Settled;

/// What columns see of a replica in a round: its phase, the epoch that it has adopted, and what that epoch's base knows.
#[derive(Drop)]
pub struct ReplicaView {
    pub phase: Phase,
    pub epoch: u32,
    pub fates: Kept,
}
