//! The parts of a column that change in its steps.
use crate::attempts::Attempts;
use crate::clients::Clients;
use crate::learned::Learned;
use crate::replica::Replica;
use crate::takeovers::Takeovers;
use crate::work::Work;
use mk_msg::Link;

/// The clients, attempts, takeovers, replicas and messages, the key calls under way, and what was learned.
#[derive(Drop)]
pub(crate) struct Parts {
    pub(crate) clients: Clients,
    pub(crate) attempts: Attempts,
    pub(crate) takeovers: Takeovers,
    pub(crate) replicas: Vec<Replica>,
    pub(crate) link: Link,
    pub(crate) work: Work,
    pub(crate) learned: Vec<Learned>,
}
