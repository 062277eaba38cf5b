//! The lock of a key at a replica: its callers take turns by tickets, and a journal keeps what each did.
#![tactic(auto)]

mod gate;
mod journal;
mod lock;
mod plays;
mod seat;
mod view;

pub use gate::{Gate, NoGate};
pub use lock::KeyLock;
pub use seat::Seat;
