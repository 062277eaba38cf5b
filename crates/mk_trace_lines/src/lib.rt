//! The lines of traces, both ways: acts with their answers, steps, journal entries, and global lines with their answers.
#![tactic(auto)]

mod keywords;
mod numbers;
mod printing;
mod replies;
mod shapes;
mod words;

pub use keywords::keyword;
pub use printing::{client_name, key_name, key_name_at, put_change, put_entry, put_step};
pub use replies::{Replied, reply, reply_shape};
pub use shapes::{Acted, Answered, Stamped, act_shape, first, turn, value};
pub use words::{ActWord, Keyword, Replier, ReplyWord};
