//! What readers are shown of a run: round by round a watermark and how many keys the picture up to it has, and at the end the
//! picture of all commits.
#![tactic(auto)]

mod follow;
mod gathering;
mod laws;
mod marks;

pub use follow::follow_text;
pub use laws::watermarks_are_shown;
