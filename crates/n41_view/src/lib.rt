//! What a journal says, as a record of tables, and the step by which each event moves it.
#![tactic(auto)]

mod laws;
mod tables;

pub use laws::{
    the_view_steps, the_view_tells_causes, the_view_tells_the_end, the_view_tells_what_is_awaited,
    the_view_tells_what_is_due, the_view_tells_what_is_old, the_view_tells_what_may_follow,
};
pub use tables::{Facts, Held, PutOffs, Seat, Slot};
