//! What the top call promises, as laws of words and files alone: what holds of the orders together, and of what they write.
#![tactic(auto)]

mod headline;
mod laws;
mod pairs;

pub use headline::{
    all_is_exact, all_is_right, build_leaves_lumps, builds_leave_one_wad, built_is_right,
    checked_is_right, exact_is_right, verified_is_right,
};
pub use laws::{
    all_is_as_build, all_is_done, all_keeps_lumps, build_is_done, build_keeps_lumps,
    build_with_room_is_done, builds_say_one_thing, built_is_checked, built_run_is_checked,
    draw_leaves_picture, drawn_pair_is_done, why_is_done, zero_keeps_lumps,
};
pub use pairs::{drawn_pair_is_right, pairs_are_decided, why_is_right};
