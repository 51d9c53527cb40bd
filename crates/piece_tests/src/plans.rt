//! The plans of maps that rows spell.

use map_answers::find_in;
use sight_names::Plan;
use std::alloc::Global;
use std::test::Fail;
use worked_maps::files::bytes_of;

/// The plan of the map of these words. Apart, so that the rest of what is found of a map isn't owned where it is used.
pub fn plan_of(alloc: Global, words: &str) -> Result<Plan, Fail> {
    match find_in(alloc, bytes_of(alloc, words)?, false, "MAP01") {
        Ok(found) => Ok(found.plan),
        Err(_) => Err("no map is read".into()),
    }
}
