//! Worked maps and certificates as whole files, made-up maps, and what stands where a run is tried. For the tests of the crates beside it.
#![tactic(auto)]

pub mod certs;
pub mod dice;
pub mod files;
pub mod maps;
pub mod pictures;
pub mod rooms;
pub mod rows;
pub mod stages;
pub mod texts;
