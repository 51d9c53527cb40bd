//! Calls of the crates below the top call that no row of a run reaches: walks and tables of worked maps, boards, workers in threads, and tasks
//! that they share.
#![tactic(auto)]

#[cfg(test)]
mod boards;
#[cfg(test)]
mod calls;
#[cfg(test)]
mod crews;
#[cfg(test)]
mod grounds;
pub mod meeting;
#[cfg(test)]
mod meshes;
#[cfg(test)]
mod threads;
#[cfg(test)]
mod walks;
#[cfg(test)]
mod watched;
