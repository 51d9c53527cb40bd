//! Runs that no row tells whole: of which each call fails once, of made-up maps, by workers that wait for each other, and by the
//! program's own words.
#![tactic(auto)]

#[cfg(test)]
mod bits;
#[cfg(test)]
mod faults;
#[cfg(test)]
mod once;
#[cfg(test)]
mod running;
#[cfg(test)]
mod threads;
#[cfg(test)]
mod trials;
#[cfg(test)]
mod words;
