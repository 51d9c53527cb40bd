//! Calls that the program doesn't make, or doesn't make so: certificates in pieces and in threads, faces with several
//! names, every map of a WAD, and texts of UDMF.
#![tactic(auto)]

#[cfg(test)]
mod certs;
#[cfg(test)]
mod exact_rows;
#[cfg(test)]
mod groups;
#[cfg(test)]
mod plans;
#[cfg(test)]
mod texts;
#[cfg(test)]
mod verdicts;
#[cfg(test)]
mod wads;
