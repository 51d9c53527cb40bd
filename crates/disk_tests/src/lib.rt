//! What real files and the standard output do, by the steps that a text gives.
#![tactic(auto)]

#[cfg(test)]
mod steps;
