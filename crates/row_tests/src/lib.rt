//! Rows of all verbs as text, run by the top call over files in memory; what listeners hear of a run; and a run on a real disk.
#![tactic(auto)]

#[cfg(test)]
mod grids;
#[cfg(test)]
mod json;
#[cfg(test)]
mod listening;
#[cfg(test)]
mod on_disk;
#[cfg(test)]
mod pair_rows;
#[cfg(test)]
mod rows;
#[cfg(test)]
mod table;
#[cfg(test)]
mod table_rows;
#[cfg(test)]
mod texts;
