//! Integer algebra and signs; lists, options, truth values, and the order of numbers.
#![tactic(auto)]
