//! Vectors of the plane, functionals, weighted means, finite searches and the walk along a segment: proofs alone, over whole numbers.
#![tactic(auto)]
