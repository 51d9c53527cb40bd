//! Proofs alone: the sectors of a face whose sides name several, and sight between groups of sectors.
