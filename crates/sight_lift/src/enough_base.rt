//! Mathematics of a budget that is enough: inner tangents, and how many sequences of portals a line can pass: proofs alone.
