//! Mathematics of a ray's stretch: the triangles that it passes, and the segments that it meets in them: proofs alone.
