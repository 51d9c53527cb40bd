//! The limits of maps, of certificates and of files, each said once.

/// The points, line records and sectors of a map by the usual limits, at most.
pub const MOST_POINTS: usize = 4_096;

pub const MOST_LINES: usize = 16_384;

pub const MOST_SECTORS: usize = 4_096;

/// The same by the larger limits. There are fewer points than 2^14, so that a map has at most `MOST_TRIANGLES`
/// triangles, and a sequence of portals, which enters each triangle at most once, fewer portals than `RIGHT_END`.
pub const LARGE_POINTS: usize = 16_383;

pub const LARGE_LINES: usize = 32_768;

pub const LARGE_SECTORS: usize = 16_384;

/// The triangles and the groups of a map, at most: twice its points.
pub const MOST_TRIANGLES: usize = 32_766;

/// The triangles and the groups that a certificate may always have, however few points the map has.
pub const USUAL_TRIANGLES: usize = 8_192;

/// What the code of a right end is more than its portal's place.
pub const RIGHT_END: u16 = 32_768;

/// How far from 0 a coordinate of a point is, at most, in its map's unit: 2^25.
pub const FARTHEST: u32 = 33_554_432;

/// The lumps of a WAD, at most.
pub const MOST_LUMPS: u32 = 65_536;

/// The bytes of a WAD, at most. A certificate's file may be longer: it is read in pieces.
pub const MOST_BYTES: usize = 2_147_483_647;
