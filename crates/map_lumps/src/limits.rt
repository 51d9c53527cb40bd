//! The limits of a map: the usual ones, or the larger ones.

ghost use Rattle.std.specs.Prelude.{◌≡◌, ◌≤◌};
ghost use Rattle.sight_names.specs.declared.limits.TheConstants.{LARGE_LINES, LARGE_POINTS, LARGE_SECTORS};
ghost use Rattle.sight_names.specs.Limits.{most_lines as most_lines_lem, most_points as most_points_lem, most_sectors as most_sectors_lem};

use sight_names::{
    LARGE_LINES, LARGE_POINTS, LARGE_SECTORS, MOST_LINES, MOST_POINTS, MOST_SECTORS,
};

/// How many points a map may have.
pub fn most_points(large: bool) -> usize
    ensures most { result ≡ most_points_lem large }
    ensures few { result ≤ LARGE_POINTS }
{
    if large { LARGE_POINTS } else { MOST_POINTS }
}

/// How many LINEDEFS records it may have.
pub fn most_lines(large: bool) -> usize
    ensures most { result ≡ most_lines_lem large }
    ensures few { result ≤ LARGE_LINES }
{
    if large { LARGE_LINES } else { MOST_LINES }
}

/// How many sectors it may have.
pub fn most_sectors(large: bool) -> usize
    ensures most { result ≡ most_sectors_lem large }
    ensures few { result ≤ LARGE_SECTORS }
{
    if large { LARGE_SECTORS } else { MOST_SECTORS }
}
