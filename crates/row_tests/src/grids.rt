//! Rows of large maps, most of them made of rooms and corridors.

use crate::table::hold;
use std::test::Fail;

/// Each made map is sound. A square of n rooms a side has 3 n n - 2 n sectors, 12 n n - 8 n points and
/// 4 n n + 12 n (n - 1) lines.
const SOUND: &str = "\
a=grid:1 | audit a MAP01 | 0 | sound lines 4 points 4 sectors 1 triangles ..
a=grid:2 | audit a MAP01 | 0 | sound lines 40 points 32 sectors 8 triangles ..
a=grid:3 | audit a MAP01 | 0 | sound lines 108 points 84 sectors 21 triangles ..
a=grid:4 | audit a MAP01 | 0 | sound lines 208 points 160 sectors 40 triangles ..
a=grid:5 | audit a MAP01 | 0 | sound lines 340 points 260 sectors 65 triangles ..
a=grid:6 | audit a MAP01 | 0 | sound lines 504 points 384 sectors 96 triangles ..
a=grid:7 | audit a MAP01 | 0 | sound lines 700 points 532 sectors 133 triangles ..
a=grid:8 | audit a MAP01 | 0 | sound lines 928 points 704 sectors 176 triangles ..
a=grid:9 | audit a MAP01 | 0 | sound lines 1188 points 900 sectors 225 triangles ..
a=grid:10 | audit a MAP01 | 0 | sound lines 1480 points 1120 sectors 280 triangles ..
a=grid:11 | audit a MAP01 | 0 | sound lines 1804 points 1364 sectors 341 triangles ..
a=grid:12 | audit a MAP01 | 0 | sound lines 2160 points 1632 sectors 408 triangles ..
a=grid:13 | audit a MAP01 | 0 | sound lines 2548 points 1924 sectors 481 triangles ..
a=grid:14 | audit a MAP01 | 0 | sound lines 2968 points 2240 sectors 560 triangles ..
a=grid:15 | audit a MAP01 | 0 | sound lines 3420 points 2580 sectors 645 triangles ..
a=grid:16 | audit a MAP01 | 0 | sound lines 3904 points 2944 sectors 736 triangles ..
a=grid:17 | audit a MAP01 | 0 | sound lines 4420 points 3332 sectors 833 triangles ..
a=grid:18 | audit a MAP01 | 0 | sound lines 4968 points 3744 sectors 936 triangles ..
# as many points as a map may have
a=apart:2048 | audit a MAP01 | 10 | refused: bad map: open 0R
";

/// Built and checked in memory, by some numbers of workers.
const BUILT: &str = "\
a=SQUARE | grid 1 | 0 | grid 1 sectors 1 set 0 clear 1 listed 0 check yes | a=SQUARE
a=SQUARE | grid 2 | 0 | grid 2 sectors 8 set 12 clear 24 listed 0 check yes
| grid 2 --workers 1 | 0 | =
| grid 2 --workers 3 | 0 | =
| grid 2 --workers 64 | 0 | =
| grid 2 --hexen | 0 | =
| grid --hexen 2 --workers 1 | 0 | =
| grid 2 --exact | 0 | =
| grid 2 --exact --hexen --workers 1 | 0 | =
| grid 4 --exact | 0 | grid 4 sectors 40 set 576 clear 244 listed 0 check yes
| grid 4 --workers 1 | 0 | =
| grid 6 --workers 1 | 0 | grid 6 sectors 96 .. check yes
| grid 6 --workers 3 | 0 | =
| grid 6 --workers 64 | 0 | =
| grid 12 --workers 1 | 0 | grid 12 sectors 408 .. check yes
| grid 12 --workers 64 | 0 | =
| grid 18 | 0 | grid 18 sectors 936 .. check yes
";

/// Each limit of a map's size, the usual one and the larger one.
const LARGE: &str = "\
# 4,097 points: 2,048 lines apart, and a line to one point more
a=apart:2048 .3 <0000ffff .1 <001000000100000000000000ffff | zero a MAP01 b | 9 | refused: limit: points | b=
| zero a MAP01 b --large | 0 | zero MAP01 sectors 1 bytes 1
| audit a MAP01 | 9 | refused: limit: points
| audit --large a MAP01 | 10 | refused: bad map: open 0R
| all a b | 0 | all maps 1 built 0 refused 1
| all a b --large --report r | 0 | all maps 1 built 0 refused 1 | r=#4d41503031207265667573656420626164206d61703a206f70656e203052206b65707420636c6561720a
| all a b --large --refused clear | 0 | all maps 1 built 0 refused 1 cleared 1
# 16,383 points and 16,384
a=apart:8191 .3 <0000ffff .1 <fe3f00000100000000000000ffff | zero a MAP01 b --large | 0 | zero MAP01 sectors 1 bytes 1
a=apart:8192 | zero a MAP01 b --large | 9 | refused: limit: points | b=
# 16,385 lines, none of which has points that are there, and 32,768 and 32,769
a=SQUARE .1 *229390 | zero a MAP01 b | 9 | refused: limit: lines | b=
| zero a MAP01 b --large | 8 | refused: bad lump: vertex of line 0 | b=
a=SQUARE .1 *458752 | zero a MAP01 b --large | 8 | refused: bad lump: vertex of line 0 | b=
a=SQUARE .1 *458766 | zero a MAP01 b --large | 9 | refused: limit: lines | b=
a=SQUARE .1 *524304 +6:BEHAVIOR | zero a MAP01 b --large | 9 | refused: limit: lines | b=
# 4,097 sectors, 16,384 and 16,385
a=SQUARE .4 *106522 | zero a MAP01 b | 9 | refused: limit: sectors | b=
| zero a MAP01 b --large | 0 | zero MAP01 sectors 4097 bytes 2098177
a=SQUARE .4 *425984 | zero a MAP01 b --large | 0 | zero MAP01 sectors 16384 bytes 33554432
a=SQUARE .4 *426010 | zero a MAP01 b --large | 9 | refused: limit: sectors | b=
# a certificate of a map of 16,383 points, and one of 8,193 triangles, for a small map
a=U =4400, c=#U-CERT @8:2:ff3f | check a MAP01 c --large | 1 | no cert: range 8
a=U =4400, c=#U-CERT @12:2:0120 | check a MAP01 c | 1 | no cert: range 12
| check a MAP01 c --large | 1 | no cert: range 12
# small maps by the larger limits
a=U =4400, c=#U-CERT | check a MAP01 c --large | 0 | yes sectors 3 set 1 clear 5 listed 0
a=U | build a MAP01 b --cert c --large | 0 | built MAP01 sectors 3 set 1 clear 5 listed 0 | b=U =4400, a=U, c<=#U-GROUPS @26:149:
| check b MAP01 c | 0 | yes sectors 3 set 1 clear 5 listed 0
a=U | audit a MAP01 --large | 0 | sound lines 12 points 10 sectors 3 triangles 8
a=U | need a MAP01 --large | 0 | need MAP01 most 4 enough 2000
a=U | sound a MAP01 0 2 --large | 0 | noise 0 2 by 5L 3R
a=U | trace a MAP01 5L,5R,-1,0,32 --large | 0 | trace 0 1
a=PAIR | ray a MAP01 2R,2L,0,1,-32 --large | 0 | sight 0 1
a=U | all a b --large | 0 | all maps 1 built 1 refused 0 | b=U =4400
# words and names
a=U | grid 2 --large | 2 | refused: usage
a=U | grid 2 --exact --budget full | 2 | refused: usage
a=U | zero a MAP01 b --large=true | 2 | refused: usage | b=
a=U | zero a MAP01 b --large --large | 2 | refused: usage | b=
a=U | zero a MAP01 a --large | 11 | refused: same name | a=U
";

#[test]
fn the_larger_limits_are_asked_for(rt: HostRuntime) -> Result<(), Fail> {
    hold(&rt, rt.alloc(), LARGE)
}

#[test]
fn large_maps_are_audited(rt: HostRuntime) -> Result<(), Fail> {
    hold(&rt, rt.alloc(), SOUND)
}

#[test]
fn made_maps_are_built_and_checked(rt: HostRuntime) -> Result<(), Fail> {
    hold(&rt, rt.alloc(), BUILT)
}
