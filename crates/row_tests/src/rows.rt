//! Rows of all verbs over small maps; those of the verbs that make a table, and of those that ask of two sectors, stand beside them.

use crate::pair_rows::{SOUND, WHY};
use crate::table::hold;
use crate::table_rows::{BUILD, NEED, ZERO};
use std::alloc::Global;
use std::test::Fail;
use std::thread::Threads;
use worked_maps::certs::digits_named;

/// The orders `ray`, `audit` and `trace`.
const JUDGED: &str = "\
# given rays
a=PAIR | ray a MAP01 2R,2L,0,1,-32 | 0 | sight 0 1 | a=PAIR
a=PAIR | ray a MAP01 2L,2R,0,1,-32 | 1 | no ray: wrong way 2
a=PAIR | ray a MAP01 2R,2L,0,1,-64 | 1 | no ray: not split 2
a=PAIR | ray a MAP01 2R,9L,0,1,-32 | 1 | no ray: side 9L
a=LINE3 | ray a MAP01 2R,5L,0,1,-32 | 0 | sight 0 2
a=LINE3 | ray a MAP01 2R,05L,0,1,-32 | 0 | sight 0 2
a=LINE3 | ray a MAP01 5R,2L,0,1,-32 | 1 | no ray: backwards
a=WIDE | ray a MAP01 2R,2L,0,1073741824,0 | 0 | sight 0 1
a=WIDE | ray a MAP01 2R,2L,0,1073741825,0 | 1 | no ray: range
a=PAIR | ray a MAP01 2R,2L,-1073741824,1,0 | 1 | no ray: not split 2
a=PAIR | ray a MAP01 2R,2L,-1073741825,1,0 | 1 | no ray: range
a=PAIR | ray a MAP01 2R,2L,0,1,-144115188075855872 | 1 | no ray: not split 2
a=PAIR | ray a MAP01 2R,2L,0,1,-144115188075855873 | 1 | no ray: range
a=DOORS33 | ray a MAP01 3R,11L,-1,128,-4064 | 0 | sight 0 3
a=DOORS33 | ray a MAP01 3R,11L,-1,128,-4032 | 1 | no ray: blocked 7
a=SHUT-PAIR | ray a MAP01 2R,2L,0,1,-32 | 1 | no ray: blocked 2
a=PAIR | ray a MAP01 00002R,2L,-2147483648,2147483647,-9223372036854775808 | 1 | no ray: range
a=PAIR .1 hexen +6:BEHAVIOR | ray a MAP01 2R,2L,0,1,-32 | 0 | sight 0 1
# words that are no ray
a=PAIR | ray a MAP01 | 2 | refused: usage
a=PAIR | ray a MAP01 2R,2L,0,1 | 2 | refused: usage
a=PAIR | ray a MAP01 2R,2L,0,1,-32,0 | 2 | refused: usage
a=PAIR | ray a MAP01 2,2L,0,1,-32 | 2 | refused: usage
a=PAIR | ray a MAP01 65536R,2L,0,1,-32 | 2 | refused: usage
a=PAIR | ray a MAP01 2R,2L,+0,1,-32 | 2 | refused: usage
a=PAIR | ray a MAP01 2R,2L,2147483648,1,-32 | 2 | refused: usage
a=PAIR | ray a MAP01 2R,2L,0,1,9223372036854775808 | 2 | refused: usage
a=PAIR | audit a | 2 | refused: usage
a=PAIR | trace a MAP01 2R,5L,0,1 | 2 | refused: usage
a=PAIR | trace a MAP01 2R,5L,0,2147483648,0 | 2 | refused: usage
a=PAIR | trace a MAP01 65536R,5L,0,1,0 | 2 | refused: usage
# sound maps; two points that no line uses, and a line of zero length
a=U | audit a MAP01 | 0 | sound lines 12 points 10 sectors 3 triangles 8 | a=U
a=SQUARE | audit a MAP01 | 0 | sound lines 4 points 4 sectors 1 triangles 2
a=PAIR .1 <000000000100000000000000ffff .3 <4000200001000100 | audit a MAP01 | 0 | sound lines 7 points 6 sectors 2 triangles 4
a=NO-LINES | audit a MAP01 | 0 | sound lines 0 points 0 sectors 2 triangles 0
a=U .1 hexen +6:BEHAVIOR | audit a MAP01 | 0 | sound lines 12 points 10 sectors 3 triangles 8
# unsound ones
a=TOUCHED | audit a MAP01 | 10 | refused: bad map: touch 0 4
a=CROSSED | audit a MAP01 | 10 | refused: bad map: cross 3 4
a=OVERLAPPED | audit a MAP01 | 10 | refused: bad map: overlap 0 4
a=OPEN | audit a MAP01 | 10 | refused: bad map: open 0R
a=ROD | audit a MAP01 | 10 | refused: bad map: open 0R
# reports of every fault: `touch 0 4 at 0 32` and two loose ends; `cross 3 4 at 32 0`; `overlap 0 4 from 0 0 to 0 64`; three open sides, a
# torn corner, a gap and two loose ends. The program's exit code is 10 where `run` says that not all is right
a=TOUCHED | audit a MAP01 --report r | 1 | refused: bad map: touch 0 4 | a=TOUCHED, r=#746f7563682030203420617420302033320a6c6f6f736520656e642061742030203332206f66206c696e6520340a6c6f6f736520656e64206174203332203332206f66206c696e6520340a
a=CROSSED | audit a MAP01 --report r | 1 | refused: bad map: cross 3 4 | r=#63726f73732033203420617420333220300a6c6f6f736520656e64206174203332202d3332206f66206c696e6520340a6c6f6f736520656e64206174203332203332206f66206c696e6520340a
a=OVERLAPPED | audit a MAP01 --report r | 1 | refused: bad map: overlap 0 4 | r=#6f7665726c6170203020342066726f6d2030203020746f20302036340a
a=OPEN | audit a MAP01 --report r | 1 | refused: bad map: open 0R | r=#6f70656e203052206f6620736563746f7220302066726f6d2030203020746f20302036340a6f70656e203152206f6620736563746f7220302066726f6d203020363420746f2036342036340a6f70656e203252206f6620736563746f7220302066726f6d20363420363420746f20363420300a746f726e20636f726e6572206174203020302062792030520a6761702066726f6d2030203020746f20363420300a6c6f6f736520656e6420617420302030206f66206c696e6520300a6c6f6f736520656e642061742036342030206f66206c696e6520320a
# `sound`; then a sector that no side names, and a line that names none
a=SQUARE, r=PAIR | audit a MAP01 --report=r | 0 | sound lines 4 points 4 sectors 1 triangles 2 | a=SQUARE, r=#736f756e640a
a=LONE | audit a MAP01 --report r | 0 | sound lines 4 points 4 sectors 2 triangles 2 | r=#736f756e640a736c69703a20736563746f72203120686173206e6f20736964650a
a=SPLINTER | audit a MAP01 --report r | 0 | sound lines 5 points 6 sectors 1 triangles .. | r=#736f756e640a6c6f6f736520656e64206174203438203136206f66206c696e6520340a6c6f6f736520656e64206174203532203138206f66206c696e6520340a736c69703a206c696e65203420686173206e6f20736964652066726f6d20343820313620746f2035322031380a
# names, faults and words
a=OPEN | audit a MAP01 --report a | 11 | refused: same name | a=OPEN
a=OPEN, creates=0 | audit a MAP01 --report r | 5 | refused: write fault report | r=
a=OPEN, puts=0 | audit a MAP01 --report r | 5 | refused: bad ~ | r=#6f70656e203052206f6620736563746f7220302066726f6d2030203020746f20302036340a6f70656e203152206f6620736563746f7220302066726f6d203020363420746f2036342036340a6f70656e203252206f6620736563746f7220302066726f6d20363420363420746f20363420300a746f726e20636f726e6572206174203020302062792030520a6761702066726f6d2030203020746f20363420300a6c6f6f736520656e6420617420302030206f66206c696e6520300a6c6f6f736520656e642061742036342030206f66206c696e6520320a
a=OPEN | audit a MAP02 --report r | 7 | refused: no map: no marker | r=
a=OPEN | audit a MAP01 --report r --workers 1 | 2 | refused: usage | r=
# a face whose sides name two sectors belongs to both
a=ISLAND | audit a MAP01 | 0 | sound lines 8 points 8 sectors 2 triangles 8
a=SELFREF | audit a MAP01 | 0 | sound lines 8 points 8 sectors 2 triangles 10
# lines over the whole range
a=FAR-CROSS | audit a MAP01 | 10 | refused: bad map: cross 0 1
a=FAR-ENDS | audit a MAP01 | 0 | sound lines 2 points 3 sectors 1 triangles 0
a=FAR-OVERLAP | audit a MAP01 | 10 | refused: bad map: overlap 0 1
a=FAR-APART | audit a MAP01 | 0 | sound lines 2 points 4 sectors 1 triangles 0
a=FAR-TOUCH | audit a MAP01 | 10 | refused: bad map: touch 0 1
a=FAR-JOINED | audit a MAP01 | 0 | sound lines 2 points 3 sectors 1 triangles 0
a=FAR-PARTED | audit a MAP01 | 0 | sound lines 2 points 4 sectors 1 triangles 0
# traced rays
a=U | trace a MAP01 5L,5R,-1,0,32 | 0 | trace 0 1 | a=U
a=SELFREF | trace a MAP01 4R,6R,-1,0,96 | 0 | trace 0+1 1 0+1
a=SELFREF | ray a MAP01 4R,6R,-1,0,96 | 0 | sight 1 1
a=ISLAND | trace a MAP01 4L,6R,-1,0,96 | 1 | no ray: side 4L
a=U .1 hexen +6:BEHAVIOR | trace a MAP01 5L,5R,-1,0,32 | 0 | trace 0 1
a=DOORS33 | trace a MAP01 3R,11L,-1,128,-4032 | 1 | no trace: point 6
a=DOORS33 | trace a MAP01 3R,11L,-1,128,-3968 | 1 | no trace: solid 7
a=PAIR | trace a MAP01 2L,2R,0,1,-32 | 1 | no ray: wrong way 2
a=OPEN | trace a MAP01 0R,1R,0,1,-32 | 10 | refused: bad map: open 0R
";

/// The order `check`.
const CHECK: &str = "\
# tables
a=U =4400, c=#U-CERT | check a MAP01 c | 0 | yes sectors 3 set 1 clear 5 listed 0 | a=U =4400, c=#U-CERT
a=U =44fe, c=#U-CERT | check a MAP01 c | 0 | yes sectors 3 set 1 clear 5 listed 0
a=U =4400 .1 hexen +6:BEHAVIOR, c=#U-CERT | check a MAP01 c | 0 | yes sectors 3 set 1 clear 5 listed 0
a=U =4600, c=#U-CERT | check a MAP01 c | 1 | no unproved 0 1
# certificates with groups
a=U =4400, c=#U-GROUPS | check a MAP01 c | 0 | yes sectors 3 set 1 clear 5 listed 0
a=U =4600, c=#U-GROUPS | check a MAP01 c | 1 | no unproved 0 1
a=U =0000, c=#U-GROUPS | check a MAP01 c | 1 | no uncovered 0 2
a=ISLAND =00, c=#ISLAND-CERT | check a MAP01 c | 0 | yes sectors 2 set 0 clear 3 listed 0
a=ISLAND =02, c=#ISLAND-CERT | check a MAP01 c | 1 | no unproved 0 1
a=ISLAND =00, c=#ISLAND-CERT @34:1:00 | check a MAP01 c | 1 | no cert: order 34
a=ISLAND =00, c=#ISLAND-CERT @30:1:01 @34:2: | check a MAP01 c | 1 | no face 0
a=ISLAND =00, c=#ISLAND-CERT @12:1:02 @36:0:01000100 | check a MAP01 c | 1 | no group 1
a=U =0000, c=#U-CERT | check a MAP01 c | 1 | no uncovered 0 2
a=U =0400, c=#U-CERT | check a MAP01 c | 1 | no uncovered 0 2
a=U, c=#U-CERT | check a MAP01 c | 1 | no table: 0 bytes, 2 expected
a=U -, c=#U-CERT | check a MAP01 c | 1 | no table: 0 bytes, 2 expected
# a stuck end that isn't one, an end of a portal that is still to come, a node too few, one too many
a=U =4400, c=#U-CERT @157:1:03 | check a MAP01 c | 1 | no tree 0 node 4
a=U =4400, c=#U-CERT @157:1:05 | check a MAP01 c | 1 | no tree 0 node 4
a=U =4400, c=#U-CERT @142:1:04 @154:7: | check a MAP01 c | 1 | no tree 0 node 4
a=U =4400, c=#U-CERT @142:1:06 @161:0:0200000080 | check a MAP01 c | 1 | no tree 0 node 5
# a ray that misses its line, one of other sectors, a ray too few, a pair that is set and listed
a=U =4400, c=#U-CERT @132:8:38ffffffffffffff | check a MAP01 c | 1 | no ray 1 2: not split 3
a=U =4400, c=#U-CERT @96:20:03000380010000000000000060ffffffffffffff | check a MAP01 c | 1 | no ray 0 1: other sectors
a=U =4400, c=#U-CERT @16:1:01 @92:24: | check a MAP01 c | 1 | no uncovered 0 1
a=U =4400, c=#U-CERT @20:1:01 @140:0:00000200 | check a MAP01 c | 1 | no listed 0 2
# a triangle too few, one folded over another, one the wrong way round
a=U =4400, c=#U-CERT @12:1:07 @84:8: | check a MAP01 c | 1 | no mesh: mate 4
a=U =4400, c=#U-CERT @12:1:09 @28:0:0000030001000000 | check a MAP01 c | 1 | no mesh: twice 1
a=SQUARE =00, c=#SQUARE-CERT @30:1:01 | check a MAP01 c | 1 | no mesh: flat 0
# a side that names nothing before a triangle with a sector, a line through an edge, a line inside a triangle
a=SQUARE =00 @64:2:ffff, c=#SQUARE-CERT | check a MAP01 c | 1 | no mesh: side 3R
a=DIAGONAL =00, c=#SQUARE-CERT @10:1:05 | check a MAP01 c | 1 | no mesh: meets 0 4
a=SPLINTER =00, c=#SQUARE-CERT @8:1:06 @10:1:05 @30:3:040005 @38:1:05 | check a MAP01 c | 1 | no mesh: inside 0 2
# certificates of version 3: what they are judged by, in this order
a=U =4400, c=#U-EXACT | check a MAP01 c | 0 | yes sectors 3 set 1 clear 5 listed 0 | a=U =4400, c=#U-EXACT
a=U =4400 .1 hexen +6:BEHAVIOR, c=#U-EXACT | check a MAP01 c | 0 | yes sectors 3 set 1 clear 5 listed 0
a=DOORS =0810, c=#DOORS-EXACT | check a MAP01 c | 0 | yes sectors 4 set 1 clear 9 listed 0
a=ISLAND =00, c=#ISLAND-EXACT | check a MAP01 c | 0 | yes sectors 2 set 0 clear 3 listed 0
a=U, c=#U-EXACT | check a MAP01 c | 1 | no table: 0 bytes, 2 expected
a=U =4400, c=#U-EXACT @4:1:04 | check a MAP01 c | 1 | no cert: version
a=U =4400, c=#U-EXACT @14:4:01200000 | check a MAP01 c | 1 | no cert: range 14
a=ISLAND =00, c=#ISLAND-EXACT @26:1:00 | check a MAP01 c | 1 | no cert: order 26
a=U =4400, c=#U-EXACT @146:1:01 | check a MAP01 c | 1 | no cert: short 170
a=DOORS =0810, c=#DOORS-EXACT @270:1:0c | check a MAP01 c | 1 | no cert: short 313
a=U =4400, c=#U-EXACT @170:0:00 | check a MAP01 c | 1 | no cert: trailing 170
a=U =4400, c=#U-EXACT @14:1:07 @90:8: | check a MAP01 c | 1 | no mesh: mate 4
a=ISLAND =00, c=#ISLAND-EXACT @22:1:01 @26:2: | check a MAP01 c | 1 | no face 0
a=ISLAND =00, c=#ISLAND-EXACT @12:1:02 @28:0:01000100 @104:0:0000000000000000 | check a MAP01 c | 1 | no group 1
a=U =4400, c=#U-EXACT @138:8:38ffffffffffffff | check a MAP01 c | 1 | no ray 1 2: not split 3
a=U =4400, c=#U-EXACT @102:20:03000380010000000000000060ffffffffffffff | check a MAP01 c | 1 | no ray 0 1: other sectors
a=DOORS =0810, c=#DOORS-EXACT @313:2:0180 | check a MAP01 c | 1 | no tree 0 node 6
a=U =4600, c=#U-EXACT | check a MAP01 c | 1 | no unproved 0 1
a=U =0000, c=#U-EXACT | check a MAP01 c | 1 | no uncovered 0 2
# bytes that spell no certificate, at each field
a=U =4400, c=#U-CERT @0:1:45 | check a MAP01 c | 1 | no cert: magic
a=U =4400, c=#U-CERT @4:1:09 | check a MAP01 c | 1 | no cert: version
a=U =4400, c=#U-CERT @6:1:04 | check a MAP01 c | 1 | no cert: range 6
a=U =4400, c=#U-CERT @10:1:0d | check a MAP01 c | 1 | no cert: range 10
a=U =4400, c=#U-CERT @13:1:20 | check a MAP01 c | 1 | no cert: range 12
a=U =4400, c=#U-CERT @28:1:0a | check a MAP01 c | 1 | no cert: range 28
a=U =4400, c=#U-CERT @30:1:00 | check a MAP01 c | 1 | no cert: range 30
a=U =4400, c=#U-CERT @34:1:03 | check a MAP01 c | 1 | no cert: range 34
a=U =4400, c=#U-CERT @28:16:00000400010000000000030004000000 | check a MAP01 c | 1 | no cert: order 36
a=U =4400, c=#U-CERT @92:1:01 | check a MAP01 c | 1 | no cert: order 92
a=U =4400, c=#U-CERT @96:1:0c | check a MAP01 c | 1 | no cert: range 96
a=U =4400, c=#U-CERT @118:1:00 | check a MAP01 c | 1 | no cert: order 116
a=U =4400, c=#U-CERT @140:1:03 | check a MAP01 c | 1 | no cert: range 140
a=U =4400, c=#U-CERT @154:1:05 | check a MAP01 c | 1 | no cert: range 154
a=U =4400, c=#U-CERT @157:1:00 | check a MAP01 c | 1 | no cert: order 157
a=U =4400, c=#U-CERT @161:0:00 | check a MAP01 c | 1 | no cert: trailing 161
a=U =4400, c=#U-CERT @3:158: | check a MAP01 c | 1 | no cert: short 0
a=U =4400, c=#U-CERT @4:157: | check a MAP01 c | 1 | no cert: short 4
a=U =4400, c=#U-CERT @139:22: | check a MAP01 c | 1 | no cert: short 132
a=U =4400, c=#U-CERT @160:1: | check a MAP01 c | 1 | no cert: short 159
# counts that no bytes bear out: of triangles, rays, listed pairs, trees and nodes. What they would need isn't asked for
a=U =4400, c=#U-CERT @12:4:00200000 @92:69: | check a MAP01 c | 1 | no cert: short 92
a=U =4400, c=#U-CERT @16:4:ffffffff @140:21: | check a MAP01 c | 1 | no cert: short 140
a=U =4400, c=#U-CERT @20:4:ffffffff @140:21: | check a MAP01 c | 1 | no cert: short 140
a=U =4400, c=#U-CERT @24:4:ffffffff | check a MAP01 c | 1 | no cert: short 161
a=U =4400, c=#U-CERT @142:8:ffffffffffffffff | check a MAP01 c | 1 | no cert: short 161
# faults
a=U =4400 | check a MAP01 c | 3 | refused: no file cert
a=U =4400, c=#U-CERT, reads=2 | check a MAP01 c | 4 | refused: read fault cert
a=U =4400, c=#U-CERT, reads=3 | check a MAP01 c | 4 | refused: read fault cert
a=U =4400, c=#U-GROUPS, reads=2 | check a MAP01 c | 4 | refused: read fault cert
a=U =4400, c=#U-GROUPS, reads=3 | check a MAP01 c | 4 | refused: read fault cert
";

/// The order `draw`.
const DRAW: &str = "\
# the plan
a=U | draw a MAP01 b | 0 | drawn MAP01 lines 12 sectors 3 | a=U, b=%U-PLAN
a=U .1 hexen +6:BEHAVIOR, b=PAIR | draw --large a map01 b | 0 | drawn MAP01 lines 12 sectors 3 | b=%U-PLAN
a=FLAT | draw a MAP01 b | 0 | drawn MAP01 lines 4 sectors 1
a=TOUCHED | draw a MAP01 b | 10 | refused: bad map: touch 0 4 | b=
a=OPEN | draw a MAP01 b | 10 | refused: bad map: open 0R | b=
# the plan with what refuses the map
a=U | draw a MAP01 b --faults | 0 | drawn MAP01 faults none | b=%U-PLAN
a=TOUCHED | draw a MAP01 b --faults | 0 | drawn MAP01 faults touch 0 4 | b=%TOUCHED-FAULTS
a=CROSSED | draw --faults a MAP01 b | 0 | drawn MAP01 faults cross 3 4 | b=%CROSSED-FAULTS
a=OVERLAPPED | draw a MAP01 --faults b | 0 | drawn MAP01 faults overlap 0 4
a=OPEN | draw a MAP01 b --faults | 0 | drawn MAP01 faults open 0R | b=%OPEN-FAULTS
# the row of a sector, in whatever table the map has; a bit alone is no pair
a=U =4400 | draw a MAP01 b 0 | 0 | drawn MAP01 row 0 set 1 clear 2 | b=%U-ROW
a=U =44fe | draw a MAP01 b 0 | 0 | drawn MAP01 row 0 set 1 clear 2 | b=%U-ROW
a=U =0400 | draw a MAP01 b 2 | 0 | drawn MAP01 row 2 set 0 clear 3
a=U =ffff | draw a MAP01 b 1 | 0 | drawn MAP01 row 1 set 3 clear 0
a=U =4400 | draw a MAP01 b 3 | 1 | no sector 3 | b=
a=U | draw a MAP01 b 0 | 1 | no table: 0 bytes, 2 expected | b=
a=U =440000 | draw a MAP01 b 9 | 1 | no table: 3 bytes, 2 expected | b=
a=TOUCHED =00 | draw a MAP01 b 9 | 10 | refused: bad map: touch 0 4 | b=
a=TOUCHED =0000 | draw a MAP01 b 9 | 1 | no table: 2 bytes, 1 expected | b=
# how much each sector may see
a=U =4400 | draw a MAP01 b --heat | 0 | drawn MAP01 heat most 3 | b=%U-HEAT
a=U =44fe | draw --heat a MAP01 b | 0 | drawn MAP01 heat most 3 | b=%U-HEAT
a=U =ffff | draw a MAP01 b --heat | 0 | drawn MAP01 heat most 0
a=U | draw a MAP01 b --heat | 1 | no table: 0 bytes, 2 expected | b=
a=TOUCHED =00 | draw a MAP01 b --heat | 10 | refused: bad map: touch 0 4 | b=
a=TOUCHED =0000 | draw a MAP01 b --heat | 1 | no table: 2 bytes, 1 expected | b=
# two sectors
a=U | draw a MAP01 b 0 1 | 0 | drawn MAP01 pair 0 1 sight | b=%U-SIGHT
a=U | draw a MAP01 b 0 1 --exact | 0 | drawn MAP01 pair 0 1 sight | b=%U-SIGHT
a=U | draw a MAP01 b 0 2 | 0 | drawn MAP01 pair 0 2 blind 4 stops 1 | b=%U-BLIND
a=U | draw a MAP01 b 0 2 --budget full --large | 0 | drawn MAP01 pair 0 2 blind 4 stops 1 | b=%U-BLIND
# sight out of sector 0 enters the four triangles of sector 1 and the two of sector 3, out of sector 2 just the four;
# so with a budget of 4 or 5 the walk of sector 2 alone ends, with 3 none
a=PORCH | draw a MAP01 b 0 2 --budget 6 | 0 | drawn MAP01 pair 0 2 blind 6 stops 1
a=PORCH | draw a MAP01 b 0 2 --budget 5 | 0 | drawn MAP01 pair 0 2 blind 4 stops 1 of 2
a=PORCH | draw a MAP01 b 0 2 --budget 4 | 0 | drawn MAP01 pair 0 2 blind 4 stops 1 of 2
a=PORCH | draw a MAP01 b 2 0 --budget 4 | 0 | drawn MAP01 pair 2 0 blind 4 stops 1
a=PORCH | draw a MAP01 b 0 2 --budget 3 | 0 | drawn MAP01 pair 0 2 listed
a=U | draw a MAP01 b 1 1 | 0 | drawn MAP01 pair 1 1 touch
a=U | draw a MAP01 b 0 2 --budget 1 | 0 | drawn MAP01 pair 0 2 listed
a=ISLAND | draw a MAP01 b 0 1 | 0 | drawn MAP01 pair 0 1 touch
a=U | draw a MAP01 b 0 9 | 1 | no sector 9 | b=
a=U | draw a MAP01 b 9 8 | 1 | no sector 9 | b=
a=TOUCHED | draw a MAP01 b 0 9 | 10 | refused: bad map: touch 0 4 | b=
# words and names
a=U | draw a MAP01 | 2 | refused: usage
a=U | draw a MAP01 b 0 1 2 | 2 | refused: usage | b=
a=U | draw a MAP01 b 65536 | 2 | refused: usage | b=
a=U | draw a MAP01 b 0 --faults | 2 | refused: usage | b=
a=U | draw a MAP01 b 0 --heat | 2 | refused: usage | b=
a=U | draw a MAP01 b --heat --faults | 2 | refused: usage | b=
a=U | draw a MAP01 b 0 1 --faults | 2 | refused: usage | b=
a=U | draw a MAP01 b --budget 5 | 2 | refused: usage | b=
a=U | draw a MAP01 b 0 --budget 5 | 2 | refused: usage | b=
a=U | draw a MAP01 b 0 1 --budget 0 | 2 | refused: usage | b=
a=U | draw a MAP01 b 0 1 --workers 2 | 2 | refused: usage | b=
a=U | draw a MAP01 b --exact | 2 | refused: usage | b=
a=U | draw a MAP01 b 0 --exact | 2 | refused: usage | b=
a=U | draw a MAP01 b --faults --exact | 2 | refused: usage | b=
a=U | draw a MAP01 b 0 1 --exact --budget 5 | 2 | refused: usage | b=
a=U | draw a MAP01 b --cert c | 2 | refused: usage | b=, c=
a=U | draw a MAP01 b --hexen | 2 | refused: usage | b=
a=U | zero a MAP01 b --faults | 2 | refused: usage | b=
a=U | why a MAP01 0 1 --faults | 2 | refused: usage
a=U | build a MAP01 b --faults | 2 | refused: usage | b=
a=U | grid 2 --faults | 2 | refused: usage
a=U | draw a MAP01 a | 11 | refused: same name | a=U
a=TOUCHED | draw a MAP01 a --faults | 11 | refused: same name | a=TOUCHED
# what fails
b=PAIR | draw a MAP01 b | 3 | refused: no file wad | b=PAIR
a=U, reads=0 | draw a MAP01 b | 4 | refused: read fault wad | b=
a=U, creates=0 | draw a MAP01 b | 5 | refused: write fault picture | b=
a=U, puts=0 | draw a MAP01 b | 5 | drawn MAP01 lin~ | b=%U-PLAN
a=U | draw a MAP02 b | 7 | refused: no map: no marker | b=
a=SQUARE @14:1:09 | draw a MAP01 b --faults | 8 | refused: bad lump: vertex of line 0 | b=
";

/// The order `all`: what it writes and reports, what it refuses, and what stands where something fails.
const ALL: &str = "\
# two maps that are built, and one that is refused and keeps its REJECT
a=PAIR U .6 - +6:MAP02 OPEN =de .12 - +12:MAP03 | all a b --report r | 0 | all maps 3 built 2 refused 1 | b=PAIR =00 U =4400 .6 - +6:MAP02 OPEN =de .12 - +12:MAP03, r=#4d4150303120736574203020636c6561722033206c69737465642030207265706c6163656420302062797465730a4d4150303220736574203120636c6561722035206c69737465642030207265706c6163656420302062797465730a4d41503033207265667573656420626164206d61703a206f70656e203052206b657074207365740a
a=PAIR U .6 - +6:MAP02 OPEN =de .12 - +12:MAP03 | all a b --workers 3 | 0 | all maps 3 built 2 refused 1 | b=PAIR =00 U =4400 .6 - +6:MAP02 OPEN =de .12 - +12:MAP03, r=
# no map
a=#50574144000000000c000000 | all a b --report r | 0 | all maps 0 built 0 refused 0 | b=#50574144000000000c000000, r=#
# a budget of one sequence, and one that is enough
a=U | all a b --report r --budget 1 | 0 | all maps 1 built 1 refused 0 | b=U =0000, r=#4d4150303120736574203020636c6561722035206c69737465642031207265706c6163656420302062797465730a
a=LINE3 | all a b --budget enough | 0 | all maps 1 built 1 refused 0 | b=LINE3 =0000
# every pair decided
a=PAIR U .6 - +6:MAP02 OPEN =de .12 - +12:MAP03 | all a b --exact --report r | 0 | all maps 3 built 2 refused 1 | b=PAIR =00 U =4400 .6 - +6:MAP02 OPEN =de .12 - +12:MAP03, r=#4d4150303120736574203020636c6561722033206c69737465642030207265706c6163656420302062797465730a4d4150303220736574203120636c6561722035206c69737465642030207265706c6163656420302062797465730a4d41503033207265667573656420626164206d61703a206f70656e203052206b657074207365740a
a=LINE3 | all a b --exact | 0 | all maps 1 built 1 refused 0 | b=LINE3 =0000
a=LINE3 | all a b --exact --budget enough | 2 | refused: usage | b=
# of two maps of one name the last; a map in Hexen's format; a map without REJECT, under a name in lower case
a=SQUARE U | all a b | 0 | all maps 1 built 1 refused 0 | b=SQUARE U =4400
a=PAIR .1 hexen +6:BEHAVIOR *3 U - .7 - +7:map02 | all a b --report r | 0 | all maps 2 built 2 refused 0 | b=PAIR =00 .1 hexen +6:BEHAVIOR *3 U =4400 .7 - +7:map02, r=#4d4150303120736574203020636c6561722033206c69737465642030207265706c6163656420302062797465730a4d4150303220736574203120636c6561722035206c69737465642030207265706c6163656420302062797465730a
# a face of several sectors
a=SELFREF | all a b --report r | 0 | all maps 1 built 1 refused 0 | b=SELFREF =00, r=#4d4150303120736574203020636c6561722033206c69737465642030207265706c6163656420302062797465730a
# maps that can't be read
a=SQUARE @14:1:09 | all a b --report r | 0 | all maps 1 built 0 refused 1 | b=SQUARE @14:1:09, r=#4d41503031207265667573656420626164206c756d703a20766572746578206f66206c696e652030206b65707420636c6561720a
a=SQUARE .1 *229390 | all a b --report r | 0 | all maps 1 built 0 refused 1 | b=SQUARE .1 *229390, r=#4d415030312072656675736564206c696d69743a206c696e6573206b65707420636c6561720a
a=OPEN | all a b --report r | 0 | all maps 1 built 0 refused 1 | b=OPEN, r=#4d41503031207265667573656420626164206d61703a206f70656e203052206b65707420636c6561720a
# what is done of a refused map: a clear table in place of the one that it has, or nothing at all
a=PAIR U .6 - +6:MAP02 OPEN =de .12 - +12:MAP03 | all a b --refused clear --report r | 0 | all maps 3 built 2 refused 1 cleared 1 | b=PAIR =00 U =4400 .6 - +6:MAP02 OPEN =00 .12 - +12:MAP03, r=#4d4150303120736574203020636c6561722033206c69737465642030207265706c6163656420302062797465730a4d4150303220736574203120636c6561722035206c69737465642030207265706c6163656420302062797465730a4d41503033207265667573656420626164206d61703a206f70656e20305220636c65617265640a
a=PAIR U .6 - +6:MAP02 OPEN =de .12 - +12:MAP03 | all a b --refused keep --report r | 0 | all maps 3 built 2 refused 1 | b=PAIR =00 U =4400 .6 - +6:MAP02 OPEN =de .12 - +12:MAP03, r=#4d4150303120736574203020636c6561722033206c69737465642030207265706c6163656420302062797465730a4d4150303220736574203120636c6561722035206c69737465642030207265706c6163656420302062797465730a4d41503033207265667573656420626164206d61703a206f70656e203052206b657074207365740a
a=PAIR U .6 - +6:MAP02 OPEN =de .12 - +12:MAP03 | all a b --refused stop --report r | 10 | refused: bad map: open 0R | b=, r=
a=PAIR U .6 - +6:MAP02 | all a b --refused stop --report r | 0 | all maps 2 built 2 refused 0 | b=PAIR =00 U =4400 .6 - +6:MAP02, r=#4d4150303120736574203020636c6561722033206c69737465642030207265706c6163656420302062797465730a4d4150303220736574203120636c6561722035206c69737465642030207265706c6163656420302062797465730a
a=PAIR U .6 - +6:MAP02 | all a b --refused clear | 0 | all maps 2 built 2 refused 0 cleared 0 | b=PAIR =00 U =4400 .6 - +6:MAP02
# one whose sectors can't be counted keeps its table; the first that is refused stops all
a=SQUARE =de @14:1:09 | all a b --refused clear --report r | 0 | all maps 1 built 0 refused 1 cleared 0 | b=SQUARE =de @14:1:09, r=#4d41503031207265667573656420626164206c756d703a20766572746578206f66206c696e652030206b657074207365740a
a=SQUARE .1 *229390 | all a b --refused clear | 0 | all maps 1 built 0 refused 1 cleared 0 | b=SQUARE .1 *229390
a=SQUARE .1 *229390 | all a b --refused=stop | 9 | refused: limit: lines | b=
a=CROSSED OPEN .6 - +6:MAP02 | all a b --refused stop | 10 | refused: bad map: cross 3 4 | b=
a=CROSSED OPEN .6 - +6:MAP02 | all a b --refused stop --only MAP02 | 10 | refused: bad map: open 0R | b=
# a map without REJECT gets one, and a table of another length makes way
a=OPEN - | all a b --refused clear | 0 | all maps 1 built 0 refused 1 cleared 1 | b=OPEN =00
a=OPEN =dedede | all a b --refused clear | 0 | all maps 1 built 0 refused 1 cleared 1 | b=OPEN =00
# how many bits a table changes
a=U =0000 | all a b --report r | 0 | all maps 1 built 1 refused 0 | b=U =4400, r=#4d4150303120736574203120636c6561722035206c69737465642030206368616e67656420320a
a=U =4400 | all a b --report r | 0 | all maps 1 built 1 refused 0 | b=U =4400, r=#4d4150303120736574203120636c6561722035206c69737465642030206368616e67656420300a
a=U =bbff | all a b --report r | 0 | all maps 1 built 1 refused 0 | b=U =4400, r=#4d4150303120736574203120636c6561722035206c69737465642030206368616e6765642031360a
a=U =44 | all a b --report r | 0 | all maps 1 built 1 refused 0 | b=U =4400, r=#4d4150303120736574203120636c6561722035206c69737465642030207265706c6163656420312062797465730a
# some of the maps, each once and in the order of their entries; all others keep their REJECT
a=PAIR U .6 - +6:MAP02 OPEN =de .12 - +12:MAP03 | all a b --only MAP02 --report r | 0 | all maps 1 built 1 refused 0 | b=PAIR U =4400 .6 - +6:MAP02 OPEN =de .12 - +12:MAP03, r=#4d4150303220736574203120636c6561722035206c69737465642030207265706c6163656420302062797465730a
a=PAIR U .6 - +6:MAP02 OPEN =de .12 - +12:MAP03 | all a b --only map03,MAP01 --report r | 0 | all maps 2 built 1 refused 1 | b=PAIR =00 U .6 - +6:MAP02 OPEN =de .12 - +12:MAP03, r=#4d4150303120736574203020636c6561722033206c69737465642030207265706c6163656420302062797465730a4d41503033207265667573656420626164206d61703a206f70656e203052206b657074207365740a
a=PAIR | all a --only=MAP01,map01 b | 0 | all maps 1 built 1 refused 0 | b=PAIR =00
# the first name that is no map's
a=PAIR U .6 - +6:MAP02 OPEN =de .12 - +12:MAP03 | all a b --only MAP01,MAP04 --report r | 7 | refused: no map: no marker | b=, r=
a=PAIR | all a b --only LINEDEFS,MAP04 | 7 | refused: no map: missing LINEDEFS | b=
a=PAIR | all a b --only MAP04,LINEDEFS | 7 | refused: no map: no marker | b=
a=PAIR +1:THINGS | all a b --only THINGS | 7 | refused: no map: no marker | b=
a=PAIR +1:THINGS | zero a THINGS b | 0 | zero THINGS sectors 2 bytes 1
# a map of UDMF that is refused stays, and one without ENDMAP is none
a=PAIR +6:MAP02 +7:TEXTMAP *20 +8:ENDMAP U .9 - +9:MAP03 | all a b --report r | 0 | all maps 3 built 2 refused 1 | b=PAIR =00 +6:MAP02 +7:TEXTMAP *20 +8:ENDMAP U =4400 .9 - +9:MAP03, r=#4d4150303120736574203020636c6561722033206c69737465642030207265706c6163656420302062797465730a4d41503032207265667573656420626164206c756d703a206e616d6573706163652030206b65707420636c6561720a4d4150303320736574203120636c6561722035206c69737465642030207265706c6163656420302062797465730a
a=PAIR +6:MAP02 +7:TEXTMAP *20 U .8 - +8:MAP03 | all a b --report r | 0 | all maps 2 built 2 refused 0 | b=PAIR =00 +6:MAP02 +7:TEXTMAP *20 U =4400 .8 - +8:MAP03, r=#4d4150303120736574203020636c6561722033206c69737465642030207265706c6163656420302062797465730a4d4150303320736574203120636c6561722035206c69737465642030207265706c6163656420302062797465730a
a=PAIR +6:MAP02 +7:TEXTMAP *20 U .8 - +8:MAP03 | all a b --only MAP02 | 7 | refused: no map: missing ENDMAP | b=
# refusals of the whole run
a=#50574158000000000c000000 | all a b --report r | 6 | refused: not a wad: bad magic | b=, r=
a=#50574144010001000c000000 | all a b | 9 | refused: limit: lumps | b=
a=SQUARE - +5:BULK &65530 @4:4:00000100 | all a b --report r | 9 | refused: limit: lumps | b=, r=
a=SQUARE +6:BULK *40000 &64999 @4:4:eefd0000 | all a b --report r | 9 | refused: limit: output bytes | b=, r=
b=PAIR | all a b | 3 | refused: no file wad | b=PAIR
a=PAIR, reads=1 | all a b --report r | 4 | refused: read fault wad | b=, r=
a=U, creates=0 | all a b --report r | 5 | refused: write fault wad | b=, r=
a=U, creates=1 | all a b --report r | 5 | refused: write fault report | b=U =4400, r=
a=U, appends=1 | all a b --report r | 5 | refused: write fault report | b=U =4400, r=#4d4150303120736574203120636c6561722035206c6973
a=U, puts=0 | all a b --report r | 5 | all maps 1 bui~ | b=U =4400, r=#4d4150303120736574203120636c6561722035206c69737465642030207265706c6163656420302062797465730a
# words and names
a=U | all a | 2 | refused: usage
a=U | all a MAP01 b | 2 | refused: usage | b=
a=U | all a b --cert c | 2 | refused: usage | b=, c=
a=U | all a b --workers 0 | 2 | refused: usage | b=
a=U | all a b --workers 65 | 2 | refused: usage | b=
a=U | all a b --hexen | 2 | refused: usage | b=
a=U | all a b --refused | 2 | refused: usage | b=
a=U | all a b --refused never | 2 | refused: usage | b=
a=U | build a MAP01 b --refused clear | 2 | refused: usage | b=
a=U | zero a MAP01 b --refused clear | 2 | refused: usage | b=
a=U | all a b --only | 2 | refused: usage | b=
a=U | all a b --only= | 2 | refused: usage | b=
a=U | all a b --only MAP01, | 2 | refused: usage | b=
a=U | all a b --only ,MAP01 | 2 | refused: usage | b=
a=U | all a b --only MAP01,,MAP01 | 2 | refused: usage | b=
a=U | all a b --only MAP01,MAP000001 | 2 | refused: usage | b=
a=U | build a MAP01 b --only MAP01 | 2 | refused: usage | b=
a=U | zero a MAP01 b --only MAP01 | 2 | refused: usage | b=
a=U | grid 2 --only MAP01 | 2 | refused: usage
a=U | all a a | 11 | refused: same name | a=U
a=U | all a b --report a | 11 | refused: same name | a=U, b=
a=U | all a b --report b | 11 | refused: same name | a=U, b=
";

/// The order `verify`: what it says of a map's own REJECT, what it counts, and what it refuses.
const VERIFY: &str = "\
# a right table, one that could have more bits, and bits behind the last pair's
a=U =4400 | verify a --report r | 0 | verify maps 1 right 1 wrong 0 short 0 refused 0 | a=U =4400, r=#4d415030312077726f6e672030206d697373696e6720300a
a=U =0000 | verify a --report r | 0 | verify maps 1 right 1 wrong 0 short 0 refused 0 | a=U =0000, r=#4d415030312077726f6e672030206d697373696e6720320a
a=U =40fe | verify a --report r | 0 | verify maps 1 right 1 wrong 0 short 0 refused 0 | a=U =40fe, r=#4d415030312077726f6e672030206d697373696e6720310a
# wrong ones: of a pair, of a sector with itself, and all; two bits of a pair are two
a=U =4600 | verify a --report r | 1 | verify maps 1 right 0 wrong 1 short 0 refused 0 | a=U =4600, r=#4d415030312077726f6e672031206d697373696e6720302066697273742030203120627920354c2c35522c2d3132382c302c310a
a=U =0a00 | verify a --report r | 1 | verify maps 1 right 0 wrong 1 short 0 refused 0 | a=U =0a00, r=#4d415030312077726f6e672032206d697373696e6720322066697273742030203120627920354c2c35522c2d3132382c302c310a
a=U =4500 | verify a --report r | 1 | verify maps 1 right 0 wrong 1 short 0 refused 0 | a=U =4500, r=#4d415030312077726f6e672031206d697373696e6720302066697273742030203020746f7563680a
a=U =ffff | verify a --report r --workers 1 | 1 | verify maps 1 right 0 wrong 1 short 0 refused 0 | a=U =ffff, r=#4d415030312077726f6e672037206d697373696e6720302066697273742030203020746f7563680a
a=U =4600 | verify a | 1 | verify maps 1 right 0 wrong 1 short 0 refused 0 | a=U =4600, r=
# too few bytes, none, and too many
a=U =44 | verify a --report r | 1 | verify maps 1 right 0 wrong 0 short 1 refused 0 | a=U =44, r=#4d415030312073686f72742031206f6620320a
a=U = | verify a --report r | 1 | verify maps 1 right 0 wrong 0 short 1 refused 0 | a=U =, r=#4d415030312073686f72742030206f6620320a
a=U =4400ff | verify a --report r | 0 | verify maps 1 right 1 wrong 0 short 0 refused 0 | a=U =4400ff, r=#4d415030312077726f6e672030206d697373696e6720300a
# a map that is refused isn't judged, and doesn't count as right; the length comes first
a=OPEN =de | verify a --report r | 0 | verify maps 1 right 0 wrong 0 short 0 refused 1 | a=OPEN =de, r=#4d41503031207265667573656420626164206d61703a206f70656e2030520a
a=OPEN = | verify a --report r | 1 | verify maps 1 right 0 wrong 0 short 1 refused 0 | a=OPEN =, r=#4d415030312073686f72742030206f6620310a
a=SQUARE @14:1:09 | verify a --report r | 0 | verify maps 1 right 0 wrong 0 short 0 refused 1 | r=#4d41503031207265667573656420626164206c756d703a20766572746578206f66206c696e6520300a
a=SQUARE .1 *229390 | verify a --report r | 0 | verify maps 1 right 0 wrong 0 short 0 refused 1 | r=#4d415030312072656675736564206c696d69743a206c696e65730a
# three maps, some of them, no map, one of UDMF, one of Hexen's format
a=PAIR =00 U =4600 .6 - +6:MAP02 OPEN =de .12 - +12:MAP03 | verify a --report r | 1 | verify maps 3 right 1 wrong 1 short 0 refused 1 | a=PAIR =00 U =4600 .6 - +6:MAP02 OPEN =de .12 - +12:MAP03, r=#4d415030312077726f6e672030206d697373696e6720300a4d415030322077726f6e672031206d697373696e6720302066697273742030203120627920354c2c35522c2d3132382c302c310a4d41503033207265667573656420626164206d61703a206f70656e2030520a
a=PAIR =00 U =4600 .6 - +6:MAP02 OPEN =de .12 - +12:MAP03 | verify a --workers 3 --report r --large | 1 | verify maps 3 right 1 wrong 1 short 0 refused 1 | a=PAIR =00 U =4600 .6 - +6:MAP02 OPEN =de .12 - +12:MAP03, r=#4d415030312077726f6e672030206d697373696e6720300a4d415030322077726f6e672031206d697373696e6720302066697273742030203120627920354c2c35522c2d3132382c302c310a4d41503033207265667573656420626164206d61703a206f70656e2030520a
a=PAIR =00 U =4600 .6 - +6:MAP02 OPEN =de .12 - +12:MAP03 | verify a --only map03,MAP01 --report r | 0 | verify maps 2 right 1 wrong 0 short 0 refused 1 | a=PAIR =00 U =4600 .6 - +6:MAP02 OPEN =de .12 - +12:MAP03, r=#4d415030312077726f6e672030206d697373696e6720300a4d41503033207265667573656420626164206d61703a206f70656e2030520a
a=PAIR =00 U =4600 .6 - +6:MAP02 OPEN =de .12 - +12:MAP03 | verify --only=MAP02 a | 1 | verify maps 1 right 0 wrong 1 short 0 refused 0 | a=PAIR =00 U =4600 .6 - +6:MAP02 OPEN =de .12 - +12:MAP03
a=PAIR =00 U =4600 .6 - +6:MAP02 OPEN =de .12 - +12:MAP03 | verify a --only MAP01,MAP04 --report r | 7 | refused: no map: no marker | r=
a=PAIR | verify a --only LINEDEFS,MAP04 | 7 | refused: no map: missing LINEDEFS | a=PAIR
a=#50574144000000000c000000 | verify a --report r | 0 | verify maps 0 right 0 wrong 0 short 0 refused 0 | r=#
a=PAIR =00 +6:MAP02 +7:TEXTMAP *20 +8:ENDMAP | verify a --report r | 0 | verify maps 2 right 1 wrong 0 short 0 refused 1 | r=#4d415030312077726f6e672030206d697373696e6720300a4d41503032207265667573656420626164206c756d703a206e616d65737061636520300a
a=PAIR =00 +6:MAP02 +7:TEXTMAP *20 | verify a --report r | 0 | verify maps 1 right 1 wrong 0 short 0 refused 0 | r=#4d415030312077726f6e672030206d697373696e6720300a
a=PAIR =06 .1 hexen +6:BEHAVIOR | verify a --only MAP01 | 1 | verify maps 1 right 0 wrong 1 short 0 refused 0 | r=
# a face of several sectors
a=SELFREF =00 | verify a --report r | 0 | verify maps 1 right 1 wrong 0 short 0 refused 0 | r=#4d415030312077726f6e672030206d697373696e6720300a
# refusals of the whole run
a=#50574158000000000c000000 | verify a --report r | 6 | refused: not a wad: bad magic | r=
a=#50574144010001000c000000 | verify a | 9 | refused: limit: lumps | a=#50574144010001000c000000
b=PAIR | verify a --report r | 3 | refused: no file wad | b=PAIR, r=
a=PAIR, reads=1 | verify a --report r | 4 | refused: read fault wad | r=
a=U =4600, creates=0 | verify a --report r | 5 | refused: write fault report | r=
a=U =4400, appends=0 | verify a --report r | 5 | refused: write fault report | r=#4d415030312077726f6e6720
a=U =4600, puts=0 | verify a --report r | 5 | verify maps 1 right 0 wr~ | r=#4d415030312077726f6e672031206d697373696e6720302066697273742030203120627920354c2c35522c2d3132382c302c310a
# words and names
a=U | verify | 2 | refused: usage | a=U, b=, c=
a=U | verify a b | 2 | refused: usage | a=U, b=, c=
a=U | verify a MAP01 | 2 | refused: usage | a=U, b=, c=
a=U | verify a --exact | 2 | refused: usage | a=U, b=, c=
a=U | verify a --budget full | 2 | refused: usage | a=U, b=, c=
a=U | verify a --refused keep | 2 | refused: usage | a=U, b=, c=
a=U | verify a --cert c | 2 | refused: usage | a=U, b=, c=
a=U | verify a --hexen | 2 | refused: usage | a=U, b=, c=
a=U | verify a --faults | 2 | refused: usage | a=U, b=, c=
a=U | verify a --workers 0 | 2 | refused: usage | a=U, b=, c=
a=U | verify a --workers 65 | 2 | refused: usage | a=U, b=, c=
a=U | verify a --only= | 2 | refused: usage | a=U, b=, c=
a=U | verify a --only MAP01, | 2 | refused: usage | a=U, b=, c=
a=U | verify a --report a | 11 | refused: same name | a=U
";

/// The order `maps`: what it lists of each map, what it counts, and what it refuses.
const MAPS: &str = "\
# how many bits are set, those of the pairs alone; a REJECT of another length
a=U =4400 | maps a --report r | 0 | maps 1 whole 1 short 0 refused 0 | a=U =4400, r=#4d4150303120646f6f6d206c696e657320313220706f696e747320313020736563746f727320332072656a6563742032206f6620322073657420320a
a=U =0000 | maps a --report r | 0 | maps 1 whole 1 short 0 refused 0 | a=U =0000, r=#4d4150303120646f6f6d206c696e657320313220706f696e747320313020736563746f727320332072656a6563742032206f6620322073657420300a
a=U =40fe | maps a --report r | 0 | maps 1 whole 1 short 0 refused 0 | a=U =40fe, r=#4d4150303120646f6f6d206c696e657320313220706f696e747320313020736563746f727320332072656a6563742032206f6620322073657420310a
a=U =ffff | maps a --report r | 0 | maps 1 whole 1 short 0 refused 0 | a=U =ffff, r=#4d4150303120646f6f6d206c696e657320313220706f696e747320313020736563746f727320332072656a6563742032206f6620322073657420390a
a=U =4400ff | maps a --report r | 0 | maps 1 whole 1 short 0 refused 0 | a=U =4400ff, r=#4d4150303120646f6f6d206c696e657320313220706f696e747320313020736563746f727320332072656a6563742033206f6620322073657420320a
a=U =44 | maps a --report r | 0 | maps 1 whole 0 short 1 refused 0 | a=U =44, r=#4d4150303120646f6f6d206c696e657320313220706f696e747320313020736563746f727320332072656a6563742031206f6620320a
a=U = | maps a --report r | 0 | maps 1 whole 0 short 1 refused 0 | a=U =, r=#4d4150303120646f6f6d206c696e657320313220706f696e747320313020736563746f727320332072656a6563742030206f6620320a
a=U - | maps a --report r | 0 | maps 1 whole 0 short 1 refused 0 | a=U -, r=#4d4150303120646f6f6d206c696e657320313220706f696e747320313020736563746f727320332072656a6563742030206f6620320a
a=U =4400 | maps a | 0 | maps 1 whole 1 short 0 refused 0 | a=U =4400, r=
# records that are passed over aren't counted, sectors that no side names are; nothing is audited
a=FLAT =01 | maps a --report r | 0 | maps 1 whole 1 short 0 refused 0 | r=#4d4150303120646f6f6d206c696e6573203420706f696e7473203420736563746f727320312072656a6563742031206f6620312073657420310a
a=LONE =08 | maps a --report r | 0 | maps 1 whole 1 short 0 refused 0 | r=#4d4150303120646f6f6d206c696e6573203420706f696e7473203420736563746f727320322072656a6563742031206f6620312073657420310a
a=OPEN =de | maps a --report r | 0 | maps 1 whole 1 short 0 refused 0 | r=#4d4150303120646f6f6d206c696e6573203320706f696e7473203420736563746f727320312072656a6563742031206f6620312073657420300a
# maps that can't be read, the larger limits
a=SQUARE @14:1:09 | maps a --report r | 0 | maps 1 whole 0 short 0 refused 1 | r=#4d41503031207265667573656420626164206c756d703a20766572746578206f66206c696e6520300a
a=SQUARE .1 *229390 | maps a --report r | 0 | maps 1 whole 0 short 0 refused 1 | r=#4d415030312072656675736564206c696d69743a206c696e65730a
a=SQUARE =00 .4 *106522 | maps a --report r | 0 | maps 1 whole 0 short 0 refused 1 | r=#4d415030312072656675736564206c696d69743a20736563746f72730a
a=SQUARE =00 .4 *106522 | maps a --large --report r | 0 | maps 1 whole 0 short 1 refused 0 | r=#4d4150303120646f6f6d206c696e6573203420706f696e7473203420736563746f727320343039372072656a6563742031206f6620323039383137370a
# three maps, some of them, no map, one of UDMF, one without ENDMAP, one of Hexen's format
a=PAIR =00 U =4600 .6 - +6:MAP02 OPEN =de .12 - +12:MAP03 | maps a --report r | 0 | maps 3 whole 3 short 0 refused 0 | a=PAIR =00 U =4600 .6 - +6:MAP02 OPEN =de .12 - +12:MAP03, r=#4d4150303120646f6f6d206c696e6573203720706f696e7473203620736563746f727320322072656a6563742031206f6620312073657420300a4d4150303220646f6f6d206c696e657320313220706f696e747320313020736563746f727320332072656a6563742032206f6620322073657420330a4d4150303320646f6f6d206c696e6573203320706f696e7473203420736563746f727320312072656a6563742031206f6620312073657420300a
a=PAIR =00 U =4600 .6 - +6:MAP02 OPEN =de .12 - +12:MAP03 | maps a --only map03,MAP01 --report r | 0 | maps 2 whole 2 short 0 refused 0 | a=PAIR =00 U =4600 .6 - +6:MAP02 OPEN =de .12 - +12:MAP03, r=#4d4150303120646f6f6d206c696e6573203720706f696e7473203620736563746f727320322072656a6563742031206f6620312073657420300a4d4150303320646f6f6d206c696e6573203320706f696e7473203420736563746f727320312072656a6563742031206f6620312073657420300a
a=PAIR =00 U =4600 .6 - +6:MAP02 OPEN =de .12 - +12:MAP03 | maps --only=MAP02 a --large | 0 | maps 1 whole 1 short 0 refused 0 | a=PAIR =00 U =4600 .6 - +6:MAP02 OPEN =de .12 - +12:MAP03
a=PAIR =00 U =4600 .6 - +6:MAP02 OPEN =de .12 - +12:MAP03 | maps a --only MAP01,MAP04 --report r | 7 | refused: no map: no marker | r=
a=PAIR | maps a --only LINEDEFS,MAP04 | 7 | refused: no map: missing LINEDEFS | a=PAIR
a=#50574144000000000c000000 | maps a --report r | 0 | maps 0 whole 0 short 0 refused 0 | r=#
a=PAIR =00 +6:MAP02 +7:TEXTMAP *20 +8:ENDMAP | maps a --report r | 0 | maps 2 whole 1 short 0 refused 1 | r=#4d4150303120646f6f6d206c696e6573203720706f696e7473203620736563746f727320322072656a6563742031206f6620312073657420300a4d41503032207265667573656420626164206c756d703a206e616d65737061636520300a
a=PAIR =00 +6:MAP02 +7:TEXTMAP *20 +8:ENDMAP | maps a --only MAP01 --report r | 0 | maps 1 whole 1 short 0 refused 0 | r=#4d4150303120646f6f6d206c696e6573203720706f696e7473203620736563746f727320322072656a6563742031206f6620312073657420300a
a=PAIR =00 +6:MAP02 +7:TEXTMAP *20 +8:ENDMAP | maps a --only MAP02 --report r | 0 | maps 1 whole 0 short 0 refused 1 | r=#4d41503032207265667573656420626164206c756d703a206e616d65737061636520300a
a=PAIR =00 +6:MAP02 +7:TEXTMAP *20 | maps a --report r | 0 | maps 1 whole 1 short 0 refused 0 | r=#4d4150303120646f6f6d206c696e6573203720706f696e7473203620736563746f727320322072656a6563742031206f6620312073657420300a
a=PAIR =06 .1 hexen +6:BEHAVIOR | maps a --report r | 0 | maps 1 whole 1 short 0 refused 0 | r=#4d4150303120686578656e206c696e6573203720706f696e7473203620736563746f727320322072656a6563742031206f6620312073657420320a
# refusals of the whole run
a=#50574158000000000c000000 | maps a --report r | 6 | refused: not a wad: bad magic | r=
a=#50574144010001000c000000 | maps a | 9 | refused: limit: lumps | a=#50574144010001000c000000
b=PAIR | maps a --report r | 3 | refused: no file wad | b=PAIR, r=
a=PAIR, reads=1 | maps a --report r | 4 | refused: read fault wad | r=
a=U =4400, creates=0 | maps a --report r | 5 | refused: write fault report | r=
a=U =4400, appends=0 | maps a --report r | 5 | refused: write fault report | r=#4d4150303120646f6f6d206c696e657320313220706f696e747320313020
a=U =4400, puts=0 | maps a --report r | 5 | maps 1 whole 1 s~ | r=#4d4150303120646f6f6d206c696e657320313220706f696e747320313020736563746f727320332072656a6563742032206f6620322073657420320a
# words and names
a=U | maps | 2 | refused: usage | a=U, b=, c=
a=U | maps a b | 2 | refused: usage | a=U, b=, c=
a=U | maps a MAP01 | 2 | refused: usage | a=U, b=, c=
a=U | maps a --exact | 2 | refused: usage | a=U, b=, c=
a=U | maps a --budget full | 2 | refused: usage | a=U, b=, c=
a=U | maps a --workers 4 | 2 | refused: usage | a=U, b=, c=
a=U | maps a --refused keep | 2 | refused: usage | a=U, b=, c=
a=U | maps a --cert c | 2 | refused: usage | a=U, b=, c=
a=U | maps a --hexen | 2 | refused: usage | a=U, b=, c=
a=U | maps a --faults | 2 | refused: usage | a=U, b=, c=
a=U | maps a --heat | 2 | refused: usage | a=U, b=, c=
a=U | maps a --only= | 2 | refused: usage | a=U, b=, c=
a=U | maps a --only MAP01, | 2 | refused: usage | a=U, b=, c=
a=U | maps a --report= | 2 | refused: usage | a=U, b=, c=
a=U | maps a --report a | 11 | refused: same name | a=U
";

#[test]
fn each_row_comes_out_as_it_says(rt: HostRuntime) -> Result<(), Fail> {
    for rows in [
        ZERO, JUDGED, CHECK, BUILD, ALL, VERIFY, MAPS, NEED, SOUND, WHY, DRAW,
    ] {
        hold(&rt, rt.alloc(), rows)?;
    }
    Ok(())
}

// Tries the front of a WAD of so many bytes.
fn hold_front<R: Threads + Sync>(rt: &R, alloc: Global, len: u32) -> Result<(), Fail> {
    let fault = if len < 12 {
        "short header"
    } else {
        "directory outside"
    };
    let row = format!(in alloc;
        "a=SQUARE @{len}:326: | zero a MAP01 b | 6 | refused: not a wad: {fault} | b="
    )?;
    hold(rt, alloc, &row)
}

// Tries the front of a certificate of so many bytes, which is short at this place.
fn hold_short<R: Threads + Sync>(rt: &R, alloc: Global, len: usize, at: usize) -> Result<(), Fail> {
    let row = format!(in alloc;
        "a=U =4400, c=#U-CERT @{len}:161: | check a MAP01 c | 1 | no cert: short {at}"
    )?;
    hold(rt, alloc, &row)
}

#[test]
fn each_proper_prefix_is_refused(rt: HostRuntime) -> Result<(), Fail> {
    for len in 0..326u32 {
        hold_front(&rt, rt.alloc(), len)?;
    }
    let mut at = 0usize;
    for field in digits_named("U-CERT").split_whitespace() {
        let end = at.wrapping_add(field.len() / 2);
        for len in at..end {
            hold_short(&rt, rt.alloc(), len, at)?;
        }
        at = end;
    }
    assert!(rt; at == 161);
    Ok(())
}
