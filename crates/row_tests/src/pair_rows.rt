//! Rows of the orders that ask of two sectors.

/// The order `sound`. The flags of line k of a map stand at byte 16 + 14 k of its WAD, in Hexen's format at byte 16 + 16 k.
pub const SOUND: &str = "\
a=U @86:2:4400 | sound a MAP01 0 2 | 0 | noise 0 2 by 5L 3R | a=U @86:2:4400
a=U @58:2:4400 @86:2:4400 | sound a MAP01 0 2 | 0 | no noise 0 2
a=U @58:2:4400 @86:2:4400 | sound a MAP01 | 0 | sound MAP01 sectors 3 heard 5 silent 1
a=U | sound a MAP01 0 9 | 1 | no sector 9
a=U | sound a MAP01 9 8 | 1 | no sector 9
a=U | sound a MAP01 3 0 | 1 | no sector 3
a=U | sound a MAP01 0 0 | 0 | noise 0 0
a=U | sound a map01 02 0 | 0 | noise 2 0 by 3L 5R
a=U | sound a MAP01 | 0 | sound MAP01 sectors 3 heard 6 silent 0
# Hexen's format
a=U .1 hexen +6:BEHAVIOR @96:2:4400 | sound a MAP01 0 2 | 0 | noise 0 2 by 5L 3R
a=U .1 hexen +6:BEHAVIOR @64:2:4400 @96:2:4400 | sound a MAP01 0 2 | 0 | no noise 0 2
a=U .1 hexen +6:BEHAVIOR @64:2:4400 @96:2:4400 | sound a MAP01 | 0 | sound MAP01 sectors 3 heard 5 silent 1
# a line without the two-sided flag carries no noise
a=U @86:2:4000 | sound a MAP01 | 0 | sound MAP01 sectors 3 heard 4 silent 2
# nothing is audited
a=TOUCHED | sound a MAP01 | 0 | sound MAP01 sectors 1 heard 1 silent 0
a=NO-LINES .4 = | sound a MAP01 | 0 | sound MAP01 sectors 0 heard 0 silent 0
a=NO-LINES .4 = | sound a MAP01 0 0 | 1 | no sector 0
# words
a=U | sound a MAP01 0 | 2 | refused: usage
a=U | sound a MAP01 0 1 2 | 2 | refused: usage
a=U | sound a MAP01 0 65536 | 2 | refused: usage
a=U | sound a MAP01 0 65535 | 1 | no sector 65535
a=U | sound a MAP01 000000 1 | 2 | refused: usage
a=U | sound a MAP01 0R 1 | 2 | refused: usage
a=U | sound a MAP01 --budget full | 2 | refused: usage
a=U | sound a MAP02 | 7 | refused: no map: no marker
a=U, reads=0 | sound a MAP01 0 1 | 4 | refused: read fault wad
a=SQUARE @14:1:09 | sound a MAP01 0 0 | 8 | refused: bad lump: vertex of line 0
";

/// The order `why`.
pub const WHY: &str = "\
a=U | why a MAP01 0 1 | 0 | sight 0 1 by 5L,5R,-128,0,1 | a=U
a=U | why a map01 00 01 --budget full | 0 | sight 0 1 by 5L,5R,-128,0,1
a=U | why a MAP01 0 2 | 0 | blind 0 2
a=U | why a MAP01 2 0 --budget=enough | 0 | blind 2 0
a=U | why a MAP01 1 1 | 0 | touch 1 1
a=U .1 hexen +6:BEHAVIOR | why a MAP01 0 2 | 0 | blind 0 2
a=U | why a MAP01 --large 0 2 | 0 | blind 0 2
# no bound, as without a budget
a=U | why a MAP01 0 1 --exact | 0 | sight 0 1 by 5L,5R,-128,0,1 | a=U
a=U | why --exact a MAP01 2 0 --large | 0 | blind 2 0
# what a build with the same budget lists, sets and leaves clear
a=U | why a MAP01 0 2 --budget 1 | 0 | listed 0 2
a=U | why a MAP01 2 0 --budget 1 | 0 | listed 2 0
a=U | why a MAP01 0 1 --budget 1 | 0 | sight 0 1 by 5L,5R,-128,0,1
a=LINE3 | why a MAP01 0 2 --budget 1 | 0 | listed 0 2
a=SHUT-PAIR | why a MAP01 0 1 --budget 1 | 0 | blind 0 1
a=RINGS | why a MAP01 1 0 | 0 | blind 1 0
# no side names the sector
a=NO-LINES | why a MAP01 0 1 | 0 | blind 0 1
a=NO-LINES | why a MAP01 0 0 | 0 | blind 0 0
# a face belongs to both
a=ISLAND | why a MAP01 0 1 | 0 | touch 0 1
a=SELFREF | why a MAP01 1 0 | 0 | touch 1 0
# no sector; the audit comes first
a=U | why a MAP01 0 9 | 1 | no sector 9
a=U | why a MAP01 9 8 | 1 | no sector 9
a=U | why a MAP01 3 0 | 1 | no sector 3
a=TOUCHED | why a MAP01 0 9 | 10 | refused: bad map: touch 0 4
a=OPEN | why a MAP01 0 0 | 10 | refused: bad map: open 0R
# words
a=U | why a MAP01 0 | 2 | refused: usage
a=U | why a MAP01 0 1 2 | 2 | refused: usage
a=U | why a MAP01 0 65536 | 2 | refused: usage
a=U | why a MAP01 0 1 --workers 2 | 2 | refused: usage
a=U | why a MAP01 0 1 --cert c | 2 | refused: usage
a=U | why a MAP01 0 1 --report c | 2 | refused: usage
a=U | why a MAP01 0 1 --only MAP01 | 2 | refused: usage
a=U | why a MAP01 0 1 --hexen | 2 | refused: usage
a=U | why a MAP01 0 1 --budget 0 | 2 | refused: usage
a=U | why a MAP01 0 1 --exact --budget full | 2 | refused: usage
a=U | why a MAP01 0 1 --budget 5 --exact | 2 | refused: usage
# what fails
a=U | why b MAP01 0 1 | 3 | refused: no file wad
a=U, reads=0 | why a MAP01 0 1 | 4 | refused: read fault wad
a=U, puts=0 | why a MAP01 0 2 | 5 | blind~
a=U | why a MAP02 0 1 | 7 | refused: no map: no marker
a=SQUARE @14:1:09 | why a MAP01 0 0 | 8 | refused: bad lump: vertex of line 0
";
