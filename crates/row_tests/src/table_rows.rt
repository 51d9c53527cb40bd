//! Rows of the orders that make a table, and of what budget one needs.

/// The order `zero`: what it writes, what it refuses, and what stands where something fails.
pub const ZERO: &str = "\
# what it writes
a=SQUARE | zero a MAP01 b | 0 | zero MAP01 sectors 1 bytes 1 | b=SQUARE =00, a=SQUARE
a=#SQUARE-WAD | zero a MAP01 b | 0 | zero MAP01 sectors 1 bytes 1 | b=#SQUARE-WAD, a=SQUARE =00
a=SQUARE SQUARE | zero a map01 b | 0 | zero MAP01 sectors 1 bytes 1 | b=SQUARE SQUARE =00
a=SQUARE - | zero a MAP01 b | 0 | zero MAP01 sectors 1 bytes 1 | b=SQUARE =00
a=SQUARE @0:1:49 | zero a Map01 b | 0 | zero MAP01 sectors 1 bytes 1 | b=SQUARE =00 @0:1:49
a=FLAT | zero a MAP01 b | 0 | zero MAP01 sectors 1 bytes 1 | b=FLAT =00
# the first four bytes of LINEDEFS are those of another lump too
a=SQUARE +6:COPY @326:8:0c00000004000000 | zero a MAP01 b | 0 | zero MAP01 sectors 1 bytes 1 | b=SQUARE =00 +6:COPY =00000100
# as many points as a map may have
a=apart:2048 | zero a MAP01 b | 0 | zero MAP01 sectors 1 bytes 1
# Hexen's format
a=SQUARE =de .1 hexen +6:BEHAVIOR *3 | zero a MAP01 b | 0 | zero MAP01 sectors 1 bytes 1 | b=SQUARE =00 .1 hexen +6:BEHAVIOR *3
a=SQUARE - .1 hexen +5:behavior *3 | zero a MAP01 b | 0 | zero MAP01 sectors 1 bytes 1 | b=SQUARE =00 .1 hexen +6:behavior *3
a=SQUARE +6:BEHAVIOR | zero a MAP01 b | 8 | refused: bad lump: size LINEDEFS | b=
a=SQUARE .1 hexen +6:SCRIPTS +7:BEHAVIOR | zero a MAP01 b | 8 | refused: bad lump: size LINEDEFS | b=
a=SQUARE .1 hexen +6:BEHAVIOR @14:1:09 | zero a MAP01 b | 8 | refused: bad lump: vertex of line 0 | b=
a=SQUARE .1 hexen +6:BEHAVIOR @72:1:04 | zero a MAP01 b | 8 | refused: bad lump: side of line 3 | b=
a=SQUARE .1 *262160 +6:BEHAVIOR | zero a MAP01 b | 9 | refused: limit: lines | b=
# no WAD
a=#50574144000000000c0000 | zero a MAP01 b | 6 | refused: not a wad: short header | b=
a=#50574158000000000c000000 | zero a MAP01 b | 6 | refused: not a wad: bad magic | b=
a=#50574144ffffffff0c000000 | zero a MAP01 b | 6 | refused: not a wad: bad count | b=
a=#50574144010001000c000000 | zero a MAP01 b | 9 | refused: limit: lumps | b=
a=#50574144010000000c000000 | zero a MAP01 b | 6 | refused: not a wad: directory outside | b=
a=SQUARE @325:1: | zero a MAP01 b | 6 | refused: not a wad: directory outside | b=
a=SQUARE @298:2:e803 | zero a MAP01 b | 6 | refused: not a wad: lump outside 4 | b=
a=SQUARE @298:2:e803 | zero a MAP02 b | 6 | refused: not a wad: lump outside 4 | b=
# no map
a=#50574144000000000c000000 | zero a MAP01 b | 7 | refused: no map: no marker | b=
a=SQUARE @250:1:37 | zero a MAP02 b | 7 | refused: no map: no marker | b=
a=SQUARE - - | zero a MAP01 b | 7 | refused: no map: missing SECTORS | b=
a=SQUARE @250:1:37 | zero a MAP01 b | 8 | refused: bad lump: size LINEDEFS | b=
a=SQUARE @14:1:09 | zero a MAP01 b | 8 | refused: bad lump: vertex of line 0 | b=
a=SQUARE @64:1:04 | zero a MAP01 b | 8 | refused: bad lump: side of line 3 | b=
a=SQUARE @156:1:01 | zero a MAP01 b | 8 | refused: bad lump: sector of side 2 | b=
a=apart:2049 | zero a MAP01 b | 9 | refused: limit: points | b=
a=SQUARE .1 *229390 | zero a MAP01 b | 9 | refused: limit: lines | b=
a=SQUARE .4 *106522 | zero a MAP01 b | 9 | refused: limit: sectors | b=
# 65,001 entries that have the same 40,000 bytes; and 65,536 entries, none of which is REJECT
a=SQUARE +6:BULK *40000 &64999 @4:4:eefd0000 | zero a MAP01 b | 9 | refused: limit: output bytes | b=
a=SQUARE +6:BULK *40000 &64999 @4:4:eefd0000 @40250:1:37 | zero a MAP01 b | 8 | refused: bad lump: size LINEDEFS | b=
a=SQUARE - +5:BULK &65530 @4:4:00000100 | zero a MAP01 b | 9 | refused: limit: lumps | b=
# words and names
a=SQUARE | | 2 | refused: usage
a=SQUARE | zero a MAP01 | 2 | refused: usage
a=SQUARE | paint a MAP01 b | 2 | refused: usage | b=
a=SQUARE | zero a MAP000001 b | 2 | refused: usage | b=
a=SQUARE | zero a MAP01 b --cert c | 2 | refused: usage | b=, c=
a=SQUARE | zero a MAP01 b -h | 2 | refused: usage | b=
a=SQUARE | zero a MAP01 b --hexen | 2 | refused: usage | b=
a=SQUARE | zero a MAP01 a | 11 | refused: same name | a=SQUARE
a=SQUARE | zero c MAP01 b | 3 | refused: no file wad | b=
# faults
a=SQUARE, reads=0 | zero a MAP01 b | 4 | refused: read fault wad | b=
a=SQUARE, reads=1 | zero a MAP01 b | 4 | refused: read fault wad | b=
a=SQUARE, creates=0 | zero a MAP01 b | 5 | refused: write fault wad | b=
a=SQUARE, appends=0 | zero a MAP01 b | 5 | refused: write fault wad | b=SQUARE =00 @163:164:
a=SQUARE, puts=0 | zero a MAP01 b | 5 | zero MAP01 sec~ | b=SQUARE =00
";

/// The order `build`, and `check` of what it wrote.
pub const BUILD: &str = "\
# the certificate has as many triangles, rays and listed pairs as the worked one
a=U | build a MAP01 b --cert c --workers 1 | 0 | built MAP01 sectors 3 set 1 clear 5 listed 0 | b=U =4400, a=U, c<=#U-GROUPS @26:149:
| check b MAP01 c | 0 | yes sectors 3 set 1 clear 5 listed 0
a=U | build a MAP01 b --cert c --workers 3 | 0 | built MAP01 sectors 3 set 1 clear 5 listed 0 | b=U =4400
| check b MAP01 c | 0 | yes sectors 3 set 1 clear 5 listed 0
a=U | build a MAP01 b --cert c --workers 64 | 0 | built MAP01 sectors 3 set 1 clear 5 listed 0 | b=U =4400
| check b MAP01 c | 0 | yes sectors 3 set 1 clear 5 listed 0
a=U | build a MAP01 b --workers 02 | 0 | built MAP01 sectors 3 set 1 clear 5 listed 0 | b=U =4400, c=
a=U | build a MAP01 b | 0 | built MAP01 sectors 3 set 1 clear 5 listed 0 | b=U =4400, c=
a=SQUARE | build a MAP01 b --cert c | 0 | built MAP01 sectors 1 set 0 clear 1 listed 0 | b=SQUARE =00, c=#SQUARE-GROUPS
| check b MAP01 c | 0 | yes sectors 1 set 0 clear 1 listed 0
a=PAIR | build a MAP01 b --cert c | 0 | built MAP01 sectors 2 set 0 clear 3 listed 0 | b=PAIR =00
| check b MAP01 c | 0 | yes sectors 2 set 0 clear 3 listed 0
a=APART | build a MAP01 b --cert c | 0 | built MAP01 sectors 2 set 1 clear 2 listed 0 | b=APART =06
| check b MAP01 c | 0 | yes sectors 2 set 1 clear 2 listed 0
a=LONE | build a MAP01 b --cert c | 0 | built MAP01 sectors 2 set 2 clear 1 listed 0 | b=LONE =0e
| check b MAP01 c | 0 | yes sectors 2 set 2 clear 1 listed 0
a=NO-LINES | build a MAP01 b --cert c | 0 | built MAP01 sectors 2 set 3 clear 0 listed 0 | b=NO-LINES =0f
| check b MAP01 c | 0 | yes sectors 2 set 3 clear 0 listed 0
a=WIDE | build a MAP01 b --cert c | 0 | built MAP01 sectors 2 set 0 clear 3 listed 0 | b=WIDE =00
| check b MAP01 c | 0 | yes sectors 2 set 0 clear 3 listed 0
a=CROSSROADS | build a MAP01 b --cert c | 0 | built MAP01 sectors 4 set 0 clear 10 listed 0 | b=CROSSROADS =0000
| check b MAP01 c | 0 | yes sectors 4 set 0 clear 10 listed 0
a=DOORS | build a MAP01 b --cert c | 0 | built MAP01 sectors 4 set 1 clear 9 listed 0 | b=DOORS =0810
| check b MAP01 c | 0 | yes sectors 4 set 1 clear 9 listed 0
a=DOORS33 | build a MAP01 b --cert c | 0 | built MAP01 sectors 4 set 0 clear 10 listed 0 | b=DOORS33 =0000
| check b MAP01 c | 0 | yes sectors 4 set 0 clear 10 listed 0
a=SHUT-PAIR | build a MAP01 b --cert c | 0 | built MAP01 sectors 2 set 1 clear 2 listed 0 | b=SHUT-PAIR =06
| check b MAP01 c | 0 | yes sectors 2 set 1 clear 2 listed 0
a=RINGS | build a MAP01 b --cert c | 0 | built MAP01 sectors 2 set 1 clear 2 listed 0 | b=RINGS =06
| check b MAP01 c | 0 | yes sectors 2 set 1 clear 2 listed 0
a=PILLAR | build a MAP01 b --cert c | 0 | built MAP01 sectors 1 set 0 clear 1 listed 0 | b=PILLAR =00
| check b MAP01 c | 0 | yes sectors 1 set 0 clear 1 listed 0
# budgets: each of the three sources has four sequences; the certificate has no tree and ends with the one listed pair
a=U | build a MAP01 b --cert c --budget 1 | 0 | built MAP01 sectors 3 set 0 clear 5 listed 1 | b=U =0000, c<=#U-GROUPS @22:5:0100000000 @106:69:, c>=#00000200
| check b MAP01 c | 0 | yes sectors 3 set 0 clear 5 listed 1
a=LINE3 | build a MAP01 b --cert c --budget 1 | 0 | built MAP01 sectors 3 set 0 clear 5 listed 1 | b=LINE3 =0000, c>=#00000200
| check b MAP01 c | 0 | yes sectors 3 set 0 clear 5 listed 1
a=LINE3 | build a MAP01 --budget full b --cert=c | 0 | built MAP01 sectors 3 set 0 clear 6 listed 0 | b=LINE3 =0000
| check b MAP01 c | 0 | yes sectors 3 set 0 clear 6 listed 0
# U with a room of sector 3 behind line 8: within a budget of four sequences source 0, which has six, is spent, and source 2, which has four, isn't.
# So the pairs (0, 2) and (2, 3) are set, and none is listed
a=U .1 <07000a000100000000000e00ffff0a000b000100000000000e00ffff0b0006000100000000000e00ffff .2 <000000000000000000000000000000000000000000000000000000000300 .3 <4000c0ff0000c0ff .4 *104 @128:2:0400 @136:2:0e00 | build a MAP01 b --cert c --budget 4 | 0 | built MAP01 sectors 4 set 2 clear 8 listed 0 | b=U .1 <07000a000100000000000e00ffff0a000b000100000000000e00ffff0b0006000100000000000e00ffff .2 <000000000000000000000000000000000000000000000000000000000300 .3 <4000c0ff0000c0ff .4 *104 .5 =0449 @128:2:0400 @136:2:0e00
| check b MAP01 c | 0 | yes sectors 4 set 2 clear 8 listed 0
# every pair decided: the certificate is of version 3
a=U | build a MAP01 b --exact --cert c | 0 | built MAP01 sectors 3 set 1 clear 5 listed 0 | b=U =4400, c<=#445343540300
| check b MAP01 c | 0 | yes sectors 3 set 1 clear 5 listed 0
a=LINE3 | build a MAP01 --exact b --cert=c --workers 1 | 0 | built MAP01 sectors 3 set 0 clear 6 listed 0 | b=LINE3 =0000, c<=#445343540300
| check b MAP01 c | 0 | yes sectors 3 set 0 clear 6 listed 0
a=DOORS | build a MAP01 b --cert c --exact --workers 64 | 0 | built MAP01 sectors 4 set 1 clear 9 listed 0 | b=DOORS =0810, c<=#445343540300
| check b MAP01 c | 0 | yes sectors 4 set 1 clear 9 listed 0
a=RINGS | build a MAP01 b --exact --cert c | 0 | built MAP01 sectors 2 set 1 clear 2 listed 0 | b=RINGS =06
| check b MAP01 c | 0 | yes sectors 2 set 1 clear 2 listed 0
a=ISLAND | build a MAP01 b --exact --cert c --report r | 0 | built MAP01 sectors 2 set 0 clear 3 listed 0 | b=ISLAND =00, r=#746f74616c20736574203020636c6561722033206c697374656420300a
| check b MAP01 c | 0 | yes sectors 2 set 0 clear 3 listed 0
a=U | build a MAP01 b --exact --report r | 0 | built MAP01 sectors 3 set 1 clear 5 listed 0 | b=U =4400, c=, r=#736574203020320a746f74616c20736574203120636c6561722035206c697374656420300a
a=NO-LINES | build a MAP01 b --exact --cert c | 0 | built MAP01 sectors 2 set 3 clear 0 listed 0 | b=NO-LINES =0f
| check b MAP01 c | 0 | yes sectors 2 set 3 clear 0 listed 0
a=OPEN | build a MAP01 b --exact --cert c | 10 | refused: bad map: open 0R | b=, c=
a=CROSSED | build a MAP01 b --exact --cert c | 10 | refused: bad map: cross 3 4 | b=, c=
# .. which takes no budget
a=U | build a MAP01 b --exact --budget 5 | 2 | refused: usage | b=
a=U | build a MAP01 b --budget full --exact | 2 | refused: usage | b=
a=U | build a MAP01 b --exact --exact | 2 | refused: usage | b=
a=U | build a MAP01 b --exact=true | 2 | refused: usage | b=
a=U | build a MAP01 b --exact --cert b | 11 | refused: same name | b=
a=U | check a MAP01 c --exact | 2 | refused: usage
a=U | zero a MAP01 b --exact | 2 | refused: usage | b=
# a WAD as a node builder leaves it, and one without REJECT
a=PAIR =06 .3 <40002000 +1:THINGS *20 +5:SEGS *96 +6:SSECTORS *8 +7:NODES *28 +10:BLOCKMAP *40 +11:D_RUNNIN *100 | build a MAP01 b --cert c | 0 | built MAP01 sectors 2 set 0 clear 3 listed 0 | b=PAIR =00 .3 <40002000 +1:THINGS *20 +5:SEGS *96 +6:SSECTORS *8 +7:NODES *28 +10:BLOCKMAP *40 +11:D_RUNNIN *100
| check b MAP01 c | 0 | yes sectors 2 set 0 clear 3 listed 0
a=PAIR =06 .3 <40002000 .1 hexen +1:THINGS *20 +5:SEGS *96 +6:SSECTORS *8 +7:NODES *28 +10:BLOCKMAP *40 +11:BEHAVIOR *16 +12:D_RUNNIN *100 | build a MAP01 b --cert c | 0 | built MAP01 sectors 2 set 0 clear 3 listed 0 | b=PAIR =00 .3 <40002000 .1 hexen +1:THINGS *20 +5:SEGS *96 +6:SSECTORS *8 +7:NODES *28 +10:BLOCKMAP *40 +11:BEHAVIOR *16 +12:D_RUNNIN *100
| check b MAP01 c | 0 | yes sectors 2 set 0 clear 3 listed 0
a=PAIR - | build a map01 b --cert c | 0 | built MAP01 sectors 2 set 0 clear 3 listed 0 | b=PAIR =00
| check b MAP01 c | 0 | yes sectors 2 set 0 clear 3 listed 0
# faces with several names
a=ISLAND | build a MAP01 b --cert c | 0 | built MAP01 sectors 2 set 0 clear 3 listed 0 | b=ISLAND =00, c=#ISLAND-CERT
| check b MAP01 c | 0 | yes sectors 2 set 0 clear 3 listed 0
a=SELFREF | build a MAP01 b --cert c | 0 | built MAP01 sectors 2 set 0 clear 3 listed 0 | b=SELFREF =00
| check b MAP01 c | 0 | yes sectors 2 set 0 clear 3 listed 0
# unsound maps
a=OPEN | build a MAP01 b --cert c | 10 | refused: bad map: open 0R | b=, c=
a=CROSSED | build a MAP01 b --cert c | 10 | refused: bad map: cross 3 4 | b=, c=
# words and names
a=U | build a MAP01 b --workers 65 | 2 | refused: usage | b=
a=U | build a MAP01 b --workers 0 | 2 | refused: usage | b=
a=U | build a MAP01 b --budget 0 | 2 | refused: usage | b=
a=U | build a MAP01 b --budget 4294967297 | 2 | refused: usage | b=
a=U | build a MAP01 b --hexen | 2 | refused: usage | b=
a=U | grid 19 | 2 | refused: usage
a=U | grid 2 --hexen=true | 2 | refused: usage
a=U | grid 2 --hexen --cert c | 2 | refused: usage | c=
a=U | grid +2 | 2 | refused: usage
a=U | build a MAP01 b --cert b | 11 | refused: same name | b=
a=U | build a MAP01 b --cert a | 11 | refused: same name | a=U, b=
# faults: the file is stored by one append, the certificate of 144 bytes by the next
a=U, appends=1 | build a MAP01 b --cert c --budget 1 | 5 | refused: write fault cert | b=U =0000, c=#U-GROUPS @22:5:0100000000 @79:96:
a=U, creates=0 | build a MAP01 b --cert c --budget 1 | 5 | refused: write fault wad | b=, c=
a=U, creates=1 | build a MAP01 b --cert c --budget 1 | 5 | refused: write fault cert | b=U =0000, c=
a=U, puts=0 | build a MAP01 b --cert c --budget 1 | 5 | built MAP01 sectors 3 ~ | b=U =0000, c<=#U-GROUPS @22:5:0100000000 @106:69:, c>=#00000200
# reports; the first of those is `set 0 2` and `total set 1 clear 5 listed 0`, each on a line
a=U | build a MAP01 b --report r | 0 | built MAP01 sectors 3 set 1 clear 5 listed 0 | b=U =4400, c=, r=#736574203020320a746f74616c20736574203120636c6561722035206c697374656420300a
a=U | build a MAP01 b --cert c --report=r --budget 1 | 0 | built MAP01 sectors 3 set 0 clear 5 listed 1 | b=U =0000, c>=#00000200, r=#6c6973746564203020320a746f74616c20736574203020636c6561722035206c697374656420310a
| check b MAP01 c | 0 | yes sectors 3 set 0 clear 5 listed 1
a=PAIR | build a MAP01 b --report r | 0 | built MAP01 sectors 2 set 0 clear 3 listed 0 | r=#746f74616c20736574203020636c6561722033206c697374656420300a
a=U | build a MAP01 b --report b | 11 | refused: same name | b=
a=U | build a MAP01 b --report a | 11 | refused: same name | a=U, b=
a=U | build a MAP01 b --cert r --report r | 11 | refused: same name | b=, r=
a=OPEN | build a MAP01 b --cert c --report r | 10 | refused: bad map: open 0R | b=, c=, r=
a=U, appends=1 | build a MAP01 b --cert c --report r --budget 1 | 5 | refused: write fault cert | b=U =0000, c=#U-GROUPS @22:5:0100000000 @79:96:, r=
a=U, creates=2 | build a MAP01 b --cert c --report r | 5 | refused: write fault report | b=U =4400, c<=#U-GROUPS @26:149:, r=
a=U, creates=1 | build a MAP01 b --report r | 5 | refused: write fault report | b=U =4400, r=
a=U, appends=2 | build a MAP01 b --cert c --report r | 5 | refused: write fault report | b=U =4400, r=#73657420
a=U, appends=3 | build a MAP01 b --cert c --report r | 5 | refused: write fault report | b=U =4400, r=#736574203020320a746f74616c20736574203120636c
a=U, puts=0 | build a MAP01 b --report r | 5 | built MAP01 sectors 3 ~ | b=U =4400, r=#736574203020320a746f74616c20736574203120636c6561722035206c697374656420300a
a=U | grid 2 --report r | 2 | refused: usage | r=
a=SQUARE | zero a MAP01 b --report r | 2 | refused: usage | b=, r=
";

/// The order `need`, and a build with a budget that is enough.
pub const NEED: &str = "\
a=LINE3 | need a MAP01 | 0 | need MAP01 most 4 enough 768 | a=LINE3
a=SQUARE | need a MAP01 | 0 | need MAP01 most 0 enough 1
a=U | need a MAP01 | 0 | need MAP01 most 4 enough 2000
a=LINE3 .1 hexen +6:BEHAVIOR | need a MAP01 | 0 | need MAP01 most 4 enough 768
# no sector, and so no source
a=NO-LINES .4 = | need a MAP01 | 0 | need MAP01 most 0 enough 1
a=LINE3 | need a MAP01 --budget enough | 2 | refused: usage
a=LINE3 | build a MAP01 b --cert c --budget enough | 0 | built MAP01 sectors 3 set 0 clear 6 listed 0 | b=LINE3 =0000
| check b MAP01 c | 0 | yes sectors 3 set 0 clear 6 listed 0
";
