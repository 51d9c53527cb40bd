//! Rows of verbs over maps of UDMF, whose texts stand in `worked_maps`.

use crate::table::hold;
use std::test::Fail;

// A text is read as the map that it spells, in the unit of its decimals.
const READ: &str = "\
a=PAIR +6:MAP02 +7:TEXTMAP :PAIR +8:ZNODES *3 +9:ENDMAP | zero a MAP02 b | 0 | zero MAP02 sectors 2 bytes 1 | b=PAIR +6:MAP02 +7:TEXTMAP :PAIR +8:REJECT =00 +9:ZNODES *3 +10:ENDMAP
a=PAIR +6:MAP02 +7:TEXTMAP :PAIR +8:ZNODES *3 +9:ENDMAP | audit a MAP02 | 0 | sound lines 7 points 6 sectors 2 triangles 4
a=PAIR +6:MAP02 +7:TEXTMAP :PAIR +8:ZNODES *3 +9:ENDMAP | build a MAP02 b --cert c | 0 | built MAP02 sectors 2 set 0 clear 3 listed 0 | b=PAIR +6:MAP02 +7:TEXTMAP :PAIR +8:REJECT =00 +9:ZNODES *3 +10:ENDMAP
| check b MAP02 c | 0 | yes sectors 2 set 0 clear 3 listed 0
a=PAIR +6:MAP02 +7:TEXTMAP :PAIR +8:ZNODES *3 +9:ENDMAP | all a b --only MAP02 --report r | 0 | all maps 1 built 1 refused 0 | b=PAIR +6:MAP02 +7:TEXTMAP :PAIR +8:REJECT =00 +9:ZNODES *3 +10:ENDMAP
a=PAIR +6:MAP02 +7:TEXTMAP :PAIR +8:ZNODES *3 +9:ENDMAP | verify a --only MAP02 | 1 | verify maps 1 right 0 wrong 0 short 1 refused 0
a=PAIR +6:MAP02 +7:TEXTMAP :PAIR +8:ZNODES *3 +9:ENDMAP | zero a TEXTMAP b | 7 | refused: no map: missing LINEDEFS | b=
a=PAIR +6:MAP02 +7:TEXTMAP :PAIR +8:ZNODES *3 +9:ENDMAP | all a b --only ENDMAP | 7 | refused: no map: missing LINEDEFS | b=
a=PAIR +6:MAP02 +7:TEXTMAP :SQUARE +8:ZNODES *3 +9:ENDMAP | audit a MAP02 | 0 | sound lines 4 points 4 sectors 1 triangles 2
a=PAIR +6:MAP02 +7:TEXTMAP :DAMPER +8:ZNODES *3 +9:ENDMAP | sound a MAP02 0 1 | 0 | noise 0 1 by 0R
# decimals: a certificate is one of PAIR too, and a ray of PAIR is one of such a map
a=PAIR =00 +6:MAP02 +7:TEXTMAP :TENTHS +8:ENDMAP | build a MAP02 b --cert c | 0 | built MAP02 sectors 2 set 0 clear 3 listed 0 | b=PAIR =00 +6:MAP02 +7:TEXTMAP :TENTHS +8:REJECT =00 +9:ENDMAP
| check b MAP01 c | 0 | yes sectors 2 set 0 clear 3 listed 0
| check b MAP02 c | 0 | yes sectors 2 set 0 clear 3 listed 0
a=PAIR +6:MAP02 +7:TEXTMAP :TENTHS +8:ENDMAP | ray a MAP02 2R,2L,0,1,-32 | 0 | sight 0 1
| why a MAP01 0 1 | 0 | sight 0 1 by 2R,2L,0,128,-8191
| why a MAP02 0 1 | 0 | =
a=PAIR +6:MAP02 +7:TEXTMAP :FARTHEST +8:ENDMAP | build a MAP02 b --cert c | 0 | built MAP02 sectors 2 set 0 clear 3 listed 0
| check b MAP02 c | 0 | yes sectors 2 set 0 clear 3 listed 0
| build a MAP02 b --cert c --exact | 0 | built MAP02 sectors 2 set 0 clear 3 listed 0
| check b MAP02 c | 0 | yes sectors 2 set 0 clear 3 listed 0
| ray a MAP02 2R,2L,0,1,0 | 0 | sight 0 1
| ray a MAP02 2R,2L,0,1,-33554431 | 0 | sight 0 1
| ray a MAP02 2R,2L,0,1,-33554432 | 1 | no ray: not split 2
";

// A list tells the unit of decimals.
const UNITS: &str = "\
a=PAIR +6:MAP02 +7:TEXTMAP :PAIR +8:ZNODES *3 +9:ENDMAP | maps a --only MAP02 --report r | 0 | maps 1 whole 0 short 1 refused 0 | r=#4d415030322075646d66206c696e6573203720706f696e7473203620736563746f727320322072656a6563742030206f6620310a
a=PAIR +6:MAP02 +7:TEXTMAP :PAIR +8:ZNODES *3 +9:ENDMAP | maps a --only MAP02 --report r --json | 0 | maps 1 whole 0 short 1 refused 0 | r=#7b226d6170223a224d41503032222c22666f726d6174223a2275646d66222c226c696e6573223a372c22706f696e7473223a362c22736563746f7273223a322c2272656a656374223a302c226f66223a317d0a
# a vertex that has halves is of no line
a=PAIR +6:MAP02 +7:TEXTMAP :SQUARE +8:ZNODES *3 +9:ENDMAP | maps a --only MAP02 --report r | 0 | maps 1 whole 0 short 1 refused 0 | r=#4d415030322075646d66206c696e6573203420706f696e7473203420736563746f727320312072656a6563742030206f6620310a
a=PAIR +6:MAP02 +7:TEXTMAP :SQUARE +8:ZNODES *3 +9:ENDMAP | maps a --only MAP02 --report r --json | 0 | maps 1 whole 0 short 1 refused 0 | r=#7b226d6170223a224d41503032222c22666f726d6174223a2275646d66222c226c696e6573223a342c22706f696e7473223a342c22736563746f7273223a312c2272656a656374223a302c226f66223a317d0a
a=PAIR +6:MAP02 +7:TEXTMAP :TENTHS +8:ZNODES *3 +9:ENDMAP | maps a --only MAP02 --report r | 0 | maps 1 whole 0 short 1 refused 0 | r=#4d415030322075646d6620756e697420302e31206c696e6573203720706f696e7473203620736563746f727320322072656a6563742030206f6620310a
a=PAIR +6:MAP02 +7:TEXTMAP :TENTHS +8:ZNODES *3 +9:ENDMAP | maps a --only MAP02 --report r --json | 0 | maps 1 whole 0 short 1 refused 0 | r=#7b226d6170223a224d41503032222c22666f726d6174223a2275646d66222c22756e6974223a22302e31222c226c696e6573223a372c22706f696e7473223a362c22736563746f7273223a322c2272656a656374223a302c226f66223a317d0a
a=PAIR +6:MAP02 +7:TEXTMAP :THOUSANDTHS +8:ZNODES *3 +9:ENDMAP | maps a --only MAP02 --report r | 0 | maps 1 whole 0 short 1 refused 0 | r=#4d415030322075646d6620756e697420302e303031206c696e6573203320706f696e7473203320736563746f727320312072656a6563742030206f6620310a
a=PAIR +6:MAP02 +7:TEXTMAP :THOUSANDTHS +8:ZNODES *3 +9:ENDMAP | maps a --only MAP02 --report r --json | 0 | maps 1 whole 0 short 1 refused 0 | r=#7b226d6170223a224d41503032222c22666f726d6174223a2275646d66222c22756e6974223a22302e303031222c226c696e6573223a332c22706f696e7473223a332c22736563746f7273223a312c2272656a656374223a302c226f66223a317d0a
a=PAIR +6:MAP02 +7:TEXTMAP :FARTHEST +8:ZNODES *3 +9:ENDMAP | maps a --only MAP02 --report r | 0 | maps 1 whole 0 short 1 refused 0 | r=#4d415030322075646d6620756e697420302e30303030303031206c696e6573203720706f696e7473203620736563746f727320322072656a6563742030206f6620310a
a=PAIR +6:MAP02 +7:TEXTMAP :FARTHEST +8:ZNODES *3 +9:ENDMAP | maps a --only MAP02 --report r --json | 0 | maps 1 whole 0 short 1 refused 0 | r=#7b226d6170223a224d41503032222c22666f726d6174223a2275646d66222c22756e6974223a22302e30303030303031222c226c696e6573223a372c22706f696e7473223a362c22736563746f7273223a322c2272656a656374223a302c226f66223a317d0a
";

// Scales of pictures are in map units, and so are the places in titles.
const SCALES: &str = "\
a=PAIR +6:MAP02 +7:TEXTMAP :THOUSANDTHS +8:ENDMAP | draw a MAP02 b | 0 | drawn MAP02 lines 3 sectors 1 | b=%THOUSANDTHS-PLAN
a=PAIR +6:MAP02 +7:TEXTMAP :SMALL +8:REJECT =00 +9:ENDMAP | draw a MAP02 b 0 | 0 | drawn MAP02 row 0 set 0 clear 1 | b=%SMALL-ROW
| draw a MAP02 b 0 0 | 0 | drawn MAP02 pair 0 0 touch | b=%SMALL-PAIR
a=PAIR +6:MAP02 +7:TEXTMAP :OPEN-TENTHS +8:ENDMAP | draw a MAP02 b --faults | 0 | drawn MAP02 faults open 0R | b=%TENTHS-FAULTS
";

// Worked texts, and the order, the code and the line of each.
const EXAMPLES: &str = "\
a=PAIR +6:MAP02 +7:TEXTMAP :EDITOR-SQUARE +8:ZNODES *3 +9:ENDMAP | zero a MAP02 b | 0 | zero MAP02 sectors 1 bytes 1
a=PAIR +6:MAP02 +7:TEXTMAP :SHUT-PAIR +8:ZNODES *3 +9:ENDMAP | build a MAP02 b | 0 | built MAP02 sectors 2 set 1 clear 2 listed 0
a=PAIR +6:MAP02 +7:TEXTMAP :CUT-SQUARE +8:ZNODES *3 +9:ENDMAP | audit a MAP02 | 8 | refused: bad lump: text 436
a=PAIR +6:MAP02 +7:TEXTMAP :EIGHTHS +8:ZNODES *3 +9:ENDMAP | audit a MAP02 | 0 | sound lines 1 points 2 sectors 0 triangles 0
a=PAIR +6:MAP02 +7:TEXTMAP :SHOWN-PORTAL +8:ZNODES *3 +9:ENDMAP | zero a MAP02 b | 8 | refused: bad lump: portal of line 1 | b=
a=PAIR +6:MAP02 +7:TEXTMAP :SPACED-ETERNITY +8:ZNODES *3 +9:ENDMAP | audit a MAP02 | 8 | refused: bad lump: namespace 12
a=PAIR +6:MAP02 +7:TEXTMAP :VERTEX-FIRST +8:ZNODES *3 +9:ENDMAP | audit a MAP02 | 8 | refused: bad lump: namespace 0
a=PAIR +6:MAP02 +7:TEXTMAP :FRACTION-BEHIND +8:ZNODES *3 +9:ENDMAP | audit a MAP02 | 8 | refused: bad lump: value 31
a=PAIR +6:MAP02 +7:TEXTMAP :BLOCK-IN-SECTOR +8:ZNODES *3 +9:ENDMAP | audit a MAP02 | 8 | refused: bad lump: text 36
a=PAIR +6:MAP02 +7:TEXTMAP :OPEN-STRING-IN-SECTOR +8:ZNODES *3 +9:ENDMAP | audit a MAP02 | 8 | refused: bad lump: text 29
a=PAIR +6:MAP02 +7:TEXTMAP :GREATEST-SIDE +8:ZNODES *3 +9:ENDMAP | audit a MAP02 | 8 | refused: bad lump: side of line 0
a=PAIR +6:MAP02 +7:TEXTMAP :SIDE-WITHOUT-SECTOR +8:ZNODES *3 +9:ENDMAP | audit a MAP02 | 8 | refused: bad lump: sector of side 1
";

// What is said of texts that are no map.
const FAULTS: &str = "\
# no text
a=PAIR +6:MAP02 +7:TEXTMAP +8:ZNODES *3 +9:ENDMAP | zero a MAP02 b | 8 | refused: bad lump: namespace 0 | b=
# what is wrong with a text is its name
a=PAIR +6:MAP02 +7:TEXTMAP :NO-NAMESPACE +8:ZNODES *3 +9:ENDMAP | zero a MAP02 b | 8 | refused: bad lump: namespace 0 | b=
a=PAIR +6:MAP02 +7:TEXTMAP :ETERNITY +8:ZNODES *3 +9:ENDMAP | zero a MAP02 b | 8 | refused: bad lump: namespace 10 | b=
a=PAIR +6:MAP02 +7:TEXTMAP :BLOCK-IN-VERTEX +8:ZNODES *3 +9:ENDMAP | zero a MAP02 b | 8 | refused: bad lump: text 25 | b=
a=PAIR +6:MAP02 +7:TEXTMAP :OPEN-STRING +8:ZNODES *3 +9:ENDMAP | zero a MAP02 b | 8 | refused: bad lump: text 24 | b=
a=PAIR +6:MAP02 +7:TEXTMAP :FRACTION-OF-LINE +8:ZNODES *3 +9:ENDMAP | zero a MAP02 b | 8 | refused: bad lump: value 28 | b=
a=PAIR +6:MAP02 +7:TEXTMAP :PORTAL +8:ZNODES *3 +9:ENDMAP | zero a MAP02 b | 8 | refused: bad lump: portal of line 1 | b=
# seven places, and 2^25 units, are the most
a=PAIR +6:MAP02 +7:TEXTMAP :EIGHT-PLACES +8:ZNODES *3 +9:ENDMAP | zero a MAP02 b | 8 | refused: bad lump: coordinate of vertex 1 | b=
a=PAIR +6:MAP02 +7:TEXTMAP :SEVEN-PLACES +8:ZNODES *3 +9:ENDMAP | zero a MAP02 b | 8 | refused: bad lump: side of line 0 | b=
a=PAIR +6:MAP02 +7:TEXTMAP :TOO-FAR +8:ZNODES *3 +9:ENDMAP | zero a MAP02 b | 8 | refused: bad lump: coordinate of vertex 1 | b=
a=PAIR +6:MAP02 +7:TEXTMAP :FARTHEST-WEST +8:ZNODES *3 +9:ENDMAP | zero a MAP02 b | 8 | refused: bad lump: side of line 0 | b=
a=PAIR +6:MAP02 +7:TEXTMAP :TOO-FAR-IN-THOUSANDTHS +8:ZNODES *3 +9:ENDMAP | zero a MAP02 b | 8 | refused: bad lump: coordinate of vertex 0 | b=
# the unit is that of another vertex
a=PAIR +6:MAP02 +7:TEXTMAP :UNIT-OF-ANOTHER +8:ZNODES *3 +9:ENDMAP | zero a MAP02 b | 8 | refused: bad lump: coordinate of vertex 1 | b=
a=PAIR +6:MAP02 +7:TEXTMAP :NO-Y +8:ZNODES *3 +9:ENDMAP | zero a MAP02 b | 8 | refused: bad lump: coordinate of vertex 1 | b=
a=PAIR +6:MAP02 +7:TEXTMAP :NO-SIDE +8:ZNODES *3 +9:ENDMAP | zero a MAP02 b | 8 | refused: bad lump: side of line 0 | b=
a=PAIR +6:MAP02 +7:TEXTMAP :NO-VERTEX +8:ZNODES *3 +9:ENDMAP | zero a MAP02 b | 8 | refused: bad lump: vertex of line 0 | b=
";

// The lumps of a text end before another map.
const ENDS: &str = "\
# the REJECT of the run is replaced; BEHAVIOR and lumps of a user stand in it
a=PAIR +6:MAP02 +7:TEXTMAP :PAIR +8:BEHAVIOR *2 +9:REJECT =ff +10:OWN +11:ENDMAP | all a b | 0 | all maps 2 built 2 refused 0 | b=PAIR =00 +6:MAP02 +7:TEXTMAP :PAIR +8:BEHAVIOR *2 +9:REJECT =00 +10:OWN +11:ENDMAP
# two REJECTs, none of the lumps that end a map, and a lump of another format
a=PAIR +6:MAP02 +7:TEXTMAP :PAIR +8:REJECT +9:REJECT +10:ENDMAP | zero a MAP02 b | 7 | refused: no map: missing ENDMAP | b=
a=PAIR +6:MAP02 +7:TEXTMAP :PAIR +8:ZNODES | zero a MAP02 b | 7 | refused: no map: missing ENDMAP | b=
a=PAIR +6:MAP02 +7:TEXTMAP :PAIR +8:NODES +9:ENDMAP | zero a MAP02 b | 7 | refused: no map: missing ENDMAP | b=
a=PAIR +6:MAP02 +7:TEXTMAP :PAIR +8:TEXTMAP +9:ENDMAP | zero a MAP02 b | 7 | refused: no map: missing ENDMAP | b=
# the last map of a name
a=PAIR +6:MAP01 +7:TEXTMAP :PAIR +8:ENDMAP | zero a MAP01 b | 0 | zero MAP01 sectors 2 bytes 1 | b=PAIR +6:MAP01 +7:TEXTMAP :PAIR +8:REJECT =00 +9:ENDMAP
";

// The limits of the blocks of a text, which has as many and one more. The directory stands in front, so that the last
// sixteen bytes of the text can be repeated.
const LIMITS: &str = "\
# 65,535 vertices and 65,536
a=#50574144030000000c0000003c000000000000004d415030310000003c00000009000800544558544d4150003c00000000000000454e444d415000006e616d6573706163653d22646f6f6d223b7665727465787b7d7665727465787b7d7665727465787b7d &32766 | audit a MAP01 | 0 | sound lines 0 points 0 sectors 0 triangles 0
a=#50574144030000000c0000003c000000000000004d415030310000003c00000011000800544558544d4150003c00000000000000454e444d415000006e616d6573706163653d22646f6f6d223b7665727465787b7d7665727465787b7d &32767 | zero a MAP01 b | 9 | refused: limit: vertices | b=
# 65,534 sides and 65,535
a=#50574144030000000c0000003c000000000000004d415030310000003c000000f1ff0f00544558544d4150003c00000000000000454e444d415000006e616d6573706163653d22646f6f6d223b736964656465667b7d20202020202020 &65533 | audit a MAP01 | 0 | sound lines 0 points 0 sectors 0 triangles 0
a=#50574144030000000c0000003c000000000000004d415030310000003c00000001001000544558544d4150003c00000000000000454e444d415000006e616d6573706163653d22646f6f6d223b736964656465667b7d20202020202020 &65534 | zero a MAP01 b | 9 | refused: limit: sides | b=
# 4,096 sectors and 4,097, 16,384 and 16,385
a=#50574144030000000c0000003c000000000000004d415030310000003c00000011800000544558544d4150003c00000000000000454e444d415000006e616d6573706163653d22646f6f6d223b736563746f727b7d736563746f727b7d &2047 | audit a MAP01 | 0 | sound lines 0 points 0 sectors 4096 triangles 0
a=#50574144030000000c0000003c000000000000004d415030310000003c00000019800000544558544d4150003c00000000000000454e444d415000006e616d6573706163653d22646f6f6d223b736563746f727b7d736563746f727b7d736563746f727b7d &2047 | zero a MAP01 b | 9 | refused: limit: sectors | b=
a=#50574144030000000c0000003c000000000000004d415030310000003c00000011000200544558544d4150003c00000000000000454e444d415000006e616d6573706163653d22646f6f6d223b736563746f727b7d736563746f727b7d &8191 | audit a MAP01 --large | 0 | sound lines 0 points 0 sectors 16384 triangles 0
a=#50574144030000000c0000003c000000000000004d415030310000003c00000019000200544558544d4150003c00000000000000454e444d415000006e616d6573706163653d22646f6f6d223b736563746f727b7d736563746f727b7d736563746f727b7d &8191 | zero a MAP01 b --large | 9 | refused: limit: sectors | b=
# 16,384 lines and 16,385, 32,768 and 32,769
a=#50574144030000000c0000003c000000000000004d415030310000003c00000011000400544558544d4150003c00000000000000454e444d415000006e616d6573706163653d22646f6f6d223b6c696e656465667b7d20202020202020 &16383 | zero a MAP01 b | 8 | refused: bad lump: vertex of line 0 | b=
a=#50574144030000000c0000003c000000000000004d415030310000003c00000021000400544558544d4150003c00000000000000454e444d415000006e616d6573706163653d22646f6f6d223b6c696e656465667b7d20202020202020 &16384 | zero a MAP01 b | 9 | refused: limit: lines | b=
a=#50574144030000000c0000003c000000000000004d415030310000003c00000011000800544558544d4150003c00000000000000454e444d415000006e616d6573706163653d22646f6f6d223b6c696e656465667b7d20202020202020 &32767 | zero a MAP01 b --large | 8 | refused: bad lump: vertex of line 0 | b=
a=#50574144030000000c0000003c000000000000004d415030310000003c00000021000800544558544d4150003c00000000000000454e444d415000006e616d6573706163653d22646f6f6d223b6c696e656465667b7d20202020202020 &32768 | zero a MAP01 b --large | 9 | refused: limit: lines | b=
";

#[test]
fn texts_come_out_as_the_maps_that_they_spell(rt: HostRuntime) -> Result<(), Fail> {
    for rows in [READ, UNITS, SCALES, EXAMPLES, FAULTS, ENDS, LIMITS] {
        hold(&rt, rt.alloc(), rows)?;
    }
    Ok(())
}
