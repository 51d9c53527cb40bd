//! Rows of reports and verdicts as JSON.

use crate::table::hold;
use std::test::Fail;

/// The reports of `all`, `verify`, `maps` and `audit`, each line a JSON object.
const JSON: &str = "\
# what comes of the maps of a WAD
a=PAIR U .6 - +6:MAP02 OPEN =de .12 - +12:MAP03 | all a b --report r --json | 0 | all maps 3 built 2 refused 1 | r=#7b226d6170223a224d41503031222c22736574223a302c22636c656172223a332c226c6973746564223a302c227265706c61636564223a307d0a7b226d6170223a224d41503032222c22736574223a312c22636c656172223a352c226c6973746564223a302c227265706c61636564223a307d0a7b226d6170223a224d41503033222c2272656675736564223a22626164206d61703a206f70656e203052222c226b657074223a22736574227d0a
a=PAIR U .6 - +6:MAP02 OPEN =de .12 - +12:MAP03 | all a b --only MAP03 --json --refused clear --report r | 0 | all maps 1 built 0 refused 1 cleared 1 | r=#7b226d6170223a224d41503033222c2272656675736564223a22626164206d61703a206f70656e203052222c22636c6561726564223a747275657d0a
a=U =0000 | --json all a b --report r | 0 | all maps 1 built 1 refused 0 | b=U =4400, r=#7b226d6170223a224d41503031222c22736574223a312c22636c656172223a352c226c6973746564223a302c226368616e676564223a327d0a
a=U =44 | all a b --report r --json | 0 | all maps 1 built 1 refused 0 | b=U =4400, r=#7b226d6170223a224d41503031222c22736574223a312c22636c656172223a352c226c6973746564223a302c227265706c61636564223a317d0a
a=U | all a b --report r --json --budget 1 | 0 | all maps 1 built 1 refused 0 | b=U =0000, r=#7b226d6170223a224d41503031222c22736574223a302c22636c656172223a352c226c6973746564223a312c227265706c61636564223a307d0a
a=OPEN | all a b --report r --json | 0 | all maps 1 built 0 refused 1 | b=OPEN, r=#7b226d6170223a224d41503031222c2272656675736564223a22626164206d61703a206f70656e203052222c226b657074223a22636c656172227d0a
# names with a quotation mark and a backslash
a=OPEN .0 - +0:A\"B\\C | all a b --report r --json | 0 | all maps 1 built 0 refused 1 | r=#7b226d6170223a22415c22425c5c43222c2272656675736564223a22626164206d61703a206f70656e203052222c226b657074223a22636c656172227d0a
a=U =4400 .0 - +0:\"\\\" | verify a --report r --json | 0 | verify maps 1 right 1 wrong 0 short 0 refused 0 | r=#7b226d6170223a225c225c5c5c22222c2277726f6e67223a302c226d697373696e67223a307d0a
a=U =4400 .0 - +0:\"\\\" | verify a --report r | 0 | verify maps 1 right 1 wrong 0 short 0 refused 0 | r=#225c222077726f6e672030206d697373696e6720300a
# what each map's own REJECT says
a=U =4600 | verify a --report r --json | 1 | verify maps 1 right 0 wrong 1 short 0 refused 0 | r=#7b226d6170223a224d41503031222c2277726f6e67223a312c226d697373696e67223a302c226669727374223a5b302c315d2c226279223a22354c2c35522c2d3132382c302c31227d0a
a=U =4500 | verify a --report r --json | 1 | verify maps 1 right 0 wrong 1 short 0 refused 0 | r=#7b226d6170223a224d41503031222c2277726f6e67223a312c226d697373696e67223a302c226669727374223a5b302c305d2c226279223a22746f756368227d0a
a=U =0000 | verify a --report r --json | 0 | verify maps 1 right 1 wrong 0 short 0 refused 0 | r=#7b226d6170223a224d41503031222c2277726f6e67223a302c226d697373696e67223a327d0a
a=U =44 | verify a --report r --json | 1 | verify maps 1 right 0 wrong 0 short 1 refused 0 | r=#7b226d6170223a224d41503031222c2273686f7274223a312c226f66223a327d0a
a=OPEN =de | verify a --report r --json | 0 | verify maps 1 right 0 wrong 0 short 0 refused 1 | r=#7b226d6170223a224d41503031222c2272656675736564223a22626164206d61703a206f70656e203052227d0a
a=#50574144000000000c000000 | verify a --report r --json | 0 | verify maps 0 right 0 wrong 0 short 0 refused 0 | r=#
# what maps hold
a=U =4400 | maps a --report r --json | 0 | maps 1 whole 1 short 0 refused 0 | r=#7b226d6170223a224d41503031222c22666f726d6174223a22646f6f6d222c226c696e6573223a31322c22706f696e7473223a31302c22736563746f7273223a332c2272656a656374223a322c226f66223a322c22736574223a327d0a
a=U =44 | maps a --report r --json | 0 | maps 1 whole 0 short 1 refused 0 | r=#7b226d6170223a224d41503031222c22666f726d6174223a22646f6f6d222c226c696e6573223a31322c22706f696e7473223a31302c22736563746f7273223a332c2272656a656374223a312c226f66223a327d0a
a=SQUARE @14:1:09 | maps a --report r --json | 0 | maps 1 whole 0 short 0 refused 1 | r=#7b226d6170223a224d41503031222c2272656675736564223a22626164206c756d703a20766572746578206f66206c696e652030227d0a
# the faults of a map
a=CROSSED | audit a MAP01 --report r --json | 1 | refused: bad map: cross 3 4 | r=#7b226661756c74223a2263726f7373222c226c696e6573223a5b332c345d2c226174223a5b33322c305d7d0a7b226661756c74223a226c6f6f736520656e64222c226174223a5b33322c2d33325d2c226c696e65223a347d0a7b226661756c74223a226c6f6f736520656e64222c226174223a5b33322c33325d2c226c696e65223a347d0a
a=OVERLAPPED | audit a MAP01 --json --report r | 1 | refused: bad map: overlap 0 4 | r=#7b226661756c74223a226f7665726c6170222c226c696e6573223a5b302c345d2c2266726f6d223a5b302c305d2c22746f223a5b302c36345d7d0a
a=TOUCHED | audit a MAP01 --report r --json | 1 | refused: bad map: touch 0 4 | r=#7b226661756c74223a22746f756368222c226c696e6573223a5b302c345d2c226174223a5b302c33325d7d0a7b226661756c74223a226c6f6f736520656e64222c226174223a5b302c33325d2c226c696e65223a347d0a7b226661756c74223a226c6f6f736520656e64222c226174223a5b33322c33325d2c226c696e65223a347d0a
a=OPEN | audit a MAP01 --report r --json | 1 | refused: bad map: open 0R | r=#7b226661756c74223a226f70656e222c2273696465223a223052222c22736563746f72223a302c2266726f6d223a5b302c305d2c22746f223a5b302c36345d7d0a7b226661756c74223a226f70656e222c2273696465223a223152222c22736563746f72223a302c2266726f6d223a5b302c36345d2c22746f223a5b36342c36345d7d0a7b226661756c74223a226f70656e222c2273696465223a223252222c22736563746f72223a302c2266726f6d223a5b36342c36345d2c22746f223a5b36342c305d7d0a7b226661756c74223a22746f726e20636f726e6572222c226174223a5b302c305d2c226279223a223052227d0a7b226661756c74223a22676170222c2266726f6d223a5b302c305d2c22746f223a5b36342c305d7d0a7b226661756c74223a226c6f6f736520656e64222c226174223a5b302c305d2c226c696e65223a307d0a7b226661756c74223a226c6f6f736520656e64222c226174223a5b36342c305d2c226c696e65223a327d0a
a=LONE | audit a MAP01 --report r --json | 0 | sound lines 4 points 4 sectors 2 triangles 2 | r=#7b22736f756e64223a747275657d0a7b22736c6970223a22736563746f7220776974686f757420612073696465222c22736563746f72223a317d0a
a=SPLINTER | audit a MAP01 --report r --json | 0 | sound lines 5 points 6 sectors 1 triangles .. | r=#7b22736f756e64223a747275657d0a7b226661756c74223a226c6f6f736520656e64222c226174223a5b34382c31365d2c226c696e65223a347d0a7b226661756c74223a226c6f6f736520656e64222c226174223a5b35322c31385d2c226c696e65223a347d0a7b22736c6970223a226c696e6520776974686f757420612073696465222c226c696e65223a342c2266726f6d223a5b34382c31365d2c22746f223a5b35322c31385d7d0a
# it takes a report of rows
a=U | all a b --json | 2 | refused: usage | a=U, b=, r=
a=U | verify a --json | 2 | refused: usage | a=U, b=, r=
a=U | maps a --json | 2 | refused: usage | a=U, b=, r=
a=U | audit a MAP01 --json | 2 | refused: usage | a=U, b=, r=
a=U | build a MAP01 b --report r --json | 2 | refused: usage | a=U, b=, r=
a=U | check a MAP01 c --json --report r | 2 | refused: usage | a=U, b=, r=
a=U | check a MAP01 c --json --json | 2 | refused: usage | a=U, b=, r=
a=U | need a MAP01 --json | 2 | refused: usage | a=U, b=, r=
a=U | zero a MAP01 b --json | 2 | refused: usage | a=U, b=, r=
a=U | grid 2 --json | 2 | refused: usage | a=U, b=, r=
a=U | verify a --report r --json --json | 2 | refused: usage | a=U, b=, r=
a=U | verify a --report r --json=true | 2 | refused: usage | a=U, b=, r=
a=U | verify a --report a --json | 11 | refused: same name | a=U
a=U =4400, creates=0 | verify a --report r --json | 5 | refused: write fault report | r=
";

#[test]
fn each_line_of_a_report_is_an_object(rt: HostRuntime) -> Result<(), Fail> {
    hold(&rt, rt.alloc(), JSON)
}

/// The verdicts of `check`. Each is that of a row in words: the reason of a no is what these say behind `no`.
const VERDICTS: &str = "\
a=U =4400, c=#U-CERT | check a MAP01 c --json | 0 | {\"verdict\":\"yes\",\"sectors\":3,\"set\":1,\"clear\":5,\"listed\":0} | a=U =4400, c=#U-CERT
a=U =4400, c=#U-GROUPS | --json check a MAP01 c | 0 | {\"verdict\":\"yes\",\"sectors\":3,\"set\":1,\"clear\":5,\"listed\":0}
a=DOORS =0810, c=#DOORS-EXACT | check a MAP01 --json c --large | 0 | {\"verdict\":\"yes\",\"sectors\":4,\"set\":1,\"clear\":9,\"listed\":0}
a=U | build a MAP01 b --cert c --budget 1 | 0 | ..
| check b MAP01 c --json | 0 | {\"verdict\":\"yes\",\"sectors\":3,\"set\":0,\"clear\":5,\"listed\":1}
# each kind of no
a=U, c=#U-CERT | check a MAP01 c --json | 1 | {\"verdict\":\"no\",\"reason\":\"table: 0 bytes, 2 expected\"}
a=U =4400, c=#U-CERT @0:1:45 | check a MAP01 c --json | 1 | {\"verdict\":\"no\",\"reason\":\"cert: magic\"}
a=U =4400, c=#U-CERT @4:1:09 | check a MAP01 c --json | 1 | {\"verdict\":\"no\",\"reason\":\"cert: version\"}
a=U =4400, c=#U-CERT @4:157: | check a MAP01 c --json | 1 | {\"verdict\":\"no\",\"reason\":\"cert: short 4\"}
a=U =4400, c=#U-CERT @10:1:0d | check a MAP01 c --json | 1 | {\"verdict\":\"no\",\"reason\":\"cert: range 10\"}
a=U =4400, c=#U-CERT @92:1:01 | check a MAP01 c --json | 1 | {\"verdict\":\"no\",\"reason\":\"cert: order 92\"}
a=U =4400, c=#U-CERT @161:0:00 | check a MAP01 c --json | 1 | {\"verdict\":\"no\",\"reason\":\"cert: trailing 161\"}
a=U =4400, c=#U-CERT @12:1:07 @84:8: | check a MAP01 c --json | 1 | {\"verdict\":\"no\",\"reason\":\"mesh: mate 4\"}
a=SQUARE =00 @64:2:ffff, c=#SQUARE-CERT | check a MAP01 c --json | 1 | {\"verdict\":\"no\",\"reason\":\"mesh: side 3R\"}
a=ISLAND =00, c=#ISLAND-CERT @30:1:01 @34:2: | check a MAP01 c --json | 1 | {\"verdict\":\"no\",\"reason\":\"face 0\"}
a=ISLAND =00, c=#ISLAND-CERT @12:1:02 @36:0:01000100 | check a MAP01 c --json | 1 | {\"verdict\":\"no\",\"reason\":\"group 1\"}
a=U =4400, c=#U-CERT @132:8:38ffffffffffffff | check a MAP01 c --json | 1 | {\"verdict\":\"no\",\"reason\":\"ray 1 2: not split 3\"}
a=U =4400, c=#U-CERT @96:20:03000380010000000000000060ffffffffffffff | check a MAP01 c --json | 1 | {\"verdict\":\"no\",\"reason\":\"ray 0 1: other sectors\"}
a=U =4400, c=#U-CERT @157:1:03 | check a MAP01 c --json | 1 | {\"verdict\":\"no\",\"reason\":\"tree 0 node 4\"}
a=U =4400, c=#U-CERT @20:1:01 @140:0:00000200 | check a MAP01 c --json | 1 | {\"verdict\":\"no\",\"reason\":\"listed 0 2\"}
a=U =4600, c=#U-EXACT | check a MAP01 c --json | 1 | {\"verdict\":\"no\",\"reason\":\"unproved 0 1\"} | a=U =4600, c=#U-EXACT
a=U =0000, c=#U-CERT | check a MAP01 c --json | 1 | {\"verdict\":\"no\",\"reason\":\"uncovered 0 2\"}
# what is no verdict is told in words
a=U =4400 | check a MAP01 c --json | 3 | refused: no file cert
c=#U-CERT | check a MAP01 c --json | 3 | refused: no file wad
a=U =4400, c=#U-CERT | check a MAP02 c --json | 7 | refused: no map: no marker
a=CROSSED, c=#U-CERT | check a MAP01 c --json | 10 | refused: bad map: cross 3 4
a=U =4400, c=#U-CERT, reads=2 | check a MAP01 c --json | 4 | refused: read fault cert
a=U =4400 | check a MAP01 a --json | 11 | refused: same name
";

#[test]
fn each_verdict_is_an_object(rt: HostRuntime) -> Result<(), Fail> {
    hold(&rt, rt.alloc(), VERDICTS)
}
