//! Certificates of version 3 and what is said of them, as text.

/// The words of a map, its table, the words of a certificate, and what is said of them: yes, or the first fault in the order of mesh,
/// groups, rays, trees and pairs.
pub const JUDGED: &str = "\
U | 4400 | #U-EXACT | Verdict(Yes(Totals { set: 1, clear: 5, listed: 0 }))
LINE3 | 0000 | #LINE3-EXACT | Verdict(Yes(Totals { set: 0, clear: 6, listed: 0 }))
DOORS | 0810 | #DOORS-EXACT | Verdict(Yes(Totals { set: 1, clear: 9, listed: 0 }))
ISLAND | 00 | #ISLAND-EXACT | Verdict(Yes(Totals { set: 0, clear: 3, listed: 0 }))
# another right end at the same point
DOORS | 0810 | #DOORS-EXACT @313:2:0380 | Verdict(Yes(Totals { set: 1, clear: 9, listed: 0 }))
# the mesh: a triangle the wrong way round, one over another, one too few, one of another group than the one beside it, none, a line
# through an edge, and one inside a triangle
SQUARE | 00 | #SQUARE-EXACT @28:1:01 | Verdict(No(Check(Mesh(Flat { triangle: 0 }))))
U | 4400 | #U-EXACT @14:1:09 @34:0:0000030001000000 | Verdict(No(Check(Mesh(Twice { triangle: 1 }))))
U | 4400 | #U-EXACT @14:1:07 @90:8: | Verdict(No(Check(Mesh(NoMate { triangle: 4 }))))
U | 4400 | #U-EXACT @40:1:01 | Verdict(No(Check(Mesh(NoMate { triangle: 0 }))))
SQUARE | 00 | #SQUARE-EXACT @12:1:00 @14:1:00 @22:28: | Verdict(No(Check(Mesh(NoTriangle { side: Side { line: 0, left: false } }))))
DIAGONAL | 00 | #SQUARE-EXACT @10:1:05 | Verdict(No(Check(Mesh(Meets { triangle: 0, line: 4 }))))
SPLINTER | 00 | #SQUARE-EXACT @8:1:06 @10:1:05 @28:3:040005 @36:1:05 | Verdict(No(Check(Mesh(Inside { triangle: 0, point: 2 }))))
# a face whose group lacks a sector, and a group that no face has
ISLAND | 00 | #ISLAND-EXACT @22:1:01 @26:2: | Verdict(No(Group { triangle: 0 }))
ISLAND | 00 | #ISLAND-EXACT @12:1:02 @28:0:01000100 @104:0:0000000000000000 | Verdict(No(Unused { group: 1 }))
# the second ray: beyond its range, from a side without a sector, past its line, and the wrong way
U | 4400 | #U-EXACT @130:4:01000040 | Verdict(No(Check(Ray { a: 1, b: 2, why: Some(Range) })))
U | 4400 | #U-EXACT @126:2:0080 | Verdict(No(Check(Ray { a: 1, b: 2, why: Some(BadSide { side: Side { line: 0, left: true } }) })))
U | 4400 | #U-EXACT @138:8:38ffffffffffffff | Verdict(No(Check(Ray { a: 1, b: 2, why: Some(NotSplit { line: 3 }) })))
U | 4400 | #U-EXACT @130:4:ffffffff @138:8:a000000000000000 | Verdict(No(Check(Ray { a: 1, b: 2, why: Some(WrongWay { line: 3 }) })))
# rays that arrive before they start, that a wall stops, of other sectors; and two at fault
LINE3 | 0000 | #LINE3-EXACT @86:20:0000050000000000ffffffff2000000000000000 | Verdict(No(Check(Ray { a: 0, b: 1, why: Some(Backwards) })))
DOORS | 0810 | #DOORS-EXACT @176:22:03000300_0b80_00000000_01000000_f0ffffffffffffff | Verdict(No(Check(Ray { a: 0, b: 3, why: Some(Blocked { line: 7 }) })))
U | 4400 | #U-EXACT @102:20:03000380010000000000000060ffffffffffffff | Verdict(No(Check(Ray { a: 0, b: 1, why: None })))
U | 4400 | #U-EXACT @102:20:03000380010000000000000060ffffffffffffff @138:8:38ffffffffffffff | Verdict(No(Check(Ray { a: 0, b: 1, why: None })))
# a ray too few: the group with fewer rays owns what is claimed then. Its tree has no node, an open one, or ends that a line splits
U | e400 | #U-EXACT @18:1:01 @122:24: | Verdict(No(Check(Tree { source: 2, node: 0 })))
U | e400 | #U-EXACT @18:1:01 @122:24: @138:1:01 @146:0:00 | Verdict(No(Check(Tree { source: 2, node: 0 })))
U | e400 | #U-EXACT @18:1:01 @122:24: @138:1:05 @146:0:0200000080 | Verdict(No(Check(Tree { source: 2, node: 0 })))
U | 4400 | #U-EXACT @18:1:01 @122:24: | Verdict(No(Check(Tree { source: 2, node: 0 })))
# of two groups with as many rays the first owns it. Two portals are passed on the way, and the third leads into what is claimed
LINE3 | 4400 | #LINE3-EXACT @18:1:02 @106:24: | Verdict(No(Check(Tree { source: 0, node: 0 })))
LINE3 | 4400 | #LINE3-EXACT @18:1:02 @106:24: @130:1:02 @154:0:0000 | Verdict(No(Check(Tree { source: 0, node: 2 })))
LINE3 | 4400 | #LINE3-EXACT @18:1:02 @106:24: @130:1:03 @154:0:000000 | Verdict(No(Check(Tree { source: 0, node: 2 })))
LINE3 | 4400 | #LINE3-EXACT @18:1:02 @106:24: @130:1:07 @154:0:00000200000080 | Verdict(No(Check(Tree { source: 0, node: 2 })))
LINE3 | a000 | #LINE3-EXACT @18:1:02 @130:24: | Verdict(No(Check(Tree { source: 1, node: 0 })))
# no ray at all: the first two groups own claims, and have no trees
LINE3 | ee00 | #LINE3-EXACT @18:1:00 @82:72: | Verdict(No(Check(Tree { source: 0, node: 0 })))
# a node of which nothing is asked, of the group that owns the claim, of one that owns none, and of the last one
U | 4400 | #U-EXACT @146:1:01 @170:0:00 | Verdict(No(Check(Tree { source: 0, node: 0 })))
U | 4400 | #U-EXACT @154:1:01 @170:0:00 | Verdict(No(Check(Tree { source: 1, node: 0 })))
U | 4400 | #U-EXACT @162:1:01 @170:0:00 | Verdict(No(Check(Tree { source: 2, node: 0 })))
# a tree with a node too few, one too many, ends that a line splits, too few ends, and the end of a portal that is still to come
DOORS | 0810 | #DOORS-EXACT @270:1:06 @308:7: | Verdict(No(Check(Tree { source: 0, node: 6 })))
DOORS | 0810 | #DOORS-EXACT @270:1:0e @315:0:00 | Verdict(No(Check(Tree { source: 0, node: 7 })))
DOORS | 0810 | #DOORS-EXACT @313:2:0180 | Verdict(No(Check(Tree { source: 0, node: 6 })))
DOORS | 0810 | #DOORS-EXACT @270:1:0b @308:7:0200000280 | Verdict(No(Check(Tree { source: 0, node: 6 })))
DOORS | 0810 | #DOORS-EXACT @311:2:0600 | Verdict(No(Check(Tree { source: 0, node: 6 })))
# the blocked way open: the door behind it is asked, and leads into what is claimed
DOORS | 0810 | #DOORS-EXACT @270:1:07 @308:7:00 | Verdict(No(Check(Tree { source: 0, node: 7 })))
DOORS | 0810 | #DOORS-EXACT @270:1:08 @308:7:0000 | Verdict(No(Check(Tree { source: 0, node: 7 })))
# the nodes in another tree, a wrong tree behind a right one, two wrong trees, and a tree that is asked in place of another
DOORS | 0810 | #DOORS-EXACT @270:1:00 @278:1:0d | Verdict(No(Check(Tree { source: 0, node: 0 })))
DOORS | 0810 | #DOORS-EXACT @294:1:01 @315:0:00 | Verdict(No(Check(Tree { source: 3, node: 0 })))
DOORS | 0810 | #DOORS-EXACT @313:2:0180 @294:1:01 @315:0:00 | Verdict(No(Check(Tree { source: 0, node: 6 })))
DOORS | 8830 | #DOORS-EXACT @18:1:04 @222:24: | Verdict(No(Check(Tree { source: 0, node: 0 })))
DOORS | 8830 | #DOORS-EXACT @18:1:04 @222:24: @246:1:00 @278:13: | Verdict(No(Check(Tree { source: 3, node: 0 })))
# pairs that see each other set, a sector with itself too; pairs that don't clear, in one of the two directions too
U | 4600 | #U-EXACT | Verdict(No(Check(Unproved { a: 0, b: 1 })))
U | 4500 | #U-EXACT | Verdict(No(Check(Unproved { a: 0, b: 0 })))
LINE3 | 4400 | #LINE3-EXACT | Verdict(No(Check(Unproved { a: 0, b: 2 })))
ISLAND | 02 | #ISLAND-EXACT | Verdict(No(Check(Unproved { a: 0, b: 1 })))
U | 0000 | #U-EXACT | Verdict(No(Check(Uncovered { a: 0, b: 2 })))
U | 0400 | #U-EXACT | Verdict(No(Check(Uncovered { a: 0, b: 2 })))
U | 4000 | #U-EXACT | Verdict(No(Check(Uncovered { a: 0, b: 2 })))
DOORS | 0000 | #DOORS-EXACT | Verdict(No(Check(Uncovered { a: 0, b: 3 })))
";

/// The same of a few that are cut at every place.
pub const CUT: &str = "\
U | 4400 | #U-EXACT | Verdict(Yes(Totals { set: 1, clear: 5, listed: 0 }))
DOORS | 0810 | #DOORS-EXACT | Verdict(Yes(Totals { set: 1, clear: 9, listed: 0 }))
ISLAND | 02 | #ISLAND-EXACT | Verdict(No(Check(Unproved { a: 0, b: 1 })))
U | 4400 | #U-EXACT @138:8:38ffffffffffffff | Verdict(No(Check(Ray { a: 1, b: 2, why: Some(NotSplit { line: 3 }) })))
U | e400 | #U-EXACT @18:1:01 @122:24: | Verdict(No(Check(Tree { source: 2, node: 0 })))
DOORS | 0810 | #DOORS-EXACT @313:2:0180 | Verdict(No(Check(Tree { source: 0, node: 6 })))
DOORS | 0810 | #DOORS-EXACT @270:1:0c | Unread(Short { at: 313 })
ISLAND | 00 | #ISLAND-EXACT @26:1:00 | Unread(NotSorted { at: 26 })
";

/// The same of bytes that spell no certificate: the fault, and its place.
pub const UNREAD: &str = "\
U | 4400 | #U-EXACT @0:1:45 | Unread(BadMagic)
U | 4400 | #U-EXACT @4:1:04 | Unread(BadVersion)
U | 4400 | #U-EXACT @4:1:02 | Unread(OutOfRange { at: 34 })
U | 4400 | #U-GROUPS @4:1:03 | Unread(OutOfRange { at: 22 })
# sizes of another map, too many groups, too many triangles
U | 4400 | #U-EXACT @6:1:04 | Unread(OutOfRange { at: 6 })
U | 4400 | #U-EXACT @8:1:0b | Unread(OutOfRange { at: 8 })
U | 4400 | #U-EXACT @10:1:0d | Unread(OutOfRange { at: 10 })
U | 4400 | #U-EXACT @12:2:0120 | Unread(OutOfRange { at: 12 })
U | 4400 | #U-EXACT @14:4:01200000 | Unread(OutOfRange { at: 14 })
# a group without a sector, one with a sector that the map hasn't, sectors that don't ascend, groups that don't
U | 4400 | #U-EXACT @22:1:00 | Unread(OutOfRange { at: 22 })
U | 4400 | #U-EXACT @24:1:03 | Unread(OutOfRange { at: 24 })
ISLAND | 00 | #ISLAND-EXACT @26:1:00 | Unread(NotSorted { at: 26 })
U | 4400 | #U-EXACT @28:1:00 | Unread(NotSorted { at: 26 })
# a triangle with a point or a group that there isn't, with a point twice, one that isn't its least first, two that don't ascend
U | 4400 | #U-EXACT @34:1:0a | Unread(OutOfRange { at: 34 })
U | 4400 | #U-EXACT @40:1:03 | Unread(OutOfRange { at: 40 })
U | 4400 | #U-EXACT @36:1:00 | Unread(OutOfRange { at: 36 })
U | 4400 | #U-EXACT @38:1:03 | Unread(OutOfRange { at: 38 })
U | 4400 | #U-EXACT @42:8:0400010000000000 | Unread(NotSorted { at: 42 })
U | 4400 | #U-EXACT @34:16:00000400010000000000030004000000 | Unread(NotSorted { at: 42 })
# a ray of a group or along a line that there isn't, of one group, two rays that don't ascend, two of one pair
U | 4400 | #U-EXACT @98:1:03 | Unread(OutOfRange { at: 98 })
U | 4400 | #U-EXACT @100:1:03 | Unread(OutOfRange { at: 100 })
U | 4400 | #U-EXACT @102:1:0c | Unread(OutOfRange { at: 102 })
U | 4400 | #U-EXACT @104:1:0c | Unread(OutOfRange { at: 104 })
U | 4400 | #U-EXACT @98:1:01 | Unread(NotSorted { at: 98 })
U | 4400 | #U-EXACT @98:1:01 @100:1:02 @122:1:00 @124:1:01 | Unread(NotSorted { at: 122 })
U | 4400 | #U-EXACT @122:1:00 @124:1:01 | Unread(NotSorted { at: 122 })
# a node that isn't open and has no ends, one with five, ends that don't ascend, an end twice
DOORS | 0810 | #DOORS-EXACT @302:1:01 | Unread(OutOfRange { at: 302 })
DOORS | 0810 | #DOORS-EXACT @302:1:05 | Unread(OutOfRange { at: 302 })
DOORS | 0810 | #DOORS-EXACT @309:1:06 | Unread(NotSorted { at: 311 })
DOORS | 0810 | #DOORS-EXACT @311:1:00 | Unread(NotSorted { at: 311 })
# nodes that reach past the end of their tree, and trees with more bytes than there are
DOORS | 0810 | #DOORS-EXACT @270:1:0c | Unread(Short { at: 313 })
DOORS | 0810 | #DOORS-EXACT @270:1:07 | Unread(Short { at: 309 })
DOORS | 0810 | #DOORS-EXACT @270:1:0c @278:1:01 | Unread(Short { at: 313 })
DOORS | 0810 | #DOORS-EXACT @270:1:0e | Unread(Short { at: 315 })
U | 4400 | #U-EXACT @146:1:01 | Unread(Short { at: 170 })
U | 4400 | #U-EXACT @162:8:ffffffffffffffff | Unread(Short { at: 170 })
# counts that no bytes bear out: of groups, of a group's sectors, of triangles and of rays
U | 4400 | #U-EXACT @12:2:0020 @34:136: | Unread(Short { at: 34 })
U | 4400 | #U-EXACT @30:2:ffff @34:136: | Unread(Short { at: 34 })
U | 4400 | #U-EXACT @14:4:00200000 @98:72: | Unread(Short { at: 98 })
U | 4400 | #U-EXACT @18:4:ffffffff @146:24: | Unread(Short { at: 146 })
# bytes behind the last tree
U | 4400 | #U-EXACT @170:0:00 | Unread(Trailing { at: 170 })
DOORS | 0810 | #DOORS-EXACT @315:0:00 | Unread(Trailing { at: 315 })
DOORS | 0810 | #DOORS-EXACT @270:1:06 | Unread(Trailing { at: 308 })
";

/// The words of a map, its table, the words of a certificate, and its name. Each front of it is short at the field in which it is cut
/// off.
pub const WHOLE: &str = "\
U | 4400 | #U-EXACT | U-EXACT
DOORS | 0810 | #DOORS-EXACT | DOORS-EXACT
ISLAND | 00 | #ISLAND-EXACT | ISLAND-EXACT
";
