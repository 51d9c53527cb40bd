//! Texts of UDMF: the numbers of words, the first token of a text, and the map that a text spells, or its first fault. In
//! rows a `^` stands for a line feed.

use map_answers::sight_status::{Status, push_reason};
use map_lumps::read_lumps;
use sight_names::{MapFormat, Plan, Reading};
use std::alloc::{AllocError, Global};
use std::test::Fail;
use udmf_map::{FourLumps, TextFault, lumps_of_text};
use udmf_text::text_numbers::{Decimal, decimal_number, whole_number};
use udmf_text::text_tokens::{Kind, Placed, next_token};
use worked_maps::files::{bytes_of_digits, plan_named};
use worked_maps::rows::part;

/// Words, the whole number that each spells, and the one with a point or an exponent: its sign, its mantissa and its power
/// of ten.
const NUMBERS: &str = "\
64 | 64 | none
+5 | 5 | none
-1 | -1 | none
010 | 8 | none
00 | 0 | none
-0x1F | -31 | none
0XfF | 255 | none
08 | none | none
0x | none | none
- | none | none
--1 | none | none
64.000 | none | +64000 -3
6.4e1 | none | +64 0
+64000.E-3 | none | +64000 -3
-.5 | none | -5 -1
1e3 | none | +1 3
08.0 | none | +80 -1
. | none | none
1.e | none | none
nan | none | none
1_0 | none | none
1,5 | none | none
0000000000000000000000000000001. | none | none
";

/// Texts, the kind of their first token, its bytes, and what is left behind it; or what is left from the first fault on.
const TOKENS: &str = "\
 // a^/* b */x=1; | word | x | =1;
/* = *//**//= | word | / | =
//\r}^} | close | |
a/b//c | word | a/b | //c
a.b-c\u{7f}\"\" | word | a.b-c\u{7f} | \"\"
\"a\\\"b\\\\\"; | quoted | a\\\"b\\\\ | ;
\"// /*\"{ | quoted | // /* | {
 /*/ | fault | /*/ |
/**/ /* * | fault | /* * |
 \"a\\\" | fault | \"a\\\" |
(a) | fault | (a) |
' | fault | ' |
";

/// What comes of a text: the worked map that it spells, the bytes of its four lumps, or the words of its first fault.
const TEXTS: &str = "\
# as editors write it; in any order and spelling; and without blanks
= SQUARE | namespace = \"doom\";^^vertex // 0^{^x = 0.000;^y = 0.000;^}^^vertex // 1^{^x = 0.000;^y = 64.000;^}^^vertex // 2^{^x = 64.000;^y = 64.000;^}^^vertex // 3^{^x = 64.000;^y = 0.000;^}^^linedef // 0^{^v1 = 0;^v2 = 1;^sidefront = 0;^blocking = true;^}^^linedef // 1^{^v1 = 1;^v2 = 2;^sidefront = 1;^blocking = true;^}^^linedef // 2^{^v1 = 2;^v2 = 3;^sidefront = 2;^blocking = true;^}^^linedef // 3^{^v1 = 3;^v2 = 0;^sidefront = 3;^blocking = true;^}^^sidedef // 0^{^sector = 0;^texturemiddle = \"STARTAN3\";^}^^sidedef // 1^{^sector = 0;^}^^sidedef // 2^{^sector = 0;^}^^sidedef // 3^{^sector = 0;^}^^sector // 0^{^heightfloor = 0;^heightceiling = 128;^texturefloor = \"FLOOR4_8\";^}^
= SQUARE | // a comment } first^NameSpace /* = */ = \"ZDoom\" ;^LineDef{V1=0x0;V2=01;SideFront=0;user_note=\"a \\\" ; } // b\";}linedef{v1=+1;v2=2;sidefront=1;}^sector{}^linedef { v1 = 9; v1 = 2; v2 = 3; sidefront = 2; sideback = -1; twosided = FALSE; }^linedef{v1=3;v2=0;sidefront=3;special=1;arg0=4;}^sidedef{sector=0;}sidedef{sector=0;}sidedef{sector=0;}sidedef{sector=00;}^vertex{x=0;y=-0.0;}vertex{x=0e5;y=6.4e1;zfloor=1.5;}vertex{x=64000.E-3;y=64.;}vertex{x=.64e2;y=0;}^vertex{x=0.5;}^thing { x = 1.5; type = 1; }^
= PAIR | namespace=\"doom\";vertex{x=0;y=0;}vertex{x=0;y=64;}vertex{x=64;y=64;}vertex{x=64;y=0;}vertex{x=128;y=64;}vertex{x=128;y=0;}linedef{v1=0;v2=1;sidefront=0;}linedef{v1=1;v2=2;sidefront=1;}linedef{v1=2;v2=3;sidefront=2;sideback=3;twosided=true;}linedef{v1=3;v2=0;sidefront=4;}linedef{v1=2;v2=4;sidefront=5;}linedef{v1=4;v2=5;sidefront=6;}linedef{v1=5;v2=3;sidefront=7;}sidedef{sector=0;}sidedef{sector=0;}sidedef{sector=0;}sidedef{sector=1;}sidedef{sector=0;}sidedef{sector=1;}sidedef{sector=1;}sidedef{sector=1;}sector{}sector{}
# nobody wrote twosided
= SHUT-PAIR | namespace=\"doom\";vertex{x=0;y=0;}vertex{x=0;y=64;}vertex{x=64;y=64;}vertex{x=64;y=0;}vertex{x=128;y=64;}vertex{x=128;y=0;}linedef{v1=0;v2=1;sidefront=0;}linedef{v1=1;v2=2;sidefront=1;}linedef{v1=2;v2=3;sidefront=2;sideback=3;}linedef{v1=3;v2=0;sidefront=4;}linedef{v1=2;v2=4;sidefront=5;}linedef{v1=4;v2=5;sidefront=6;}linedef{v1=5;v2=3;sidefront=7;}sidedef{sector=0;}sidedef{sector=0;}sidedef{sector=0;}sidedef{sector=1;}sidedef{sector=0;}sidedef{sector=1;}sidedef{sector=1;}sidedef{sector=1;}sector{}sector{}
# each field of the lumps, in their order; numbers out of range stay so
0000 0100 4400 00000000 0000 ffff 00000000000000000000000000000000000000000000000000000000 0500 0080ffff ff7f0000 ffffffff 00000000 0000000000000000000000000000000000000000000000000000 | namespace=\"hexen\";linedef{v2=1;v1=0;twosided=True;blocksound=true;sidefront=0;}vertex{x=-32768;y=32767;}vertex{y=0.0;x=-1;}sidedef{sector=5;}Sector{x=\"\";}
ffff ffff 0000 00000000 feff feff 00000000000000000000000000000000000000000000000000000000 ffff | namespace=\"doom\";linedef{v1=-1;v2=0xFFFFFFFFFF;sidefront=-2;sideback=65534;}sidedef{sector=-5;}
fdff fffe 0000 00000000 fdff ffff 00000000000000000000000000000000000000000000000000000000 ffff | namespace=\"doom\";linedef{v1=65533;v2=65279;sidefront=65533;}sidedef{}
# portals, only where lines may show far places
portal of line 1 | namespace=\"zdoom\";vertex{x=0;y=0;}vertex{x=0;y=64;}linedef{v1=0;v2=1;}linedef{v1=1;v2=0;special=156;arg0=7;}
portal of line 0 | namespace=\"dsda\";linedef{special=57;}
portal of line 0 | namespace=\"hexen\";linedef{special=57;}
ffff ffff 0000 00000000 ffff ffff | namespace=\"heretic\";linedef{special=156;}
# coordinates in hundredths, and the farthest ones
0000 0100 0000 00000000 0000 ffff 00000000000000000000000000000000000000000000000000000000 ffff ceffffff c9040000 2c010000 e8030000 00000000 64000000 | namespace=\"doom\";linedef{v1=0;v2=1;sidefront=0;}sidedef{}vertex{x=-0.5;y=12.250;}vertex{x=3;y=1e1;}vertex{x=0.125;y=1;}
0000 0000 0000 00000000 ffff ffff 00000002 000000fe | namespace=\"doom\";linedef{v1=0;v2=0;}vertex{x=33554432;y=-33554432.0;}
# the grid
coordinate of vertex 1 | namespace=\"doom\";vertex{x=0;y=0;}vertex{x=0;y=0.00000001;}linedef{v1=0;v2=1;}
coordinate of vertex 0 | namespace=\"doom\";vertex{x=4194304;y=0;}vertex{x=0.125;}vertex{x=0.125;y=0;}linedef{v1=2;v2=0;}linedef{v1=1;v2=0;}
coordinate of vertex 0 | namespace=\"doom\";vertex{x=0;}linedef{v1=9;v2=0;}
coordinate of vertex 1 | namespace=\"doom\";vertex{x=0;y=0;}vertex{x=33554433;y=0;}vertex{}linedef{v1=0;v2=1;}linedef{v1=2;v2=0;}
# the first fault of a text
namespace 12 | namespace = \"eternity\";^vertex { x = 0.0; y = 0.0; }^
namespace 0 | vertex { x = 0.0; y = 0.0; }^
namespace 0 |
namespace 1 | ^
namespace 11 | // nothing^
namespace 17 | namespace=\"doom\";namespace=\"doom\";
namespace 17 | namespace=\"doom\";NameSpace{}
text 16 | namespace=\"doom\"
text 9 | namespace{}
value 10 | namespace=doom;
text 20 | namespace=\"doom\";a=1
text 17 | namespace=\"doom\";a.b=1;
text 19 | namespace=\"doom\";x /*
value 31 | namespace=\"doom\";^linedef { v1=0.0; v2=1; }^
value 28 | namespace=\"doom\";linedef{v1=\"1\";}
value 34 | namespace=\"doom\";linedef{twosided=1;}
value 26 | namespace=\"doom\";vertex{x=foo }
text 28 | namespace=\"doom\";vertex{x=0;
text 36 | namespace=\"doom\";^sector { moreinfo { a = 1; } }^
text 29 | namespace=\"doom\";^sector { a=\"b\\\";}^
text 17 | namespace=\"doom\";}
# no tokens; a comment and a string that don't end
text 17 | namespace=\"doom\";(x=1;)
text 19 | namespace=\"doom\";a='b';
text 18 | namespace=\"doom\"; /*/^x=1;
text 19 | namespace=\"doom\";a=\";^
# a value of another kind, of each key, also where a right one follows; numbers of 31 bytes
value 26 | namespace=\"doom\";vertex{x=\"0\";}
value 26 | namespace=\"doom\";vertex{y=nan;}
value 26 | namespace=\"doom\";vertex{x=true;x=0;}
value 26 | namespace=\"doom\";vertex{y=0.00000000000000000000000000000;}
value 28 | namespace=\"doom\";linedef{v1=08;}
value 28 | namespace=\"doom\";linedef{v2=1e0;}
value 35 | namespace=\"doom\";linedef{sidefront=0.0;}
value 34 | namespace=\"doom\";linedef{sideback=-;}
value 34 | namespace=\"doom\";linedef{twosided=\"true\";}
value 36 | namespace=\"doom\";linedef{blocksound=0;}
value 33 | namespace=\"doom\";linedef{special=\"57\";}
value 32 | namespace=\"doom\";sidedef{sector=0x;}
# the first fault by its byte, before any of the blocks
value 35 | namespace=\"zdoom\";vertex{}vertex{x=-0x;}linedef{special=57;}(
portal of line 1 | namespace=\"zdoom\";linedef{v1=0;v2=0;}linedef{special=0x39;}vertex{}
";

/// Texts with an empty line between their items: as editors write them, in any spelling, and with decimals. A front that
/// ends with an item has no fault of the text; each other one has its first fault in the item that is cut.
const CUTS: &str = "\
namespace = \"doom\";^^vertex // 0^{^x = 0.000;^y = 0.000;^}^^vertex // 1^{^x = 0.000;^y = 64.000;^}^^vertex // 2^{^x = 64.000;^y = 0.000;^}^^linedef // 0^{^v1 = 0;^v2 = 1;^sidefront = 0;^blocking = true;^}^^linedef // 1^{^v1 = 1;^v2 = 2;^sidefront = 0;^}^^linedef // 2^{^v1 = 2;^v2 = 0;^sidefront = 0;^}^^sidedef // 0^{^sector = 0;^texturemiddle = \"STARTAN3\";^}^^sector // 0^{^heightfloor = 0;^}
NameSpace /* = */ = \"ZDoom\" ;^^LineDef{V1=0x0;V2=01;SideFront=0;user_note=\"a \\\" ; } // b\";}^^linedef{v1=+1;v2=2;sidefront=0;}^^sector{}^^linedef { v1 = 9; v1 = 2; v2 = 0; sidefront = 0; sideback = -1; twosided = FALSE; }^^sidedef{sector=00;}^^vertex{x=0;y=-0.0;}^^author=/**/\"\";^^vertex{x=0e5;y=6.4e1;zfloor=1.5;}^^vertex{x=64000.E-3;y=.0;}^^linedef{special=156;}
namespace=\"doom\";^^vertex{x=-0.5;y=12.250;}^^vertex{x=3;y=1e1;}^^vertex{x=+.125;y=-64000.5E-3;}^^vertex{x=33554432;y=1e-7;}^^linedef{v1=0;v2=1;sidefront=0;sideback=1;twosided=true;blocksound=true;}^^linedef{v1=2;v2=1;sidefront=1;}^^sidedef{sector=0;}^^sidedef{sector=1;}^^sector{}^^sector{}
";

fn kind_name(kind: Kind) -> &'static str {
    match kind {
        Kind::Open => "open",
        Kind::Close => "close",
        Kind::Is => "is",
        Kind::End => "end",
        Kind::Word => "word",
        Kind::Quoted => "quoted",
    }
}

// The bytes of a row's text.
fn text_of(alloc: Global, row: &str) -> Result<Vec<u8>, AllocError> {
    let mut text = Vec::from_slice(alloc, row.as_bytes())?;
    for byte in text.iter_mut() {
        if *byte == b'^' {
            *byte = b'\n';
        }
    }
    Ok(text)
}

// Whether a whole number is told by these words.
fn is_whole(alloc: Global, number: Option<i128>, words: &str) -> Result<bool, AllocError> {
    match number {
        Some(n) => Ok(format!(in alloc; "{n}")?.as_str() == words),
        None => Ok(words == "none"),
    }
}

// Whether a number with a point or an exponent is told by these words.
fn is_decimal(alloc: Global, number: Option<Decimal>, words: &str) -> Result<bool, AllocError> {
    let Some(d) = number else {
        return Ok(words == "none");
    };
    let sign = if d.negative { "-" } else { "+" };
    let (mantissa, scale) = (d.mantissa, d.scale);
    Ok(format!(in alloc; "{sign}{mantissa} {scale}")?.as_str() == words)
}

// Whether the word of a row spells its numbers.
fn spells(alloc: Global, row: &str) -> Result<bool, AllocError> {
    let word = part(row, 0).as_bytes();
    Ok(
        is_whole(alloc, whole_number(word), part(row, 1))?
            && is_decimal(alloc, decimal_number(word), part(row, 2))?,
    )
}

#[test]
fn numbers_are_exact(rt: HostRuntime) -> Result<(), Fail> {
    for row in NUMBERS.lines() {
        if !spells(rt.alloc(), row)? {
            return Err(row.into());
        }
    }
    Ok(())
}

// Whether a token is the one that a row says.
fn is_token(token: &Placed<'_>, row: &str) -> bool {
    kind_name(token.token.kind) == part(row, 1)
        && token.token.bytes == part(row, 2).as_bytes()
        && token.token.rest == part(row, 3).as_bytes()
}

fn is_first(text: &[u8], row: &str) -> bool {
    match next_token(text) {
        Ok(Some(token)) => is_token(&token, row),
        Ok(None) => false,
        Err(left) => part(row, 1) == "fault" && left == part(row, 2).len(),
    }
}

// Whether a row's text has the first token that it says.
fn begins(alloc: Global, row: &str) -> Result<bool, AllocError> {
    let text = text_of(alloc, part(row, 0))?;
    Ok(is_first(&text, row))
}

#[test]
fn tokens_begin_behind_gaps(rt: HostRuntime) -> Result<(), Fail> {
    for row in TOKENS.lines() {
        if !begins(rt.alloc(), row)? {
            return Err(row.into());
        }
    }
    Ok(())
}

fn is_plan(a: &Plan, b: &Plan) -> bool {
    a.sectors == b.sectors
        && a.points.as_slice() == b.points.as_slice()
        && a.lines.as_slice() == b.lines.as_slice()
}

// Whether the lumps spell the worked map of this name.
fn spell_map(alloc: Global, lumps: &FourLumps, name: &str) -> Result<bool, Fail> {
    let worked = plan_named(alloc, name)?;
    let reading = Reading {
        format: MapFormat::Text,
        large: false,
    };
    let read = read_lumps(
        alloc,
        reading,
        &lumps.linedefs,
        &lumps.sidedefs,
        &lumps.vertexes,
        &lumps.sectors,
    );
    Ok(match read {
        Ok(plan) => is_plan(&plan, &worked),
        Err(_) => false,
    })
}

// Whether the lumps have these bytes, one behind the other.
fn have_bytes(alloc: Global, lumps: &FourLumps, digits: &str) -> Result<bool, AllocError> {
    let mut all = Vec::new(alloc);
    all.extend_from_slice(&lumps.linedefs)?;
    all.extend_from_slice(&lumps.sidedefs)?;
    all.extend_from_slice(&lumps.vertexes)?;
    all.extend_from_slice(&lumps.sectors)?;
    Ok(all == bytes_of_digits(alloc, digits)?)
}

// Whether a refusal tells the first fault by these words.
fn has_words(alloc: Global, fault: TextFault, words: &str) -> Result<bool, Fail> {
    let mut told = String::new(alloc);
    push_reason(alloc, &mut told, Status::BadText(fault))?;
    Ok(told.strip_prefix("bad lump: ") == Some(format!(in alloc; "{words}\n")?.as_str()))
}

fn is_right(alloc: Global, text: &[u8], expected: &str) -> Result<bool, Fail> {
    match lumps_of_text(alloc, text) {
        Ok(lumps) => match expected.strip_prefix("= ") {
            Some(name) => spell_map(alloc, &lumps, name),
            None => Ok(have_bytes(alloc, &lumps, expected)?),
        },
        Err(fault) => has_words(alloc, fault, expected),
    }
}

// Whether of a row's text comes what it says. The text is freed at one way out.
fn is_row(alloc: Global, row: &str) -> Result<bool, Fail> {
    let text = text_of(alloc, part(row, 1))?;
    let told = is_right(alloc, &text, part(row, 0));
    drop(text);
    told
}

#[test]
fn texts_spell_maps_or_have_a_first_fault(rt: HostRuntime) -> Result<(), Fail> {
    for row in TEXTS.lines() {
        if !row.starts_with('#') && !is_row(rt.alloc(), row)? {
            return Err(row.into());
        }
    }
    Ok(())
}

// At which byte the first fault of a text is; None where it has none, or one of its records.
fn fault_byte(alloc: Global, text: &[u8]) -> Option<usize> {
    let Err(fault) = lumps_of_text(alloc, text) else {
        return None;
    };
    match fault {
        TextFault::Text { at } => Some(at),
        TextFault::Namespace { at } => Some(at),
        TextFault::Value { at } => Some(at),
        _ => None,
    }
}

// Whether the front of so many bytes has its first fault from this byte on.
fn is_cut_behind(alloc: Global, text: &[u8], at: usize, len: usize) -> bool {
    match fault_byte(alloc, text.get(..len).unwrap_or(&[])) {
        Some(byte) => at <= byte && byte <= len,
        None => false,
    }
}

// Whether each front that cuts the item between these bytes has its first fault in it, and the one that ends with it none.
fn is_right_item(alloc: Global, text: &[u8], at: usize, end: usize) -> bool {
    for len in at.wrapping_add(1)..end {
        if !is_cut_behind(alloc, text, at, len) {
            return false;
        }
    }
    match text.get(..end) {
        Some(front) => fault_byte(alloc, front).is_none(),
        None => false,
    }
}

// Whether this holds of each item of a row's text.
fn are_right_items(alloc: Global, row: &str) -> Result<bool, AllocError> {
    let text = text_of(alloc, row)?;
    let mut at = 0usize;
    for item in row.split("^^") {
        let end = at.wrapping_add(item.len());
        if !is_right_item(alloc, &text, at, end) {
            return Ok(false);
        }
        at = end.wrapping_add(2);
    }
    Ok(true)
}

#[test]
fn a_text_that_is_cut_has_its_first_fault_in_the_item_there(rt: HostRuntime) -> Result<(), Fail> {
    for row in CUTS.lines() {
        if !are_right_items(rt.alloc(), row)? {
            return Err(row.into());
        }
    }
    Ok(())
}
