//! Texts of UDMF, as they are read.

// Each text has a title, which is its name and what it is, and ends before the line feed in front of the next one.
const TEXTS: &str = "\
# PAIR Two rooms with an open line between them, the same map as PAIR.
namespace=\"doom\";\
vertex{x=0;y=0;}vertex{x=0;y=64;}vertex{x=64;y=64;}vertex{x=64;y=0;}vertex{x=128;y=64;}vertex{x=128;y=0;}\
linedef{v1=0;v2=1;sidefront=0;}linedef{v1=1;v2=2;sidefront=1;}\
linedef{v1=2;v2=3;sidefront=2;sideback=3;twosided=true;}linedef{v1=3;v2=0;sidefront=4;}\
linedef{v1=2;v2=4;sidefront=5;}linedef{v1=4;v2=5;sidefront=6;}linedef{v1=5;v2=3;sidefront=7;}\
sidedef{sector=0;}sidedef{sector=0;}sidedef{sector=0;}sidedef{sector=1;}\
sidedef{sector=0;}sidedef{sector=1;}sidedef{sector=1;}sidedef{sector=1;}sector{}sector{}\n
# SQUARE One room in any order and spelling.
namespace = \"ZDoom\" ;
LineDef{V1=0x0;V2=01;SideFront=0;user_note=\"a \\\" ; } // b\";}linedef{v1=+1;v2=2;sidefront=1;}
sector{}
linedef { v1 = 9; v1 = 2; v2 = 3; sidefront = 2; sideback = -1; twosided = FALSE; }
linedef{v1=3;v2=0;sidefront=3;special=1;arg0=4;}
sidedef{sector=0;}sidedef{sector=0;}sidedef{sector=0;}sidedef{sector=00;}
vertex{x=0;y=-0.0;}vertex{x=0e5;y=6.4e1;zfloor=1.5;}vertex{x=64000.E-3;y=64.;}vertex{x=.64e2;y=0;}
vertex{x=0.5;}
thing { x = 1.5; type = 1; }

# TENTHS The points of PAIR in tenths. A vertex of no line has hundredths, and one is far away.
namespace=\"doom\";\
vertex{x=0;y=0;}vertex{x=0;y=6.4;}vertex{x=6.40;y=64e-1;}vertex{x=6.4;y=.0;}vertex{x=12.8;y=6.4;}vertex{x=1.28e1;y=0;}\
vertex{x=0.01;y=0;}vertex{x=33554432;y=0;}\
linedef{v1=0;v2=1;sidefront=0;}linedef{v1=1;v2=2;sidefront=1;}\
linedef{v1=2;v2=3;sidefront=2;sideback=3;twosided=true;}linedef{v1=3;v2=0;sidefront=4;}\
linedef{v1=2;v2=4;sidefront=5;}linedef{v1=4;v2=5;sidefront=6;}linedef{v1=5;v2=3;sidefront=7;}\
sidedef{sector=0;}sidedef{sector=0;}sidedef{sector=0;}sidedef{sector=1;}\
sidedef{sector=0;}sidedef{sector=1;}sidedef{sector=1;}sidedef{sector=1;}sector{}sector{}\n
# THOUSANDTHS One room whose points have thousandths, hundredths and none.
namespace=\"doom\";\
vertex{x=0;y=0;}vertex{x=0;y=64.125;}vertex{x=64.5;y=0.250;}\
linedef{v1=0;v2=1;sidefront=0;}linedef{v1=1;v2=2;sidefront=1;}linedef{v1=2;v2=0;sidefront=2;}\
sidedef{sector=0;}sidedef{sector=0;}sidedef{sector=0;}sector{}\n
# SMALL One room that is less than four map units wide, in hundredths.
namespace=\"doom\";vertex{x=0;y=0;}vertex{x=0;y=1.25;}vertex{x=1.5;y=.5;}linedef{v1=0;v2=1;sidefront=0;}linedef{v1=1;v2=2;sidefront=1;}linedef{v1=2;v2=0;sidefront=2;}sidedef{sector=0;}sidedef{sector=0;}sidedef{sector=0;}sector{}\n
# OPEN-TENTHS The map OPEN in tenths: a room without its last wall.
namespace=\"doom\";vertex{x=0;y=0;}vertex{x=0;y=6.4;}vertex{x=6.4;y=6.4;}vertex{x=6.4;y=0;}linedef{v1=0;v2=1;sidefront=0;}linedef{v1=1;v2=2;sidefront=1;}linedef{v1=2;v2=3;sidefront=2;}sidedef{sector=0;}sidedef{sector=0;}sidedef{sector=0;}sector{}\n
# FARTHEST Two rooms that reach to the farthest points, in the last place that is read, with a line between them that leans.
namespace=\"doom\";\
vertex{x=-3.3554432;y=-33554432e-7;}vertex{x=-3.3554432;y=3.3554432;}vertex{x=1e-7;y=3.3554432;}\
vertex{x=-.0000001;y=-3.3554432;}vertex{x=3.3554432;y=3.3554432;}vertex{x=3.3554432;y=-3.3554432;}\
linedef{v1=0;v2=1;sidefront=0;}linedef{v1=1;v2=2;sidefront=1;}\
linedef{v1=2;v2=3;sidefront=2;sideback=3;twosided=true;}linedef{v1=3;v2=0;sidefront=4;}\
linedef{v1=2;v2=4;sidefront=5;}linedef{v1=4;v2=5;sidefront=6;}linedef{v1=5;v2=3;sidefront=7;}\
sidedef{sector=0;}sidedef{sector=0;}sidedef{sector=0;}sidedef{sector=1;}\
sidedef{sector=0;}sidedef{sector=1;}sidedef{sector=1;}sidedef{sector=1;}sector{}sector{}\n
# DAMPER A line between two sectors that sound passes once.
namespace=\"doom\";vertex{x=0;y=0;}vertex{x=0;y=64;}
linedef{v1=0;v2=1;sidefront=0;sideback=1;twosided=true;blocksound=true;}
sidedef{sector=0;}sidedef{sector=1;}sector{}sector{}\n
# NO-NAMESPACE A block and no namespace.
vertex{x=0;y=0;}
# ETERNITY A namespace that is none of the known ones.
namespace=\"eternity\";
# BLOCK-IN-VERTEX A block in a block of a vertex.
namespace=\"doom\";vertex{a{}}
# OPEN-STRING A string that does not end.
namespace=\"doom\";author=\"a
# FRACTION-OF-LINE A fraction for a vertex of a line.
namespace=\"doom\";linedef{v1=0.0;}
# PORTAL A line that may show a far place.
namespace=\"zdoom\";linedef{}linedef{special=156;}
# EIGHT-PLACES A coordinate of eight decimals.
namespace=\"doom\";vertex{x=0;y=0;}vertex{x=0.00000001;y=0;}linedef{v1=0;v2=1;}
# SEVEN-PLACES One of seven.
namespace=\"doom\";vertex{x=0;y=0;}vertex{x=0.0000001;y=0;}linedef{v1=0;v2=1;sidefront=0;}
# TOO-FAR A coordinate beyond 2^25.
namespace=\"doom\";vertex{x=0;y=0;}vertex{x=33554433;y=0;}linedef{v1=0;v2=1;}
# FARTHEST-WEST One of 2^25.
namespace=\"doom\";vertex{x=0;y=0;}vertex{x=-33554432;y=0;}linedef{v1=0;v2=1;sidefront=0;}
# TOO-FAR-IN-THOUSANDTHS One beyond 2^25 in its unit.
namespace=\"doom\";vertex{x=33554.433;y=0;}vertex{x=0;y=0;}linedef{v1=0;v2=1;}
# UNIT-OF-ANOTHER One beyond 2^25 in the unit of another vertex.
namespace=\"doom\";vertex{x=0.001;y=0;}vertex{x=0;y=33555.0;}linedef{v1=0;v2=1;}
# NO-Y A vertex without y.
namespace=\"doom\";vertex{x=0;y=0;}vertex{x=0;}linedef{v1=0;v2=1;}
# NO-SIDE A line of sides that there are none of.
namespace=\"doom\";vertex{x=0;y=0;}vertex{x=0;y=64;}linedef{v1=0;v2=1;sidefront=0;sideback=1;}sidedef{sector=0;}sector{}
# NO-VERTEX A line of a vertex that there is none of.
namespace=\"doom\";vertex{x=0;y=0;}vertex{x=0;y=64;}linedef{v1=0;v2=2;}
# EDITOR-SQUARE One room as editors write it.
namespace = \"doom\";

vertex // 0
{
x = 0.000;
y = 0.000;
}

vertex // 1
{
x = 0.000;
y = 64.000;
}

vertex // 2
{
x = 64.000;
y = 64.000;
}

vertex // 3
{
x = 64.000;
y = 0.000;
}

linedef // 0
{
v1 = 0;
v2 = 1;
sidefront = 0;
blocking = true;
}

linedef // 1
{
v1 = 1;
v2 = 2;
sidefront = 1;
blocking = true;
}

linedef // 2
{
v1 = 2;
v2 = 3;
sidefront = 2;
blocking = true;
}

linedef // 3
{
v1 = 3;
v2 = 0;
sidefront = 3;
blocking = true;
}

sidedef // 0
{
sector = 0;
texturemiddle = \"STARTAN3\";
}

sidedef // 1
{
sector = 0;
texturemiddle = \"STARTAN3\";
}

sidedef // 2
{
sector = 0;
texturemiddle = \"STARTAN3\";
}

sidedef // 3
{
sector = 0;
texturemiddle = \"STARTAN3\";
}

sector // 0
{
heightfloor = 0;
heightceiling = 128;
texturefloor = \"FLOOR4_8\";
textureceiling = \"CEIL3_5\";
lightlevel = 160;
}

# SHUT-PAIR PAIR where nobody wrote twosided.
namespace=\"doom\";vertex{x=0;y=0;}vertex{x=0;y=64;}vertex{x=64;y=64;}vertex{x=64;y=0;}vertex{x=128;y=64;}vertex{x=128;y=0;}linedef{v1=0;v2=1;sidefront=0;}linedef{v1=1;v2=2;sidefront=1;}linedef{v1=2;v2=3;sidefront=2;sideback=3;}linedef{v1=3;v2=0;sidefront=4;}linedef{v1=2;v2=4;sidefront=5;}linedef{v1=4;v2=5;sidefront=6;}linedef{v1=5;v2=3;sidefront=7;}sidedef{sector=0;}sidedef{sector=0;}sidedef{sector=0;}sidedef{sector=1;}sidedef{sector=0;}sidedef{sector=1;}sidedef{sector=1;}sidedef{sector=1;}sector{}sector{}\n
# CUT-SQUARE SQUARE with a coordinate that no semicolon ends.
// a comment } first
NameSpace /* = */ = \"ZDoom\" ;
LineDef{V1=0x0;V2=01;SideFront=0;user_note=\"a \\\" ; } // b\";}linedef{v1=+1;v2=2;sidefront=1;}
sector{}
linedef { v1 = 9; v1 = 2; v2 = 3; sidefront = 2; sideback = -1; twosided = FALSE; }
linedef{v1=3;v2=0;sidefront=3;special=1;arg0=4;}
sidedef{sector=0;}sidedef{sector=0;}sidedef{sector=0;}sidedef{sector=00;}
vertex{x=0;y=-0.0;}vertex{x=0e5;y=6.4e1;zfloor=1.5;}vertex{x=64000.E-3;y=64.}vertex{}

# EIGHTHS A coordinate with decimals.
namespace=\"doom\";vertex{x=0;y=0;}vertex{x=0;y=64.125;}linedef{v1=0;v2=1;}\n
# SHOWN-PORTAL A line that may show a far place, with an argument.
namespace=\"zdoom\";vertex{x=0;y=0;}vertex{x=0;y=64;}linedef{v1=0;v2=1;}linedef{v1=1;v2=0;special=156;arg0=7;}\n
# SPACED-ETERNITY A namespace that is none of the known ones, with blanks.
namespace = \"eternity\";\nvertex { x = 0.0; y = 0.0; }\n
# VERTEX-FIRST A vertex and no namespace, with blanks.
vertex { x = 0.0; y = 0.0; }\n
# FRACTION-BEHIND A fraction in the second line of a text.
namespace=\"doom\";\nlinedef { v1=0.0; v2=1; }\n
# BLOCK-IN-SECTOR A block in a block of a sector.
namespace=\"doom\";\nsector { moreinfo { a = 1; } }\n
# OPEN-STRING-IN-SECTOR A string in a sector that does not end.
namespace=\"doom\";\nsector { a=\"b\\\";}\n
# GREATEST-SIDE A side of the greatest number that none has.
namespace=\"doom\";vertex{x=0;y=0;}vertex{x=0;y=64;}linedef{v1=0;v2=1;sidefront=65535;}\n
# SIDE-WITHOUT-SECTOR A side that names no sector.
namespace=\"doom\";vertex{x=0;y=0;}vertex{x=0;y=64;}linedef{v1=0;v2=1;sidefront=0;sideback=1;}\nsidedef{sector=0;}sidedef{}sector{}\n
";

/// The text of this name, empty where there is none.
pub fn text_named(name: &str) -> &'static str {
    for block in TEXTS.split("# ") {
        let Some((title, text)) = block.split_once('\n') else {
            continue;
        };
        if title.split_whitespace().next().unwrap_or("") == name {
            return text.strip_suffix('\n').unwrap_or(text);
        }
    }
    ""
}
