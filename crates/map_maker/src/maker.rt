//! A made map as a WAD.

ghost use Rattle.std.specs.Prelude.{◌≡◌, ◌≤◌, ◌++◌, ◌∷◌, [], IfOk, codes, replicate, ◌*◌};
ghost use Rattle.wad_dir.specs.Print.{print};
ghost use Rattle.wad_dir.specs.WadRewrite.Lumps.{views};
ghost use Rattle.wad_dir.specs.WadRewrite.Rewrite.{WritesWad, printed};
ghost use Rattle.map_maker.specs.Lines.{lines_of, sector_count};
ghost use Rattle.map_maker.specs.Lumps.{doom_file, grid_file, hexen_file, linedefs_from, linedefs_in, lumps_with, lump_named, points_in, sidedefs_of, vertexes_of};

use crate::lines::{Line, Spot, lines};
use crate::lumps::{linedefs, sidedefs, vertexes, zeros};
use crate::points::points;
use indexmap::IndexSet;
use map_lumps::hexen_lumps::to_hexen;
use sight_names::{MapFormat, Memory, RewriteFault};
use std::alloc::{AllocError, Global};
use wad_dir::Kind;
use wad_dir::wad_rewrite::{OutputLump, write_wad};

/// How many lumps a made map has in Doom's format.
const DOOM_LUMPS: usize = 11;

/// The lumps of a made map that are read.
#[derive(Drop)]
struct Parts {
    linedefs: Vec<u8>,
    sidedefs: Vec<u8>,
    vertexes: Vec<u8>,
    sectors: Vec<u8>,
}

/// The lumps of a map in Hexen's format; without the last they are those of a map in Doom's.
fn lumps_of<'a>(
    linedefs: &'a [u8],
    sidedefs: &'a [u8],
    vertexes: &'a [u8],
    sectors: &'a [u8],
) -> [OutputLump<'a>; 12]
    ensures { views result ≡ lumps_with linedefs.entry.now sidedefs.entry.now vertexes.entry.now sectors.entry.now ++ lump_named (codes "BEHAVIOR") [] ∷ [] }
{
    [
        OutputLump {
            name: *b"MAP01\0\0\0",
            bytes: &[],
        },
        OutputLump {
            name: *b"THINGS\0\0",
            bytes: &[],
        },
        OutputLump {
            name: *b"LINEDEFS",
            bytes: linedefs,
        },
        OutputLump {
            name: *b"SIDEDEFS",
            bytes: sidedefs,
        },
        OutputLump {
            name: *b"VERTEXES",
            bytes: vertexes,
        },
        OutputLump {
            name: *b"SEGS\0\0\0\0",
            bytes: &[],
        },
        OutputLump {
            name: *b"SSECTORS",
            bytes: &[],
        },
        OutputLump {
            name: *b"NODES\0\0\0",
            bytes: &[],
        },
        OutputLump {
            name: *b"SECTORS\0",
            bytes: sectors,
        },
        OutputLump {
            name: *b"REJECT\0\0",
            bytes: &[],
        },
        OutputLump {
            name: *b"BLOCKMAP",
            bytes: &[],
        },
        OutputLump {
            name: *b"BEHAVIOR",
            bytes: &[],
        },
    ]
}

#[tactic(auto, using(crate::proofs::Small::products))]
fn sectors(n: usize) -> usize
    requires some { 1 ≤ n }
    requires side { n ≤ 18 }
    ensures count { result ≡ sector_count n }
    ensures few { result ≤ 972 }
{
    n * n + 2 * (n * (n - 1))
}

/// The lumps of these lines and of their points, and of so many sectors.
fn parts_from(
    alloc: Global,
    points: &IndexSet<Spot>,
    lines: &[Line],
    sectors: usize,
) -> Result<Parts, AllocError>
    requires { sectors ≤ 972 }
    ensures linedefs { IfOk result (λ parts. parts.linedefs.items ≡ linedefs_from points.now.keys 0 lines.now) }
    ensures sidedefs { IfOk result (λ parts. parts.sidedefs.items ≡ sidedefs_of lines.now) }
    ensures vertexes { IfOk result (λ parts. parts.vertexes.items ≡ vertexes_of points.now.keys) }
    ensures sectors { IfOk result (λ parts. parts.sectors.items ≡ replicate (26 * sectors) 0) }
{
    Ok(Parts {
        linedefs: linedefs(alloc, points, lines)?,
        sidedefs: sidedefs(alloc, lines)?,
        vertexes: vertexes(alloc, points.as_slice())?,
        sectors: zeros(alloc, 26 * sectors)?,
    })
}

#[tactic(auto, unfolding(crate::specs::Lumps::points_in, crate::specs::Lumps::linedefs_in))]
fn parts_of(alloc: Global, n: usize) -> Result<Parts, AllocError>
    requires some { 1 ≤ n }
    requires side { n ≤ 18 }
    ensures linedefs { IfOk result (λ parts. parts.linedefs.items ≡ linedefs_in n) }
    ensures sidedefs { IfOk result (λ parts. parts.sidedefs.items ≡ sidedefs_of (lines_of n)) }
    ensures vertexes { IfOk result (λ parts. parts.vertexes.items ≡ vertexes_of (points_in n)) }
    ensures sectors { IfOk result (λ parts. parts.sectors.items ≡ replicate (26 * sector_count n) 0) }
{
    let lines = lines(alloc, n)?;
    let points = points(alloc, &lines)?;
    parts_from(alloc, &points, &lines, sectors(n))
}

/// The WAD of the map in Doom's format.
#[tactic(auto, unfolding(crate::specs::Lumps::doom_file, crate::specs::Lumps::grid_lumps))]
fn doom(alloc: Global, n: u16) -> Result<Vec<u8>, RewriteFault>
    requires some { 1 ≤ n }
    requires side { n ≤ 18 }
    ensures { WritesWad (λ v. v.items) result (printed (doom_file n)) }
{
    let parts = parts_of(alloc, n as usize)?;
    let lumps = lumps_of(
        &parts.linedefs,
        &parts.sidedefs,
        &parts.vertexes,
        &parts.sectors,
    );
    write_wad(alloc, Kind::Pwad, &lumps[..DOOM_LUMPS])
}

/// The WAD of the map in Hexen's format, with an empty BEHAVIOR behind BLOCKMAP.
#[tactic(auto, using(crate::proofs::Whole::linedefs_whole), unfolding(crate::specs::Lumps::hexen_file, crate::specs::Lumps::grid_lumps))]
fn hexen(alloc: Global, n: u16) -> Result<Vec<u8>, RewriteFault>
    requires some { 1 ≤ n }
    requires side { n ≤ 18 }
    ensures { WritesWad (λ v. v.items) result (printed (hexen_file n)) }
{
    let parts = parts_of(alloc, n as usize)?;
    let linedefs = to_hexen(alloc, &parts.linedefs)?;
    let lumps = lumps_of(&linedefs, &parts.sidedefs, &parts.vertexes, &parts.sectors);
    write_wad(alloc, Kind::Pwad, &lumps)
}

fn written(alloc: Global, n: u16, format: MapFormat) -> Result<Vec<u8>, RewriteFault>
    requires some { 1 ≤ n }
    requires side { n ≤ 18 }
    ensures { WritesWad (λ v. v.items) result (printed (grid_file n format)) }
{
    match format {
        // the lumps that a text spells aren't made
        MapFormat::Doom | MapFormat::Text => doom(alloc, n),
        MapFormat::Hexen => hexen(alloc, n),
    }
}

/// The WAD of a made map of `n` times `n` rooms, 1 to 18, each 128 wide and joined to its neighbours by corridors, in this
/// format. There are `3 n n - 2 n` sectors, `12 n n - 8 n` points and `4 n n + 12 n (n - 1)` lines.
pub fn grid(alloc: Global, n: u16, format: MapFormat) -> Result<Vec<u8>, Memory>
    requires some { 1 ≤ n }
    requires side { n ≤ 18 }
    ensures { IfOk result (λ v. v.items ≡ print (grid_file n format)) }
{
    match written(alloc, n, format) {
        Ok(bytes) => Ok(bytes),
        Err(RewriteFault::Memory(ref memory)) => Err(*memory),
        // a made map has few lumps, and they are short
        Err(RewriteFault::TooManyLumps) => unreachable!(),
        Err(RewriteFault::TooLong) => unreachable!(),
    }
}
