//! The bytes of each record.

ghost use Rattle.std.specs.Prelude.{◌≡◌, ◌<◌, ◌^◌, ◌++◌};
ghost use Rattle.block_evidence.specs.SightTree.Spelling.{u16};
ghost use Rattle.cert_format.specs.Grammar.{AreSmall, HasShortSides, side_code, u64, triangle_bytes, pair_bytes, line_bytes, ray_bytes, front_bytes, count_bytes, header_bytes};

use crate::cert::{Cert, Counts, Labelled, Sizes};
use sight_names::{Pair, PairRay, Ray, Side};

/// The magic, version 1, and the sizes.
fn front_of(sizes: Sizes) -> [u8; 12]
    ensures spelled { result ≡ front_bytes sizes }
    ensures small { AreSmall sizes }
{
    let [sectors, sectors_high] = sizes.sectors.to_le_bytes();
    let [points, points_high] = sizes.points.to_le_bytes();
    let [lines, lines_high] = sizes.lines.to_le_bytes();
    let [d, s, c, t] = *b"DSCT";
    [
        d,
        s,
        c,
        t,
        1,
        0,
        sectors,
        sectors_high,
        points,
        points_high,
        lines,
        lines_high,
    ]
}

/// How many records there are of each kind.
pub fn counts_of(counts: Counts) -> [u8; 16]
    ensures { result ≡ count_bytes counts.triangles counts.rays counts.listed counts.trees }
{
    let [t0, t1, t2, t3] = counts.triangles.to_le_bytes();
    let [r0, r1, r2, r3] = counts.rays.to_le_bytes();
    let [l0, l1, l2, l3] = counts.listed.to_le_bytes();
    let [w0, w1, w2, w3] = counts.trees.to_le_bytes();
    [
        t0, t1, t2, t3, r0, r1, r2, r3, l0, l1, l2, l3, w0, w1, w2, w3,
    ]
}

pub fn header_of(cert: &Cert) -> [u8; 28]
    ensures spelled { result ≡ header_bytes cert.now }
    ensures small { AreSmall cert.now.sizes }
{
    let front = front_of(cert.sizes);
    let counts = counts_of(Counts {
        triangles: cert.triangles().len() as u32,
        rays: cert.rays().len() as u32,
        listed: cert.listed().len() as u32,
        trees: cert.trees().len() as u32,
    });
    let mut header = [0; 28];
    header[..12].copy_from_slice(&front);
    header[12..].copy_from_slice(&counts);
    header
}

pub fn triangle_of(labelled: &Labelled) -> [u8; 8]
    ensures { result ≡ triangle_bytes labelled.now }
{
    let [p, p_high] = labelled.triangle.p.to_le_bytes();
    let [q, q_high] = labelled.triangle.q.to_le_bytes();
    let [r, r_high] = labelled.triangle.r.to_le_bytes();
    let [sector, sector_high] = labelled.sector.to_le_bytes();
    [p, p_high, q, q_high, r, r_high, sector, sector_high]
}

pub fn pair_of(pair: &Pair) -> [u8; 4]
    ensures { result ≡ pair_bytes pair.now }
{
    let [a, a_high] = pair.a.to_le_bytes();
    let [b, b_high] = pair.b.to_le_bytes();
    [a, a_high, b, b_high]
}

fn number_of(side: Side) -> u16
    requires { side.line < 2 ^ 15 }
    ensures { result ≡ side_code side }
{
    if side.left {
        side.line + 32_768
    } else {
        side.line
    }
}

/// The two sides and the three numbers of a ray.
fn line_of(ray: &Ray) -> [u8; 20]
    requires { HasShortSides ray.now }
    ensures { result ≡ line_bytes ray.now }
{
    let [first, first_high] = number_of(ray.first).to_le_bytes();
    let [last, last_high] = number_of(ray.last).to_le_bytes();
    let [a0, a1, a2, a3] = ray.a.to_le_bytes();
    let [b0, b1, b2, b3] = ray.b.to_le_bytes();
    let [c0, c1, c2, c3, c4, c5, c6, c7] = ray.c.to_le_bytes();
    [
        first, first_high, last, last_high, a0, a1, a2, a3, b0, b1, b2, b3, c0, c1, c2, c3, c4, c5,
        c6, c7,
    ]
}

pub fn ray_of(ray: &PairRay) -> [u8; 24]
    requires { HasShortSides ray.now.ray }
    ensures { result ≡ ray_bytes ray.now }
{
    let mut bytes = [0; 24];
    bytes[..4].copy_from_slice(&pair_of(&ray.pair));
    bytes[4..].copy_from_slice(&line_of(&ray.ray));
    bytes
}

/// The source of a tree, and how many nodes it has.
pub fn head_of(source: u16, count: u64) -> [u8; 10]
    ensures { result ≡ u16 source ++ u64 count }
{
    let [source, source_high] = source.to_le_bytes();
    let [c0, c1, c2, c3, c4, c5, c6, c7] = count.to_le_bytes();
    [source, source_high, c0, c1, c2, c3, c4, c5, c6, c7]
}
