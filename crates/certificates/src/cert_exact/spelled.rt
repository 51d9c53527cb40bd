//! The bytes of the header.

ghost use Rattle.std.specs.Prelude.{◌≡◌, length, ◌<◌, ◌^◌};
ghost use Rattle.cert_format.specs.Grammar.{AreSmall};
ghost use Rattle.certificates.specs.CertExact.Grammar.{exact_front_bytes, exact_header_bytes};

use crate::cert_exact::cert::ExactParts;
use cert_format::Sizes;

/// The magic, version 3, the sizes, and how many groups there are.
fn front_of(sizes: Sizes, groups: u16) -> [u8; 14]
    ensures spelled { result ≡ exact_front_bytes sizes groups }
    ensures small { AreSmall sizes }
{
    let [sectors, sectors_high] = sizes.sectors.to_le_bytes();
    let [points, points_high] = sizes.points.to_le_bytes();
    let [lines, lines_high] = sizes.lines.to_le_bytes();
    let [count, count_high] = groups.to_le_bytes();
    let [d, s, c, t] = *b"DSCT";
    [
        d,
        s,
        c,
        t,
        3,
        0,
        sectors,
        sectors_high,
        points,
        points_high,
        lines,
        lines_high,
        count,
        count_high,
    ]
}

/// The header of a certificate.
pub fn header_of(cert: &ExactParts) -> [u8; 22]
    requires groups { length cert.now.groups < 2 ^ 16 }
    requires triangles { length cert.now.triangles < 2 ^ 32 }
    requires rays { length cert.now.rays < 2 ^ 32 }
    ensures spelled { result ≡ exact_header_bytes cert.now }
    ensures small { AreSmall cert.now.sizes }
{
    let [t0, t1, t2, t3] = (cert.triangles.as_slice().len() as u32).to_le_bytes();
    let [r0, r1, r2, r3] = (cert.rays.as_slice().len() as u32).to_le_bytes();
    let mut header = [0; 22];
    header[..14].copy_from_slice(&front_of(cert.sizes, cert.groups.as_slice().len() as u16));
    header[14..].copy_from_slice(&[t0, t1, t2, t3, r0, r1, r2, r3]);
    header
}
