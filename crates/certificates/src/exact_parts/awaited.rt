//! The records before the trees that are still to come, and a triangle or a ray taken from its bytes.

ghost use Rattle.std.specs.Prelude.{◌≡◌, ◌<◌, OnErr};
ghost use Rattle.cert_format.specs.Reading.{GivesExactly};
ghost use Rattle.certificates.specs.ExactParts.Steps.{ray_step, triangle_step};

use crate::exact_parts::part::Part;
use cert_format::records::{ray_of, triangle_of};
use cert_format::{Labelled, Sizes};
use sight_names::{CertFault, PairRay};

/// How many records of each kind are still to come before the trees, and the last triangle and the last ray, which the
/// next has to come behind. The sizes have groups in the place of sectors.
#[derive(Clone, Copy)]
pub struct Awaited {
    pub sizes: Sizes,
    pub triangles: u32,
    pub rays: u32,
    /// How many trees whose length is still to come.
    pub lengths: u16,
    pub last_triangle: Option<Labelled>,
    pub last_ray: Option<PairRay>,
}

impl Awaited {
    /// Takes the triangle that comes first, where there are so many bytes up to the end of these: it and the bytes behind it.
    #[tactic(auto, unfolding(crate::specs::ExactParts::Steps::triangle_step))]
    pub fn take_triangle<'a>(
        &mut self,
        total: usize,
        bytes: &'a [u8],
    ) -> Result<(Part, &'a [u8]), CertFault>
        requires { 0 < self.old.triangles }
        ensures read { GivesExactly (λ x. ((x.0, self.new), x.1.now)) result (triangle_step self.old total bytes.now) }
        ensures err { OnErr result (self.new ≡ self.old) }
    {
        let (triangle, rest) = triangle_of(self.sizes, total, self.last_triangle, bytes)?;
        self.triangles -= 1;
        self.last_triangle = Some(triangle);
        Ok((Part::Triangle(triangle), rest))
    }

    /// Takes the ray that comes first.
    #[tactic(auto, unfolding(crate::specs::ExactParts::Steps::ray_step))]
    pub fn take_ray<'a>(
        &mut self,
        total: usize,
        bytes: &'a [u8],
    ) -> Result<(Part, &'a [u8]), CertFault>
        requires { 0 < self.old.rays }
        ensures read { GivesExactly (λ x. ((x.0, self.new), x.1.now)) result (ray_step self.old total bytes.now) }
        ensures err { OnErr result (self.new ≡ self.old) }
    {
        let (ray, rest) = ray_of(self.sizes, total, self.last_ray, bytes)?;
        self.rays -= 1;
        self.last_ray = Some(ray);
        Ok((Part::Ray(ray), rest))
    }
}
