//! The records that are still to come, and the one that comes first taken from its bytes.

ghost use Rattle.std.specs.Prelude.{◌≡◌, ◌<◌, ◌++◌, IfOk, IfSome, OnErr};
ghost use Rattle.cert_format.specs.Reading.{GivesExactly};
ghost use Rattle.certificates.specs.CertParts.Parts.{IsPackablePart};
ghost use Rattle.certificates.specs.CertParts.Steps.{none_read, two_awaited, is_done, is_in_tree, header_step, triangle_step, ray_step, pair_step, node_step, head_step, first_at, first_width, width_at};

use crate::cert_parts::part::Part;
use crate::cert_parts::records::{head_of, node_of, node_width};
use cert_format::cert_groups::FrontTwo;
use cert_format::fields::place;
use cert_format::reading::{counts_of, front_of};
use cert_format::records::{listed_of, ray_of, triangle_of};
use cert_format::{Labelled, Sizes};
use sight_names::{CertFault, Pair, PairRay};

/// How many records of each kind are still to come, and the last one of each, which the next has to come behind.
#[derive(Clone, Copy)]
pub struct Awaited {
    pub sizes: Sizes,
    /// The sizes of the map, whose sectors listed pairs are of; those above may have groups in the place of sectors.
    pub map_sizes: Sizes,
    /// Whether the header was read.
    pub begun: bool,
    pub triangles: u32,
    pub rays: u32,
    pub listed: u32,
    pub trees: u32,
    /// How many nodes of the tree under way.
    pub nodes: u64,
    pub last_triangle: Option<Labelled>,
    pub last_ray: Option<PairRay>,
    pub last_pair: Option<Pair>,
    pub last_source: Option<u16>,
}

/// How many bytes a node takes that begins with the first of these bytes; one where there is none.
fn first_width(kept: &[u8], piece: &[u8]) -> usize
    ensures { result ≡ first_width (kept.now ++ piece.now) }
{
    match kept {
        [first, ..] => node_width(*first),
        [] => match piece {
            [first, ..] => node_width(*first),
            [] => 1,
        },
    }
}

impl Awaited {
    /// Nothing was read yet.
    pub fn new(sizes: Sizes) -> Awaited
        ensures { result ≡ none_read sizes }
    {
        Awaited {
            sizes,
            map_sizes: sizes,
            begun: false,
            triangles: 0,
            rays: 0,
            listed: 0,
            trees: 0,
            nodes: 0,
            last_triangle: None,
            last_ray: None,
            last_pair: None,
            last_source: None,
        }
    }

    /// All records that the front of version 2 counts.
    pub fn behind_groups(sizes: Sizes, front: &FrontTwo) -> Awaited
        ensures { result ≡ two_awaited sizes front.now }
    {
        Awaited {
            sizes: front.sizes,
            map_sizes: sizes,
            begun: true,
            triangles: front.counts.triangles,
            rays: front.counts.rays,
            listed: front.counts.listed,
            trees: front.counts.trees,
            nodes: 0,
            last_triangle: None,
            last_ray: None,
            last_pair: None,
            last_source: None,
        }
    }

    /// Whether no record is still to come.
    pub fn is_done(&self) -> bool
        ensures { result ≡ is_done self.now }
    {
        self.begun
            && self.triangles == 0
            && self.rays == 0
            && self.listed == 0
            && self.nodes == 0
            && self.trees == 0
    }

    /// Whether a node comes next.
    #[inline(always)]
    pub fn is_in_tree(&self) -> bool
        ensures { result ≡ is_in_tree self.now }
    {
        self.begun && self.triangles == 0 && self.rays == 0 && self.listed == 0 && 0 < self.nodes
    }

    /// How many bytes the record takes whose first bytes were kept, and go on in this piece.
    #[tactic(auto, unfolding(crate::specs::CertParts::Steps::width_at))]
    pub fn width(&self, kept: &[u8], piece: &[u8]) -> usize
        ensures { result ≡ width_at self.now (kept.now ++ piece.now) }
    {
        if !self.begun {
            28
        } else if self.triangles > 0 {
            8
        } else if self.rays > 0 {
            24
        } else if self.listed > 0 {
            4
        } else if self.nodes > 0 {
            first_width(kept, piece)
        } else if self.trees > 0 {
            10
        } else {
            1
        }
    }

    /// Takes the header, whose counts say what comes behind it.
    #[tactic(auto, unfolding(crate::specs::CertParts::Steps::header_step, crate::specs::CertParts::Left::header_at))]
    fn take_header<'a>(
        &mut self,
        total: usize,
        bytes: &'a [u8],
    ) -> Result<(Option<Part>, &'a [u8]), CertFault>
        ensures read { GivesExactly (λ x. ((x.0, self.new), x.1.now)) result (header_step self.old total bytes.now) }
        ensures node { IfOk result (λ x. IfSome x.0 IsPackablePart) }
        ensures err { OnErr result (self.new ≡ self.old) }
    {
        let rest = front_of(self.sizes, total, bytes)?;
        let (counts, rest) = counts_of(self.sizes.points, total, rest)?;
        *self = Awaited {
            sizes: self.sizes,
            map_sizes: self.sizes,
            begun: true,
            triangles: counts.triangles,
            rays: counts.rays,
            listed: counts.listed,
            trees: counts.trees,
            nodes: 0,
            last_triangle: None,
            last_ray: None,
            last_pair: None,
            last_source: None,
        };
        Ok((None, rest))
    }

    #[tactic(auto, unfolding(crate::specs::CertParts::Steps::triangle_step))]
    fn take_triangle<'a>(
        &mut self,
        total: usize,
        bytes: &'a [u8],
    ) -> Result<(Option<Part>, &'a [u8]), CertFault>
        requires { 0 < self.old.triangles }
        ensures read { GivesExactly (λ x. ((x.0, self.new), x.1.now)) result (triangle_step self.old total bytes.now) }
        ensures node { IfOk result (λ x. IfSome x.0 IsPackablePart) }
        ensures err { OnErr result (self.new ≡ self.old) }
    {
        let (triangle, rest) = triangle_of(self.sizes, total, self.last_triangle, bytes)?;
        self.triangles -= 1;
        self.last_triangle = Some(triangle);
        Ok((Some(Part::Triangle(triangle)), rest))
    }

    #[tactic(auto, unfolding(crate::specs::CertParts::Steps::ray_step))]
    fn take_ray<'a>(
        &mut self,
        total: usize,
        bytes: &'a [u8],
    ) -> Result<(Option<Part>, &'a [u8]), CertFault>
        requires { 0 < self.old.rays }
        ensures read { GivesExactly (λ x. ((x.0, self.new), x.1.now)) result (ray_step self.old total bytes.now) }
        ensures node { IfOk result (λ x. IfSome x.0 IsPackablePart) }
        ensures err { OnErr result (self.new ≡ self.old) }
    {
        let (ray, rest) = ray_of(self.sizes, total, self.last_ray, bytes)?;
        self.rays -= 1;
        self.last_ray = Some(ray);
        Ok((Some(Part::Ray(ray)), rest))
    }

    #[tactic(auto, unfolding(crate::specs::CertParts::Steps::pair_step))]
    fn take_pair<'a>(
        &mut self,
        total: usize,
        bytes: &'a [u8],
    ) -> Result<(Option<Part>, &'a [u8]), CertFault>
        requires { 0 < self.old.listed }
        ensures read { GivesExactly (λ x. ((x.0, self.new), x.1.now)) result (pair_step self.old total bytes.now) }
        ensures node { IfOk result (λ x. IfSome x.0 IsPackablePart) }
        ensures err { OnErr result (self.new ≡ self.old) }
    {
        let (pair, rest) = listed_of(self.map_sizes, total, self.last_pair, bytes)?;
        self.listed -= 1;
        self.last_pair = Some(pair);
        Ok((Some(Part::Listed(pair)), rest))
    }

    #[tactic(auto, unfolding(crate::specs::CertParts::Steps::node_step))]
    fn take_node<'a>(
        &mut self,
        total: usize,
        bytes: &'a [u8],
    ) -> Result<(Option<Part>, &'a [u8]), CertFault>
        requires { 0 < self.old.nodes }
        ensures read { GivesExactly (λ x. ((x.0, self.new), x.1.now)) result (node_step self.old total bytes.now) }
        ensures node { IfOk result (λ x. IfSome x.0 IsPackablePart) }
        ensures err { OnErr result (self.new ≡ self.old) }
    {
        let (node, rest) = node_of(total, bytes)?;
        self.nodes -= 1;
        Ok((Some(Part::Node(node)), rest))
    }

    /// Takes the head of a tree, whose nodes come behind it.
    #[tactic(auto, unfolding(crate::specs::CertParts::Steps::head_step))]
    fn take_head<'a>(
        &mut self,
        total: usize,
        bytes: &'a [u8],
    ) -> Result<(Option<Part>, &'a [u8]), CertFault>
        requires { 0 < self.old.trees }
        ensures read { GivesExactly (λ x. ((x.0, self.new), x.1.now)) result (head_step self.old total bytes.now) }
        ensures node { IfOk result (λ x. IfSome x.0 IsPackablePart) }
        ensures err { OnErr result (self.new ≡ self.old) }
    {
        let ((source, nodes), rest) = head_of(self.sizes, total, self.last_source, bytes)?;
        self.trees -= 1;
        self.nodes = nodes;
        self.last_source = Some(source);
        Ok((Some(Part::Tree { source, nodes }), rest))
    }

    /// Takes the record that comes first, where there are so many bytes up to the end of these; its part, which the
    /// header has none of, and the bytes behind it.
    #[tactic(auto, unfolding(crate::specs::CertParts::Steps::first_at))]
    pub fn take<'a>(
        &mut self,
        total: usize,
        bytes: &'a [u8],
    ) -> Result<(Option<Part>, &'a [u8]), CertFault>
        ensures read { GivesExactly (λ x. ((x.0, self.new), x.1.now)) result (first_at self.old total bytes.now) }
        ensures node { IfOk result (λ x. IfSome x.0 IsPackablePart) }
        ensures err { OnErr result (self.new ≡ self.old) }
    {
        if !self.begun {
            return self.take_header(total, bytes);
        }
        if self.triangles > 0 {
            return self.take_triangle(total, bytes);
        }
        if self.rays > 0 {
            return self.take_ray(total, bytes);
        }
        if self.listed > 0 {
            return self.take_pair(total, bytes);
        }
        if self.nodes > 0 {
            return self.take_node(total, bytes);
        }
        if self.trees > 0 {
            return self.take_head(total, bytes);
        }
        Err(CertFault::Trailing {
            at: place(total, bytes),
        })
    }
}
