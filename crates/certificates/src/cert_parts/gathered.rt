//! The parts that a reader gives, gathered to a certificate.

ghost use Rattle.std.specs.Prelude.{◌≡◌, ◌<◌, ◌^◌, [], Some, None, length, IfOk, IfErr, IfSome};
ghost use Rattle.cert_format.specs.Grammar.{IsOneInOrder};
ghost use Rattle.cert_format.specs.Reading.{FailsCert, GivesCert};
ghost use Rattle.certificates.specs.CertParts.Gathered.{gathered_cert, core_in, gathered_from, nothing_gathered, tree_ended, two_in, with_gathered};
ghost use Rattle.certificates.specs.declared.cert_parts.part.Part.TheVariants.{Node as TheNode};
ghost use Rattle.certificates.specs.CertParts.Left.{IsCountable};
ghost use Rattle.certificates.specs.CertParts.Parts.{IsPackablePart};

use crate::cert_parts::part::Part;
use crate::cert_parts::reader::Reader;
use block_evidence::sight_tree::{Node, Nodes, Tree};
use cert_format::cert_groups::{AnyCert, CertTwo, Group};
use cert_format::{Cert, Labelled, Sizes};
use sight_names::{CertFault, Items, Memory, Pair, PairRay};
use std::alloc::Global;
use std::marker::Model;

/// The parts that have come so far; a contract sees the lists of them.
#[derive(Drop)]
pub struct Gathered {
    triangles: Vec<Labelled>,
    rays: Vec<PairRay>,
    listed: Vec<Pair>,
    trees: Vec<Tree>,
    /// The last tree, of which more nodes may come.
    tree: Option<Tree>,
}

impl Model for Gathered {
    ghost use Rattle.certificates.specs.CertParts.Gathered.{GatheredParts};

    ghost Value = { GatheredParts };

    ghost view = { λ g. record { triangles = g.triangles.items; rays = g.rays.items; listed = g.listed.items; trees = g.trees.items; tree = g.tree } };
}

impl Gathered {
    fn new(alloc: Global) -> Gathered
        ensures { result ≡ nothing_gathered }
    {
        Gathered {
            triangles: Vec::new(alloc),
            rays: Vec::new(alloc),
            listed: Vec::new(alloc),
            trees: Vec::new(alloc),
            tree: None,
        }
    }

    /// No more nodes come of the last tree.
    fn end_tree(&mut self) -> Result<(), Memory>
        ensures { IfOk result (λ _. self.new ≡ tree_ended self.old) }
    {
        if let Some(tree) = self.tree.take() {
            self.trees.push(tree)?;
        }
        Ok(())
    }

    /// A node of the last tree.
    fn add_node(&mut self, node: Node) -> Result<(), Memory>
        requires { IsPackablePart (TheNode node) }
        ensures { IfOk result (λ _. self.new ≡ with_gathered self.old (TheNode node)) }
    {
        if let Some(tree) = &mut self.tree {
            tree.nodes.push(node)?;
        }
        Ok(())
    }

    /// The next part.
    fn add(&mut self, alloc: Global, part: Part) -> Result<(), Memory>
        requires { IsPackablePart part }
        ensures { IfOk result (λ _. self.new ≡ with_gathered self.old part) }
    {
        match part {
            Part::Triangle(triangle) => self.triangles.push(triangle)?,
            Part::Ray(ray) => self.rays.push(ray)?,
            Part::Listed(pair) => self.listed.push(pair)?,
            Part::Tree { source, .. } => {
                self.end_tree()?;
                let nodes = Nodes::new(alloc);
                self.tree = Some(Tree { source, nodes });
            }
            Part::Node(node) => self.add_node(node)?,
        }
        Ok(())
    }

    /// The certificate of version 1 for a map of these sizes.
    pub fn into_core(self, sizes: Sizes) -> Cert
        requires { IsOneInOrder (core_in sizes None self) }
        ensures { result ≡ core_in sizes None self }
    {
        Cert {
            sizes,
            triangles: Items::of(self.triangles),
            rays: Items::of(self.rays),
            listed: Items::of(self.listed),
            trees: Items::of(self.trees),
        }
    }

    /// The certificate of version 2 for a map of these sizes, with these groups.
    fn into_two(self, alloc: Global, sizes: Sizes, groups: Items<Group>) -> CertTwo
        requires few { length groups < 2 ^ 16 }
        requires in_order { IsOneInOrder (core_in sizes (Some groups) self) }
        ensures { result ≡ two_in sizes groups self }
    {
        let grouped = Sizes {
            sectors: groups.as_slice().len() as u16,
            points: sizes.points,
            lines: sizes.lines,
        };
        let cert = Cert {
            sizes: grouped,
            triangles: Items::of(self.triangles),
            rays: Items::of(self.rays),
            listed: Items::of(Vec::new(alloc)),
            trees: Items::of(self.trees),
        };
        CertTwo {
            groups,
            cert,
            listed: Items::of(self.listed),
        }
    }

    /// The certificate for a map of these sizes; of version 2 where there are groups.
    pub fn into_cert(self, alloc: Global, sizes: Sizes, groups: Option<Items<Group>>) -> AnyCert
        requires few { IfSome groups (λ gs. length gs < 2 ^ 16) }
        requires in_order { IsOneInOrder (core_in sizes groups self) }
        ensures { result ≡ gathered_cert sizes groups self }
    {
        match groups {
            None => AnyCert::One(self.into_core(sizes)),
            Some(groups) => AnyCert::Two(self.into_two(alloc, sizes, groups), sizes),
        }
    }
}

/// Takes the part that comes first in the rest of the bytes: what of them is behind it, or None where there is no more.
fn take_one<'a>(
    alloc: Global,
    reader: &mut Reader,
    parts: &mut Gathered,
    rest: &'a [u8],
) -> Result<Option<&'a [u8]>, CertFault>
    requires countable { IsCountable reader.old rest.now }
    ensures more { IfOk result (λ o. IfSome o (λ behind. gathered_from parts.old reader.old rest.now ≡ gathered_from parts.new reader.new behind.now)) }
    ensures all { IfOk result (λ o. o ≡ None → gathered_from parts.old reader.old rest.now ≡ gathered_from parts.new reader.new []) }
    ensures fault { IfErr result (λ f. FailsCert f (gathered_from parts.old reader.old rest.now)) }
    ensures countable { IfOk result (λ o. IfSome o (λ behind. IsCountable reader.new behind.now)) }
    ensures less { IfOk result (λ o. IfSome o (λ behind. length behind.now < length rest.now)) }
{
    match reader.next(rest) {
        Ok((Some(part), behind)) => {
            parts.add(alloc, part)?;
            Ok(Some(behind))
        }
        Ok((None, _)) => Ok(None),
        Err(fault) => Err(fault),
    }
}

/// All parts that the reader finds in the bytes that are still to come.
pub fn gather(alloc: Global, reader: Reader, bytes: &[u8]) -> Result<Gathered, CertFault>
    requires { IsCountable reader bytes.now }
    ensures { GivesCert (λ g. g) result (gathered_from nothing_gathered reader bytes.now) }
{
    let mut reader = reader;
    let mut parts = Gathered::new(alloc);
    let mut rest = bytes;
    'rest: while let Some(behind) = take_one(alloc, &mut reader, &mut parts, rest)? {
        rest = behind;
    }
    reader.end()?;
    parts.end_tree()?;
    Ok(parts)
}
