//! The reader: it is given the bytes behind the groups in pieces, and gives the parts.

ghost use Rattle.std.specs.Prelude.{◌≡◌, ◌+◌, ◌<◌, ◌^◌, ℕ, List, [], ◌++◌, length, Some, None, Ok, IsSome, IfOk, IfErr, OnErr};
ghost use Rattle.cert_format.specs.Reading.{FailsCert, GivesCert};
ghost use Rattle.certificates.specs.ExactParts.Left.{IsCountable, parts_left, put_before};
ghost use Rattle.certificates.specs.ExactParts.Nodes.{AwaitsTree, behind_bytes};
ghost use Rattle.certificates.specs.ExactParts.Steps.{all_awaited, first_at, width_at, without_rest};

use crate::exact_parts::awaited::Awaited;
use crate::exact_parts::front::FrontThree;
use crate::exact_parts::part::Part;
use crate::exact_parts::taking::{is_done, take, width_of};
use crate::exact_parts::trees::Trees;
use sight_names::CertFault;
use std::alloc::Global;
use std::marker::Model;

/// Reads the parts of a certificate of version 3 from its bytes in pieces, however they are cut. It keeps how many bytes each
/// tree takes, and at most 23 bytes of a record that is cut; a contract sees which parts are still to come, by
/// `parts_left`, and how many bytes were given.
#[derive(Drop)]
pub struct Reader {
    awaited: Awaited,
    trees: Trees,
    given: usize,
    kept: Vec<u8>,
}

impl Model for Reader {
    ghost use Rattle.std.specs.Prelude.{◌<◌, length};
    ghost use Rattle.certificates.specs.ExactParts.Left.{IsFirstTreeLeft, ReaderState};
    ghost use Rattle.certificates.specs.ExactParts.Steps.{width_at};

    ghost Value = { ReaderState };

    ghost view = { λ r. record { awaited = r.awaited; trees = r.trees; given = r.given; kept = r.kept.items } };

    // What is kept isn't a whole record, and something is left of the first tree.
    ghost invariant = { λ r. (length r.kept.items < width_at r.awaited r.trees r.kept.items) × IsFirstTreeLeft r.trees.lengths };
}

/// Takes the record of which these bytes were kept, and this is the rest.
fn take_record(
    awaited: &mut Awaited,
    trees: &mut Trees,
    kept: &mut Vec<u8>,
    total: usize,
    front: &[u8],
) -> Result<Part, CertFault>
    ensures read { GivesCert (λ part. (part, (awaited.new, trees.new))) result (without_rest (first_at awaited.old trees.old total (kept.old.items ++ front.now))) }
    ensures err { OnErr result ((awaited.new ≡ awaited.old) × (trees.new ≡ trees.old)) }
{
    if kept.is_empty() {
        let (part, _) = take(awaited, trees, total, front)?;
        return Ok(part);
    }
    kept.extend_from_slice(front)?;
    let (part, _) = take(awaited, trees, total, kept.as_slice())?;
    Ok(part)
}

impl Reader {
    /// Behind the groups of a certificate, and so many bytes.
    pub(crate) fn behind_groups(alloc: Global, front: &FrontThree, given: usize) -> Reader
        ensures { result ≡ record { awaited = all_awaited front.now; trees = record { source = 0; lengths = [] }; given = given; kept = [] } }
    {
        let awaited = Awaited {
            sizes: front.sizes,
            triangles: front.counts.triangles,
            rays: front.counts.rays,
            lengths: front.counts.groups,
            last_triangle: None,
            last_ray: None,
        };
        Reader {
            awaited,
            trees: Trees::new(alloc),
            given,
            kept: Vec::new(alloc),
        }
    }

    /// Keeps the piece, which doesn't have the rest of the record that is cut.
    fn keep(&mut self, piece: &[u8]) -> Result<(), CertFault>
        requires { length (self.old.kept ++ piece.now) < width_at self.old.awaited self.old.trees (self.old.kept ++ piece.now) }
        ensures kept { IfOk result (λ _. (more : List ℕ) → IsCountable self.old piece.now → parts_left self.old (piece.now ++ more) ≡ parts_left self.new more) }
        ensures given { IsCountable self.old piece.now → IfOk result (λ _. self.new.given ≡ self.old.given + length piece.now) }
        ensures memory { IfErr result (λ f. (more : List ℕ) → FailsCert f (parts_left self.old (piece.now ++ more))) }
    {
        match self.kept.extend_from_slice(piece) {
            Ok(()) => {
                self.given = self.given.saturating_add(piece.len());
                Ok(())
            }
            Err(refused) => {
                self.kept.clear();
                Err(CertFault::Memory(refused.into()))
            }
        }
    }

    /// Takes the record whose rest this is.
    fn take(&mut self, front: &[u8]) -> Result<Part, CertFault>
        requires { width_at self.old.awaited self.old.trees (self.old.kept ++ front.now) ≡ length (self.old.kept ++ front.now) }
        ensures told { IsCountable self.old front.now → IfOk result (λ part. (more : List ℕ) → parts_left self.old (front.now ++ more) ≡ put_before (Some part) (parts_left self.new more)) }
        ensures fault { IsCountable self.old front.now → IfErr result (λ f. (more : List ℕ) → FailsCert f (parts_left self.old (front.now ++ more))) }
        ensures given { IsCountable self.old front.now → IfOk result (λ _. self.new.given ≡ self.old.given + length front.now) }
    {
        let total = self.given.saturating_add(front.len());
        let taken = take_record(
            &mut self.awaited,
            &mut self.trees,
            &mut self.kept,
            total,
            front,
        );
        self.kept.clear();
        self.given = total;
        taken
    }

    /// How many bytes are left of the tree that comes next, none of whose bytes is kept; 0 says nothing.
    #[inline(always)]
    pub fn tree_awaited(&self) -> u64
        ensures { 0 < result → AwaitsTree self.now result }
    {
        if self.kept.len() != 0
            || self.awaited.triangles > 0
            || self.awaited.rays > 0
            || self.awaited.lengths > 0
        {
            return 0;
        }
        self.trees.first()
    }

    /// The number of the tree that comes next.
    #[inline(always)]
    pub fn tree(&self) -> usize
        ensures { result ≡ self.now.trees.source }
    {
        self.trees.source()
    }

    /// Goes behind nodes that were taken by `usual_node`, of so many bytes.
    #[inline(always)]
    pub fn nodes_taken(&mut self, bytes: usize)
        requires { self.old.kept ≡ [] }
        ensures { self.old.given + bytes < 2 ^ 64 → self.new ≡ behind_bytes self.old bytes }
    {
        self.trees.take(bytes);
        self.trees.settle();
        self.given = self.given.saturating_add(bytes);
    }

    /// The next part and what of the piece is behind it; None where the piece is used up. Bytes of a part that is cut are
    /// kept, and a fault in them is told with the piece that has the rest of it, or at the end. After an Err nothing more is to be asked.
    pub fn next<'a>(&mut self, piece: &'a [u8]) -> Result<(Option<Part>, &'a [u8]), CertFault>
        // The part comes first of those that were still to come, whatever bytes come behind the piece.
        ensures part { IsCountable self.old piece.now → IfOk result (λ x. (more : List ℕ) → parts_left self.old (piece.now ++ more) ≡ put_before x.0 (parts_left self.new (x.1.now ++ more))) }
        // The fault is told whatever bytes come behind the piece, unless memory ran out.
        ensures fault { IsCountable self.old piece.now → IfErr result (λ f. (more : List ℕ) → FailsCert f (parts_left self.old (piece.now ++ more))) }
        ensures given { IsCountable self.old piece.now → IfOk result (λ x. self.new.given + length x.1.now ≡ self.old.given + length piece.now) }
        // What is behind the part is an end of the piece.
        ensures rest { IfOk result (λ x. (front : List ℕ) × (piece.now ≡ front ++ x.1.now)) }
        // A part takes bytes of the piece.
        ensures less { IfOk result (λ x. IsSome x.0 → length x.1.now < length piece.now) }
        // Without a part the piece is used up.
        ensures used { IfOk result (λ x. x.0 ≡ None → x.1.now ≡ []) }
    {
        let width = width_of(&self.awaited, &self.trees, self.kept.as_slice(), piece);
        let lacking = width - self.kept.len();
        if piece.len() < lacking {
            self.keep(piece)?;
            return Ok((None, &[]));
        }
        let (front, rest) = piece.split_at(lacking);
        let part = self.take(front)?;
        Ok((Some(part), rest))
    }

    /// Whether the bytes that were given are a whole certificate; the fault where they aren't.
    pub fn end(self) -> Result<(), CertFault>
        ensures whole { IfOk result (λ _. parts_left self [] ≡ Ok []) }
        ensures fault { IfErr result (λ f. FailsCert f (parts_left self [])) }
    {
        if is_done(&self.awaited, &self.trees) && self.kept.is_empty() {
            return Ok(());
        }
        let Reader {
            mut awaited,
            mut trees,
            given,
            kept,
        } = self;
        match take(&mut awaited, &mut trees, given, kept.as_slice()) {
            Err(fault) => Err(fault),
            Ok(_) => Ok(()),
        }
    }
}
