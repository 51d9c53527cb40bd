//! The reader: it is given the bytes of a certificate in pieces, and gives its parts.

ghost use Rattle.std.specs.Prelude.{◌≡◌, ◌+◌, ◌^◌, ◌<◌, ◌≤◌, ℕ, List, [], ◌++◌, length, None, Ok, Err, true, false, IsSome, IfOk, IfErr, IfSome, OnOk, OnErr};
ghost use Rattle.certificates.specs.CertParts.Parts.{IsPackablePart, reading_parts};
ghost use Rattle.certificates.specs.CertParts.Left.{IsCountable, parts_left, put_before};
ghost use Rattle.certificates.specs.CertParts.Nodes.{AwaitsNodes, behind_nodes};
ghost use Rattle.certificates.specs.CertParts.Steps.{two_awaited};

use crate::cert_parts::awaited::Awaited;
use crate::cert_parts::kept::Kept;
use crate::cert_parts::part::Part;
use cert_format::Sizes;
use cert_format::cert_groups::FrontTwo;
use sight_names::CertFault;
use std::marker::Model;

/// Reads a certificate from its bytes in pieces, however they are cut, and keeps at most 27 of them; a contract sees
/// which parts are still to come, by `parts_left`, and how many bytes were given.
#[derive(Drop)]
pub struct Reader {
    awaited: Awaited,
    given: usize,
    kept: Kept,
}

impl Model for Reader {
    ghost use Rattle.std.specs.Prelude.{◌<◌, length};
    ghost use Rattle.certificates.specs.CertParts.Left.{ReaderState};
    ghost use Rattle.certificates.specs.CertParts.Steps.{width_at};

    ghost Value = { ReaderState };

    ghost view = { λ r. record { awaited = r.awaited; given = r.given; kept = r.kept } };

    // What is kept isn't a whole record.
    ghost invariant = { λ r. length r.kept < width_at r.awaited r.kept };
}

impl Reader {
    /// Before the first piece of a certificate for a map of these sizes.
    pub fn new(sizes: &Sizes) -> Reader
        // The parts to come are those of the certificate that `read` gives of the same bytes, or its fault.
        ensures parts { (bytes : List ℕ) → parts_left result bytes ≡ reading_parts sizes.now bytes }
        ensures given { result.given ≡ 0 }
    {
        Reader {
            awaited: Awaited::new(*sizes),
            given: 0,
            kept: Kept::new(),
        }
    }

    /// Behind the groups of a certificate of version 2 for a map of these sizes, and so many bytes.
    pub(crate) fn behind_groups(sizes: &Sizes, front: &FrontTwo, given: usize) -> Reader
        ensures { result ≡ record { awaited = two_awaited sizes.now front.now; given = given; kept = [] } }
    {
        Reader {
            awaited: Awaited::behind_groups(*sizes, front),
            given,
            kept: Kept::new(),
        }
    }

    /// Another reader in the same state.
    fn copied(&self) -> Reader
        ensures { result ≡ self.now }
    {
        Reader {
            awaited: self.awaited,
            given: self.given,
            kept: self.kept.with(&[]),
        }
    }

    /// Takes the record that comes first, once the piece has all of it, and else keeps the piece: the part of the record,
    /// if it has one, and the bytes behind it.
    fn step<'a>(&mut self, piece: &'a [u8]) -> Result<(Option<Part>, &'a [u8]), CertFault>
        ensures told { IsCountable self.old piece.now → IfOk result (λ x. (more : List ℕ) → parts_left self.old (piece.now ++ more) ≡ put_before x.0 (parts_left self.new (x.1.now ++ more))) }
        ensures fault { IsCountable self.old piece.now → IfErr result (λ f. (more : List ℕ) → parts_left self.old (piece.now ++ more) ≡ Err f) }
        ensures given { IsCountable self.old piece.now → IfOk result (λ x. self.new.given + length x.1.now ≡ self.old.given + length piece.now) }
        ensures rest { IfOk result (λ x. (front : List ℕ) × (piece.now ≡ front ++ x.1.now)) }
        ensures header { self.old.awaited.begun ≡ false → IfOk result (λ x. x.0 ≡ None) }
        ensures node { IfOk result (λ x. IfSome x.0 IsPackablePart) }
        ensures less { IfOk result (λ x. IsSome x.0 → length x.1.now < length piece.now) }
        ensures used { self.old.awaited.begun ≡ true → IfOk result (λ x. x.0 ≡ None → x.1.now ≡ []) }
        ensures cut { self.new.awaited.begun ≡ false → IfOk result (λ x. x.1.now ≡ []) }
        ensures err { OnErr result (self.new ≡ self.old) }
    {
        let width = self.awaited.width(self.kept.as_slice(), piece);
        let lacking = width - self.kept.len();
        if piece.len() < lacking {
            self.kept = self.kept.with(piece);
            self.given = self.given.saturating_add(piece.len());
            return Ok((None, &[]));
        }
        let (front, rest) = piece.split_at(lacking);
        let total = self.given.saturating_add(lacking);
        let whole = self.kept.with(front);
        let (part, _) = self.awaited.take(total, whole.as_slice())?;
        self.given = total;
        self.kept = Kept::new();
        Ok((part, rest))
    }

    /// Takes the record that comes first, of which no byte is kept and all stand in the piece, where they stand: its part and
    /// the bytes behind it.
    fn take_whole<'a>(&mut self, piece: &'a [u8]) -> Result<(Option<Part>, &'a [u8]), CertFault>
        requires begun { self.old.awaited.begun ≡ true }
        requires uncut { self.old.kept ≡ [] }
        requires whole { 28 ≤ length piece.now }
        ensures told { IsCountable self.old piece.now → IfOk result (λ x. (more : List ℕ) → parts_left self.old (piece.now ++ more) ≡ put_before x.0 (parts_left self.new (x.1.now ++ more))) }
        ensures fault { IsCountable self.old piece.now → IfErr result (λ f. (more : List ℕ) → parts_left self.old (piece.now ++ more) ≡ Err f) }
        ensures given { IsCountable self.old piece.now → IfOk result (λ x. self.new.given + length x.1.now ≡ self.old.given + length piece.now) }
        ensures rest { IfOk result (λ x. (front : List ℕ) × (piece.now ≡ front ++ x.1.now)) }
        ensures node { IfOk result (λ x. IfSome x.0 IsPackablePart) }
        ensures less { IfOk result (λ x. length x.1.now < length piece.now) }
        ensures some { IfOk result (λ x. IsSome x.0) }
        ensures err { OnErr result (self.new ≡ self.old) }
    {
        let width = self.awaited.width(&[], piece);
        let (front, rest) = piece.split_at(width);
        let total = self.given.saturating_add(width);
        let (part, _) = self.awaited.take(total, front)?;
        self.given = total;
        Ok((part, rest))
    }

    /// How many nodes come next, none of whose bytes is kept; 0 says nothing.
    #[inline(always)]
    pub fn nodes_awaited(&self) -> u64
        ensures { 0 < result → AwaitsNodes self.now result }
    {
        if self.kept.len() != 0 || !self.awaited.is_in_tree() {
            return 0;
        }
        self.awaited.nodes
    }

    /// Goes behind nodes that were taken by `usual_node`, of so many bytes; so many are left.
    #[inline(always)]
    pub fn nodes_taken(&mut self, left: u64, bytes: usize)
        requires { self.old.kept ≡ [] }
        ensures { self.old.given + bytes < 2 ^ 64 → self.new ≡ behind_nodes self.old left bytes }
    {
        self.awaited.nodes = left;
        self.given = self.given.saturating_add(bytes);
    }

    /// The next part and what of the piece is behind it; None where the piece is used up. Bytes of a part that is cut are
    /// kept, and a fault in them is told with the piece that has the rest of it, or at the end.
    pub fn next<'a>(&mut self, piece: &'a [u8]) -> Result<(Option<Part>, &'a [u8]), CertFault>
        // The part comes first of those that were still to come, whatever bytes come behind the piece.
        ensures part { IsCountable self.old piece.now → IfOk result (λ x. (more : List ℕ) → parts_left self.old (piece.now ++ more) ≡ put_before x.0 (parts_left self.new (x.1.now ++ more))) }
        // The fault is told whatever bytes come behind the piece.
        ensures fault { IsCountable self.old piece.now → IfErr result (λ f. (more : List ℕ) → parts_left self.old (piece.now ++ more) ≡ Err f) }
        ensures given { IsCountable self.old piece.now → IfOk result (λ x. self.new.given + length x.1.now ≡ self.old.given + length piece.now) }
        // What is behind the part is an end of the piece.
        ensures rest { IfOk result (λ x. (front : List ℕ) × (piece.now ≡ front ++ x.1.now)) }
        // A part takes bytes of the piece.
        ensures less { IfOk result (λ x. IsSome x.0 → length x.1.now < length piece.now) }
        // Nothing of a node is lost where it is kept as its spelling.
        ensures node { IfOk result (λ x. IfSome x.0 IsPackablePart) }
        // Without a part the piece is used up.
        ensures used { IfOk result (λ x. x.0 ≡ None → x.1.now ≡ []) }
        ensures err { OnErr result (self.new ≡ self.old) }
    {
        if self.awaited.begun {
            if self.kept.len() == 0 && piece.len() >= 28 {
                return self.take_whole(piece);
            }
            return self.step(piece);
        }
        let mut reader = self.copied();
        let (_, rest) = reader.step(piece)?;
        let (part, rest) = reader.step(rest)?;
        *self = reader;
        Ok((part, rest))
    }

    /// Whether the bytes that were given are a whole certificate; the fault where they aren't.
    pub fn end(&self) -> Result<(), CertFault>
        ensures whole { OnOk result (parts_left self.now [] ≡ Ok []) }
        ensures fault { IfErr result (λ f. parts_left self.now [] ≡ Err f) }
    {
        if self.awaited.is_done() && self.kept.len() == 0 {
            return Ok(());
        }
        let mut awaited = self.awaited;
        match awaited.take(self.given, self.kept.as_slice()) {
            Err(fault) => Err(fault),
            Ok(_) => Ok(()),
        }
    }
}
