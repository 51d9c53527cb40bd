//! Whole files, in pieces.

ghost use Rattle.std.specs.Prelude.{◌≡◌, ◌≤◌, ◌∷◌, [], length, IfOk, OnOk, OnErr, Some};
ghost use Rattle.std.specs.Option.{option_map};
ghost use Rattle.shelf_io.specs.Shelf.{Files, Rose, NoneFell, SameCounts, Fetches, FetchCause, content_of, BeginsAmong, MayHoldFront, put};

use crate::PIECE;
use crate::shelf::Shelf;
use sight_names::{Failed, FetchFault, ShelfFault};
use std::alloc::{AllocError, Global};

fn zeros(alloc: Global, len: usize) -> Result<Vec<u8>, AllocError>
    ensures { IfOk result (λ v. length v.items ≡ len) }
{
    vec![in alloc; 0; len]
}

/// The whole bytes of a file of at most so many bytes. All files stay.
pub fn fetch<S: Shelf>(
    alloc: Global,
    shelf: &mut S,
    name: &str,
    limit: u64,
) -> Result<Vec<u8>, FetchFault>
    ensures within { IfOk result (λ bytes. length bytes.items ≤ limit) }
    ensures told { (files : Files) → (S.state shelf.old).files ≡ Some files → Fetches (λ bytes. bytes.items) result (content_of (files name.now) limit) }
    ensures files { (S.state shelf.new).files ≡ (S.state shelf.old).files }
    ensures begun { (S.state shelf.new).begun ≡ (S.state shelf.old).begun }
    ensures counts { NoneFell (S.state shelf.old) (S.state shelf.new) }
    ensures cause { FetchCause (S.state shelf.old) (S.state shelf.new) result }
{
    let mut bytes = Vec::new(alloc);
    let mut piece = zeros(alloc, PIECE)?;
    let buf = piece.as_mut_slice();
    loop {
        let at = bytes.len() as u64;
        let taken = match shelf.read(name, at, buf) {
            Ok(taken) => taken,
            Err(ShelfFault::Absent) => return Err(FetchFault::Absent),
            Err(ShelfFault::Failed) => return Err(FetchFault::Failed),
        };
        if taken == 0 {
            return Ok(bytes);
        }
        if taken as u64 > limit - at {
            return Err(FetchFault::TooLong);
        }
        bytes.extend_from_slice(&buf[..taken])?;
    }
}

/// Makes the file hold these bytes. After `Failed` it is as before, or holds a front of them.
pub fn store<S: Shelf>(shelf: &mut S, name: &str, bytes: &[u8]) -> Result<(), Failed>
    ensures stored { OnOk result ((S.state shelf.new).files ≡ option_map (λ files. put files name.now bytes.now) (S.state shelf.old).files) }
    ensures failed { OnErr result (MayHoldFront (S.state shelf.old).files (S.state shelf.new).files name.now bytes.now) }
    ensures begun { BeginsAmong (S.state shelf.old).begun (S.state shelf.new).begun (name.now ∷ []) }
    ensures counts { NoneFell (S.state shelf.old) (S.state shelf.new) }
    ensures quiet { OnOk result (SameCounts (S.state shelf.old) (S.state shelf.new)) }
    ensures cause { OnErr result (Rose (S.state shelf.old).write_faults (S.state shelf.new).write_faults) }
{
    shelf.create(name)?;
    let mut at = 0;
    while at < bytes.len() {
        let end = at + PIECE.min(bytes.len() - at);
        shelf.append(name, &bytes[at..end])?;
        at = end;
    }
    Ok(())
}
