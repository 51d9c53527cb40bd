//! A certificate stored while it is spelled.

ghost use Rattle.std.specs.Prelude.{◌≡◌, ◌∷◌, [], OnErr, OnOk};
ghost use Rattle.std.specs.Option.{option_map};
ghost use Rattle.certificates.specs.Grammar.{spelling};
ghost use Rattle.shelf_io.specs.Shelf.{BeginsAmong, MayHoldFront, NoneFell, Rose, SameCounts, put};

use crate::output_pieces::spellable::Spellable;
use shelf_io::{PIECE, Shelf};
use sight_names::Failed;

/// Makes the file hold the one spelling of the certificate, in pieces of at most 65,536 bytes. After `Failed` it is as before, or holds
/// a front of the spelling. It takes no memory.
pub fn store_spelling<S: Shelf>(shelf: &mut S, name: &str, cert: &Spellable) -> Result<(), Failed>
    ensures stored { OnOk result ((S.state shelf.new).files ≡ option_map (λ files. put files name.now (spelling cert.now)) (S.state shelf.old).files) }
    ensures failed { OnErr result (MayHoldFront (S.state shelf.old).files (S.state shelf.new).files name.now (spelling cert.now)) }
    ensures begun { BeginsAmong (S.state shelf.old).begun (S.state shelf.new).begun (name.now ∷ []) }
    ensures counts { NoneFell (S.state shelf.old) (S.state shelf.new) }
    ensures quiet { OnOk result (SameCounts (S.state shelf.old) (S.state shelf.new)) }
    ensures cause { OnErr result (Rose (S.state shelf.old).write_faults (S.state shelf.new).write_faults) }
{
    shelf.create(name)?;
    let mut printer = cert.printer();
    let mut piece = [0; PIECE];
    loop {
        let count = printer.next(&mut piece);
        if count == 0 {
            return Ok(());
        }
        shelf.append(name, &piece[..count])?;
    }
}
