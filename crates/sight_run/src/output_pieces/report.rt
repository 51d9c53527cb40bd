//! A report stored while it is read from its listeners.

ghost use Rattle.std.specs.Prelude.{◌≡◌, ◌∷◌, ◌++◌, [], ℕ, List, OnErr, OnOk, Option, map};
ghost use Rattle.std.specs.Option.{option_map};
ghost use Rattle.listeners.specs.Listening.{listener_text};
ghost use Rattle.listeners.specs.Told.{texts};
ghost use Rattle.sight_run.specs.OutputPieces.UnderWay.{IsStoring};
ghost use Rattle.shelf_io.specs.Shelf.{BeginsAmong, Files, MayHoldFront, NoneFell, Rose, SameCounts, put};

use listeners::{Listener, words_of};
use shelf_io::{PIECE, Shelf};
use sight_names::Failed;

/// Adds the text of a listener to a file whose next bytes it is.
fn put_text<S: Shelf>(shelf: &mut S, name: &str, listener: &Box<dyn Listener>) -> Result<(), Failed>
    ensures put { (before : Option Files) (all rest : List ℕ) → IsStoring before (S.state shelf.old).files name.now all (listener_text (listener_state listener.now) ++ rest) →
        OnOk result (IsStoring before (S.state shelf.new).files name.now all rest) }
    ensures failed { (before : Option Files) (all rest : List ℕ) → IsStoring before (S.state shelf.old).files name.now all (listener_text (listener_state listener.now) ++ rest) →
        OnErr result (MayHoldFront before (S.state shelf.new).files name.now all) }
    ensures begun { BeginsAmong (S.state shelf.old).begun (S.state shelf.new).begun (name.now ∷ []) }
    ensures counts { NoneFell (S.state shelf.old) (S.state shelf.new) }
    ensures quiet { OnOk result (SameCounts (S.state shelf.old) (S.state shelf.new)) }
    ensures cause { OnErr result (Rose (S.state shelf.old).write_faults (S.state shelf.new).write_faults) }
{
    let mut piece = [0; PIECE];
    let mut at = 0u64;
    loop {
        let count = words_of(listener, at, &mut piece);
        if count == 0 {
            return Ok(());
        }
        shelf.append(name, &piece[..count])?;
        at += count as u64;
    }
}

/// Adds the texts of a list of listeners, one behind the other, to a file whose next bytes they are.
fn put_texts<S: Shelf>(shelf: &mut S, name: &str, list: &[Box<dyn Listener>]) -> Result<(), Failed>
    ensures put { (before : Option Files) (all rest : List ℕ) → IsStoring before (S.state shelf.old).files name.now all (texts (map (λ b. listener_state b) list.now) ++ rest) →
        OnOk result (IsStoring before (S.state shelf.new).files name.now all rest) }
    ensures failed { (before : Option Files) (all rest : List ℕ) → IsStoring before (S.state shelf.old).files name.now all (texts (map (λ b. listener_state b) list.now) ++ rest) →
        OnErr result (MayHoldFront before (S.state shelf.new).files name.now all) }
    ensures begun { BeginsAmong (S.state shelf.old).begun (S.state shelf.new).begun (name.now ∷ []) }
    ensures counts { NoneFell (S.state shelf.old) (S.state shelf.new) }
    ensures quiet { OnOk result (SameCounts (S.state shelf.old) (S.state shelf.new)) }
    ensures cause { OnErr result (Rose (S.state shelf.old).write_faults (S.state shelf.new).write_faults) }
{
    for listener in list {
        put_text(shelf, name, listener)?;
    }
    Ok(())
}

/// Makes the file hold the texts of those that have ended and then of those that are left, in pieces of at most 65,536 bytes. After
/// `Failed` it is as before, or holds a front of these texts. It takes no memory.
pub fn store_report<S: Shelf>(
    shelf: &mut S,
    name: &str,
    ended: &[Box<dyn Listener>],
    left: &[Box<dyn Listener>],
) -> Result<(), Failed>
    ensures stored { OnOk result ((S.state shelf.new).files ≡ option_map (λ files. put files name.now (texts (map (λ b. listener_state b) ended.now) ++ texts (map (λ b. listener_state b) left.now))) (S.state shelf.old).files) }
    ensures failed { OnErr result (MayHoldFront (S.state shelf.old).files (S.state shelf.new).files name.now (texts (map (λ b. listener_state b) ended.now) ++ texts (map (λ b. listener_state b) left.now))) }
    ensures begun { BeginsAmong (S.state shelf.old).begun (S.state shelf.new).begun (name.now ∷ []) }
    ensures counts { NoneFell (S.state shelf.old) (S.state shelf.new) }
    ensures quiet { OnOk result (SameCounts (S.state shelf.old) (S.state shelf.new)) }
    ensures cause { OnErr result (Rose (S.state shelf.old).write_faults (S.state shelf.new).write_faults) }
{
    shelf.create(name)?;
    put_texts(shelf, name, ended)?;
    put_texts(shelf, name, left)?;
    Ok(())
}
