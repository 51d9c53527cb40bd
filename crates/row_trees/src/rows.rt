//! The rows of a walk, out of which what was found is taken.

ghost use Rattle.std.specs.Prelude.{◌≡◌, ◌+◌, ◌≤◌, ◌∷◌, ℕ, List, length, true, false, IsSome};
ghost use Rattle.gate_floods.specs.RowJudge.Asked.{Pending};
ghost use Rattle.gate_floods.specs.RowJudge.Judged.{StandsAt};
ghost use Rattle.gate_floods.specs.RowJudge.Masks.{rows_of};
ghost use Rattle.gate_floods.specs.RowJudge.Words.{is_in, row_in_words};
ghost use Rattle.row_trees.specs.Thinner.{AreThinned, AreThinner, IsPresent, IsRowWithin, SameButRows};

use cert_checker::tree_judge::Terrain;
use gate_floods::row_judge::words::part;
use gate_floods::row_judge::{Masks, RowWalk, leaves, next_asked};

/// Takes the sector out of the first row.
fn drop_first(rows: &mut [u64], sector: u16)
    ensures thinner { AreThinner rows.old rows.new }
    ensures gone { is_in rows.new sector ≡ false }
{
    let place = sector as usize / 64;
    if place < rows.len() {
        rows[place] &= !(1 << (sector % 64));
    }
}

/// Leaves in the row at this place what the first one has too.
fn meet_first(rows: &mut [u64], at: usize, width: usize)
    requires room { at + width ≤ length rows.old }
    ensures thinner { AreThinner rows.old rows.new }
    ensures present { IsRowWithin (row_in_words rows.new width at) (row_in_words rows.new width 0) }
{
    'words: for place in 0..width {
        rows[at + place] &= rows[place];
    }
}

/// Takes the sector out of the first row, and leaves in the present one what the first has.
pub fn forget(walk: &mut RowWalk, width: usize, sector: u16)
    requires room { walk.old.follow.row + width ≤ length walk.old.rows.items }
    ensures same { SameButRows walk.old walk.new }
    ensures thinner { AreThinner walk.old.rows.items walk.new.rows.items }
    ensures gone { is_in (row_in_words walk.new.rows.items width 0) sector ≡ false }
    ensures present { IsPresent width walk.new }
{
    let row = walk.follow.row;
    drop_first(walk.rows.as_mut_slice(), sector);
    meet_first(walk.rows.as_mut_slice(), row, width);
}

/// Goes on to the next way or root without an answer to what is asked.
#[inline(always)]
pub fn skip(walk: &mut RowWalk, terrain: &Terrain<'_>, masks: &Masks<'_>)
    ensures stands { (first : List ℕ) (p : Pending) (rest : List Pending) → StandsAt (rows_of masks.now) first terrain.now.roots.now.roots.items walk.old (p ∷ rest) → StandsAt (rows_of masks.now) first terrain.now.roots.now.roots.items walk.new rest }
    ensures source { walk.new.source ≡ walk.old.source }
{
    walk.follow.asked = next_asked(
        terrain.roots,
        masks,
        walk.rows.as_slice(),
        &mut walk.waits,
        &mut walk.follow,
    );
}

/// Leaves in the present row what the first one has too.
fn meet_present(walk: &mut RowWalk, width: usize)
    requires room { walk.old.follow.row + width ≤ length walk.old.rows.items }
    ensures same { SameButRows walk.old walk.new }
    ensures thinner { AreThinner walk.old.rows.items walk.new.rows.items }
    ensures present { IsPresent width walk.new }
{
    let row = walk.follow.row;
    meet_first(walk.rows.as_mut_slice(), row, width);
}

/// Whether something is asked, behind which nothing is left of the present row.
fn is_unwanted(walk: &RowWalk, masks: &Masks<'_>) -> bool
    ensures { result ≡ true → IsSome walk.now.follow.asked }
{
    match walk.follow.asked {
        Some(number) => {
            let row = part(walk.rows.as_slice(), walk.follow.row, masks.width);
            !leaves(masks, row, number)
        }
        None => false,
    }
}

/// Goes on while nothing that is still wanted is left behind what is asked.
pub fn skip_unwanted(walk: &mut RowWalk, terrain: &Terrain<'_>, masks: &Masks<'_>)
    requires stands { (first : List ℕ) × (ps : List Pending) × StandsAt (rows_of masks.now) first terrain.now.roots.now.roots.items walk.old ps }
    ensures stands { (first : List ℕ) (ps : List Pending) → StandsAt (rows_of masks.now) first terrain.now.roots.now.roots.items walk.old ps → (later : List ℕ) × (qs : List Pending) × StandsAt (rows_of masks.now) later terrain.now.roots.now.roots.items walk.new qs × AreThinned ps qs × IsRowWithin later first }
    ensures present { IsPresent masks.now.width walk.new }
    ensures source { walk.new.source ≡ walk.old.source }
{
    meet_present(walk, masks.width);
    'skip: while is_unwanted(walk, masks) {
        skip(walk, terrain, masks);
        meet_present(walk, masks.width);
    }
}
