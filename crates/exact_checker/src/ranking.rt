//! The ranks of groups: how many are joined with each.

ghost use Rattle.std.specs.Prelude.{◌≡◌, ◌*◌, List, IfOk, length, min};
ghost use Rattle.sight_names.specs.declared.names.PairRay.{PairRay as RayOf};
ghost use Rattle.gate_floods.specs.Bits.{bits_from, count_bits};
ghost use Rattle.gate_floods.specs.RowJudge.Words.{is_in};
ghost use Rattle.exact_checker.specs.Rows.{AreJoinedRows};
ghost use Rattle.exact_checker.specs.Owning.{AreRanks};

use gate_floods::gate_masks::Row;
use sight_names::Memory;
use std::alloc::Global;

/// How many numbers are in the set, or 65,535 where there are more.
fn count_set(words: &[u64]) -> u16
    ensures { result ≡ min (count_bits (bits_from (is_in words.now) 0 (64 * length words.now))) 65535 }
{
    let mut found: u32 = 0;
    for word in words {
        found = found.saturating_add(word.count_ones());
    }
    found.min(65535) as u16
}

/// The rank of each of so many groups, by the rows of what is joined with them.
// a row has none but these groups, so all of its numbers count
pub fn ranks_of(alloc: Global, count: u16, joined: &[Row]) -> Result<Vec<u16>, Memory>
    ensures len { IfOk result (λ v. length v.items ≡ length joined.now) }
    ensures ranks { (rays : List RayOf) → AreJoinedRows count rays joined.now → IfOk result (λ v. AreRanks count rays v.items) }
{
    let _ = count;
    let mut ranks = Vec::new(alloc);
    for row in joined {
        ranks.push(count_set(row.words.as_slice()))?;
    }
    Ok(ranks)
}
