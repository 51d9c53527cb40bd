//! The REJECT that a map has in its WAD, as a table.

ghost use Rattle.std.specs.Prelude.{◌≡◌, ◌≤◌, IfOk, length};
ghost use Rattle.whole_wad.specs.Rejects.{table_len};
ghost use Rattle.table_verdicts.specs.Own.{IsAtFront, IsOwnTable};

use reject_bits::Table;
use sight_names::{Memory, TableFault};
use std::alloc::Global;

/// The table that a REJECT holds.
#[derive(Drop)]
pub enum OwnTable {
    Whole(Table),
    /// It has fewer bytes than a table of so many sectors.
    Short { found: u64, expected: u64 },
}

/// The table at the front of bytes that are more than it has. The game reads no others.
fn front(alloc: Global, n: u16, reject: &[u8], len: usize) -> Result<Table, Memory>
    requires len { len ≡ table_len n }
    requires enough { len ≤ length reject.now }
    ensures { IfOk result (IsAtFront n reject.now) }
{
    match Table::of_bytes(alloc, n, &reject[..len]) {
        Ok(table) => Ok(table),
        Err(TableFault::WrongLength { .. }) => unreachable!(),
        Err(TableFault::Memory(ref memory)) => Err(*memory),
    }
}

/// The table of so many sectors that a REJECT holds.
pub fn own_table(alloc: Global, n: u16, reject: &[u8]) -> Result<OwnTable, Memory>
    ensures { IfOk result (IsOwnTable n reject.now) }
{
    match Table::of_bytes(alloc, n, reject) {
        Ok(table) => Ok(OwnTable::Whole(table)),
        Err(TableFault::WrongLength { found, expected }) => {
            if found < expected {
                return Ok(OwnTable::Short { found, expected });
            }
            let table = front(alloc, n, reject, expected as usize)?;
            Ok(OwnTable::Whole(table))
        }
        Err(TableFault::Memory(ref memory)) => Err(*memory),
    }
}
