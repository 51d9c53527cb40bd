//! Where walks leave their sources.

ghost use Rattle.std.specs.Prelude.{◌≡◌, ◌<◌, ℕ, [], Some, slice_get, slice_index_or, length, map, reverse, IfOk};
ghost use Rattle.sight_names.specs.Plan.{IsPlan};
ghost use Rattle.portal_walk.specs.Roots.{with_root, roots_in, AreSideRoots, PutsRoots};

use sight_names::{Line, Memory, Plan, Side};
use std::alloc::Global;
use std::marker::Model;

/// A side that names the source, of a passable line whose other side doesn't, and the line's portal, walked out of the
/// source.
#[derive(Clone, Copy)]
pub struct Root {
    pub side: Side,
    pub left: u16,
    pub right: u16,
}

/// The roots of all sectors, each as a source; a contract sees the list of those of each sector, in order.
#[derive(Drop)]
pub struct Roots {
    of_sectors: Vec<Vec<Root>>,
}

impl Model for Roots {
    ghost use Rattle.std.specs.Prelude.{List, map};
    ghost use Rattle.portal_walk.specs.declared.roots.Root.{Root};

    ghost Value = { List (List Root) };

    ghost view = { λ r. map (λ v. v.items) r.of_sectors.items };
}

/// Puts a root behind the others of the sector that a side names.
fn put(of_sectors: &mut [Vec<Root>], sector: Option<u16>, root: Root) -> Result<(), Memory>
    ensures { IfOk result (λ _. map (λ v. v.items) of_sectors.new ≡ with_root sector root (map (λ v. v.items) of_sectors.old)) }
{
    let Some(sector) = sector else {
        return Ok(());
    };
    if (sector as usize) >= of_sectors.len() {
        return Ok(());
    }
    of_sectors[sector as usize].push(root)?;
    Ok(())
}

/// Puts the roots at a line behind the others: a passable one between two sectors is a root of both.
fn put_line(
    of_sectors: &mut [Vec<Root>],
    plan: &Plan,
    entry: Option<Line>,
    number: u16,
) -> Result<(), Memory>
    requires rules { IsPlan plan.now }
    requires entry { slice_get plan.now.lines number ≡ Some entry }
    ensures { IfOk result (λ _. PutsRoots plan.now number (map (λ v. v.items) of_sectors.old) (map (λ v. v.items) of_sectors.new)) }
{
    let Some(line) = entry else {
        return Ok(());
    };
    if line.solid || line.left == line.right {
        return Ok(());
    }
    // who leaves by the right side is in the triangle at the left side, with the directed edge from first to second
    let by_right = Root {
        side: Side {
            line: number,
            left: false,
        },
        left: line.a,
        right: line.b,
    };
    let by_left = Root {
        side: Side {
            line: number,
            left: true,
        },
        left: line.b,
        right: line.a,
    };
    put(of_sectors, line.right, by_right)?;
    put(of_sectors, line.left, by_left)?;
    Ok(())
}

/// So many empty lists.
fn no_roots(alloc: Global, count: u16) -> Result<Vec<Vec<Root>>, Memory>
    ensures len { IfOk result (λ v. length v.items ≡ count) }
    ensures empty { IfOk result (λ v. (a : ℕ) → roots_in (map (λ w. w.items) v.items) a ≡ []) }
{
    let mut of_sectors = Vec::new(alloc);
    for _ in 0..count {
        of_sectors.push(Vec::new(alloc))?;
    }
    Ok(of_sectors)
}

impl Roots {
    /// The roots of all sectors of a plan.
    pub fn of(alloc: Global, plan: &Plan) -> Result<Roots, Memory>
        ensures { IfOk result (AreSideRoots plan.now) }
    {
        let lines = plan.lines();
        let mut of_sectors = no_roots(alloc, plan.sectors)?;
        for k in 0..lines.len() {
            put_line(of_sectors.as_mut_slice(), plan, lines[k], k as u16)?;
        }
        Ok(Roots { of_sectors })
    }

    /// The roots of a sector, the last one first.
    pub fn of_source(&self, alloc: Global, source: u16) -> Result<Vec<Root>, Memory>
        requires { source < length self.now }
        ensures { IfOk result (λ found. found.items ≡ reverse (roots_in self.now source)) }
    {
        let mut roots = Vec::from_slice(alloc, self.of_sectors[source as usize].as_slice())?;
        roots.as_mut_slice().reverse();
        Ok(roots)
    }
}
