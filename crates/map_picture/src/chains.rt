//! The triangles of each group as chains, so that a picture goes over each triangle once.

ghost use Rattle.std.specs.Prelude.{◌≡◌, ◌<◌, ◌+◌, ◌^◌, IfOk, length};
ghost use Rattle.map_picture.specs.Chains.{AreChains, AreChainsFrom};

use sight_names::Memory;
use std::alloc::Global;

/// Of each group its first triangle, and from each triangle the next one of its group; the number of triangles where there is none.
#[derive(Drop)]
pub struct Chains {
    pub first: Vec<u16>,
    pub next: Vec<u16>,
}

/// Enters the triangle at this place, where those behind it are entered. One whose label is no group's number is left out.
fn enter(labels: &[Option<u16>], k: usize, first: &mut [u16], next: &mut [u16])
    requires place { k < length labels.now }
    requires few { length labels.now < 2 ^ 16 }
    requires each_triangle { length next.old ≡ length labels.now }
    requires later { AreChainsFrom labels.now (k + 1) first.old next.old }
    ensures { AreChainsFrom labels.now k first.new next.new }
{
    if let Some(group) = labels[k] {
        let at = group as usize;
        if at < first.len() {
            next[k] = first[at];
            first[at] = k as u16;
        }
    }
}

/// Enters the triangles from the last one back.
fn link(labels: &[Option<u16>], first: &mut [u16], next: &mut [u16])
    requires few { length labels.now < 2 ^ 16 }
    requires each_triangle { length next.old ≡ length labels.now }
    requires none { AreChainsFrom labels.now (length labels.now) first.old next.old }
    ensures { AreChainsFrom labels.now 0 first.new next.new }
{
    let mut k = labels.len();
    while k > 0 {
        k -= 1;
        enter(labels, k, first, next);
    }
}

/// The chains of so many groups.
pub fn chains_of(alloc: Global, labels: &[Option<u16>], groups: usize) -> Result<Chains, Memory>
    requires { length labels.now < 2 ^ 16 }
    ensures { IfOk result (AreChains labels.now groups) }
{
    let end = labels.len() as u16;
    let mut first = vec![in alloc; end; groups]?;
    let mut next = vec![in alloc; end; labels.len()]?;
    link(labels, first.as_mut_slice(), next.as_mut_slice());
    Ok(Chains { first, next })
}
