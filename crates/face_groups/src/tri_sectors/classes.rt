//! Numbers sorted into classes, each named by its least member. They stand in trees, and two trees are put together at their
//! roots, so that no step goes over all numbers.

ghost use Rattle.std.specs.Prelude.{◌≡◌, ◌<◌, IfOk, length};
ghost use Rattle.face_groups.specs.TriSectors.Classes.{class_of, AreMerged, AreRenamed, AreSingles};
ghost use Rattle.face_groups.specs.TriSectors.Forest.{classes_in, IsForest};

use sight_names::Memory;
use std::alloc::Global;

/// Each of so many numbers alone.
pub fn singles(alloc: Global, count: u16) -> Result<Vec<u16>, Memory>
    ensures singles { IfOk result (λ v. AreSingles count v.items) }
{
    let mut parents = Vec::new(alloc);
    for k in 0..count {
        parents.push(k)?;
    }
    Ok(parents)
}

/// Puts the classes of `a` and `b` together.
pub fn merge(parents: &mut [u16], a: u16, b: u16)
    requires first { a < length parents.old }
    requires second { b < length parents.old }
    requires forest { IsForest parents.old }
    ensures len { length parents.new ≡ length parents.old }
    ensures forest { IsForest parents.new }
    ensures merged { AreMerged a b (classes_in parents.old) (classes_in parents.new) }
{
    let x = class_name(parents, a);
    let y = class_name(parents, b);
    if x < y {
        hang(parents, y, x);
    } else if y < x {
        hang(parents, x, y);
    }
}

/// The name of the number's class. Each number passed on the way up is put below its parent's parent, which makes later
/// ways short.
fn class_name(parents: &mut [u16], k: u16) -> u16
    requires at { k < length parents.old }
    requires forest { IsForest parents.old }
    ensures len { length parents.new ≡ length parents.old }
    ensures forest { IsForest parents.new }
    ensures classes { classes_in parents.new ≡ classes_in parents.old }
    ensures name { result ≡ class_of (classes_in parents.old) k }
{
    let mut at = k;
    while parents[at as usize] != at {
        let above = parents[parents[at as usize] as usize];
        parents[at as usize] = above;
        at = above;
    }
    at
}

/// Puts the tree of the one root below the other, which is less.
fn hang(parents: &mut [u16], from: u16, to: u16)
    requires less { to < from }
    requires forest { IsForest parents.old }
    requires from { (from < length parents.old) × (class_of (classes_in parents.old) from ≡ from) }
    requires to { class_of (classes_in parents.old) to ≡ to }
    ensures len { length parents.new ≡ length parents.old }
    ensures forest { IsForest parents.new }
    ensures classes { AreRenamed from to (classes_in parents.old) (classes_in parents.new) }
{
    parents[from as usize] = to;
}

/// Puts the name of its class for each number's parent. A parent is less, and so has its name by then.
pub fn name_all(parents: &mut [u16])
    requires { IsForest parents.old }
    ensures { parents.new ≡ classes_in parents.old }
{
    for k in 0..parents.len() {
        parents[k] = parents[parents[k] as usize];
    }
}
