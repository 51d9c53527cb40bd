//! Marks by number.

ghost use Rattle.std.specs.Prelude.{◌≡◌, ◌<◌, ◌^◌, ◌↔◌, ◌⊎◌, ℕ, Some, Contains, IfOk, IsTrue, length};
ghost use Rattle.pair_answer.specs.EnteredTriangles.Entered.{IsOfSource};
ghost use Rattle.pair_answer.specs.EnteredTriangles.Marks.{HasMarksOf, IsListOf, IsNumberMarked, IsMarkedToo, IsNamedBy};

use mesh_shape::Labels;
use sight_names::Memory;
use std::alloc::Global;

/// The numbers that are marked, in order.
pub fn numbers_of(alloc: Global, marks: &[bool]) -> Result<Vec<u16>, Memory>
    requires { length marks.now < 2 ^ 16 }
    ensures { IfOk result (λ v. IsListOf marks.now v.items) }
{
    let mut numbers = Vec::new(alloc);
    for k in 0..marks.len() {
        if marks[k] {
            numbers.push(k as u16)?;
        }
    }
    Ok(numbers)
}

/// Marks the number, too.
pub fn mark(marks: &mut [bool], k: u16)
    requires { k < length marks.old }
    ensures { IsMarkedToo k marks.old marks.new }
{
    marks[k as usize] = true;
}

/// So many marks, of which just these numbers are set.
fn marks_of(alloc: Global, count: u16, numbers: &[u16]) -> Result<Vec<bool>, Memory>
    requires { (k : ℕ) → Contains numbers.now k → k < count }
    ensures { IfOk result (λ v. HasMarksOf count numbers.now v.items) }
{
    let mut marks = vec![in alloc; false; count as usize]?;
    for i in 0..numbers.len() {
        mark(marks.as_mut_slice(), numbers[i]);
    }
    Ok(marks)
}

/// Whether the triangle has a label that is marked.
fn is_named(labels: &Labels, named: &[bool], triangle: u16) -> bool
    ensures { IsTrue result ↔ IsNamedBy labels.now named.now triangle }
{
    match labels.as_slice().get(triangle as usize) {
        Some(Some(sector)) => match named.get(*sector as usize) {
            Some(mark) => *mark,
            None => false,
        },
        _ => false,
    }
}

/// Marks the triangles of these sources, too.
pub fn mark_sources(
    alloc: Global,
    sectors: u16,
    labels: &Labels,
    sources: &[u16],
    marks: &mut [bool],
) -> Result<(), Memory>
    requires sources { (k : ℕ) → Contains sources.now k → k < sectors }
    requires few { length marks.old < 2 ^ 16 }
    ensures len { length marks.new ≡ length marks.old }
    ensures marks { IfOk result (λ _. (k : ℕ) → k < length marks.old → IsNumberMarked marks.new k ↔ (IsOfSource labels.now sources.now k ⊎ IsNumberMarked marks.old k)) }
{
    let named = marks_of(alloc, sectors, sources)?;
    for k in 0..marks.len() {
        if is_named(labels, named.as_slice(), k as u16) {
            mark(marks, k as u16);
        }
    }
    Ok(())
}
