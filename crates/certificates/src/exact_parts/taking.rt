//! The record that comes first: how many bytes it takes, and its part taken from them.

ghost use Rattle.std.specs.Prelude.{◌≡◌, ◌<◌, ◌++◌, OnErr};
ghost use Rattle.cert_format.specs.Reading.{GivesCert, GivesExactly};
ghost use Rattle.certificates.specs.CertParts.Steps.{first_width, node_width};
ghost use Rattle.certificates.specs.ExactParts.Steps.{first_at, is_done, length_step, node_step, room_for, width_at};

use crate::cert_parts::node_of;
use crate::exact_parts::awaited::Awaited;
use crate::exact_parts::part::Part;
use crate::exact_parts::trees::Trees;
use cert_format::fields::{place, u64_at};
use sight_names::CertFault;

/// How many bytes a node takes that begins with this byte; one where no node does.
fn node_width(first: u8) -> usize
    ensures { result ≡ node_width first }
{
    match first {
        0 => 1,
        2 => 5,
        3 => 7,
        4 => 9,
        _ => 1,
    }
}

/// How many bytes a node takes that begins with the first of these bytes; one where there is none.
fn first_width(kept: &[u8], piece: &[u8]) -> usize
    ensures { result ≡ first_width (kept.now ++ piece.now) }
{
    match kept {
        [first, ..] => node_width(*first),
        [] => match piece {
            [first, ..] => node_width(*first),
            [] => 1,
        },
    }
}

/// How many bytes a node takes of so many that are left of its tree; one where none is left.
fn room_for(width: usize, left: u64) -> usize
    ensures { result ≡ room_for width left }
{
    if left == 0 {
        1
    } else if (left as usize) < width {
        left as usize
    } else {
        width
    }
}

/// How many bytes the record takes whose first bytes were kept, and go on in this piece.
#[tactic(auto, unfolding(crate::specs::ExactParts::Steps::width_at))]
pub fn width_of(awaited: &Awaited, trees: &Trees, kept: &[u8], piece: &[u8]) -> usize
    ensures { result ≡ width_at awaited.now trees.now (kept.now ++ piece.now) }
{
    if awaited.triangles > 0 {
        8
    } else if awaited.rays > 0 {
        24
    } else if awaited.lengths > 0 {
        8
    } else {
        room_for(first_width(kept, piece), trees.first())
    }
}

/// Whether no record is still to come.
pub fn is_done(awaited: &Awaited, trees: &Trees) -> bool
    ensures { result ≡ is_done awaited.now trees.now }
{
    awaited.triangles == 0 && awaited.rays == 0 && awaited.lengths == 0 && trees.first() == 0
}

/// Takes the length that comes first.
#[tactic(auto, unfolding(crate::specs::ExactParts::Steps::length_step))]
fn take_length<'a>(
    awaited: &mut Awaited,
    trees: &mut Trees,
    total: usize,
    bytes: &'a [u8],
) -> Result<(Part, &'a [u8]), CertFault>
    requires { 0 < awaited.old.lengths }
    ensures read { GivesCert (λ x. ((x.0, (awaited.new, trees.new)), x.1.now)) result (length_step awaited.old trees.old total bytes.now) }
    ensures err { OnErr result ((awaited.new ≡ awaited.old) × (trees.new ≡ trees.old)) }
{
    let (length, rest) = u64_at(total, bytes)?;
    trees.push(length)?;
    trees.settle();
    awaited.lengths -= 1;
    Ok((Part::Length, rest))
}

/// Takes the node that comes first, where there are so many bytes up to the end of these.
#[tactic(auto, unfolding(crate::specs::ExactParts::Steps::node_step))]
fn take_node<'a>(
    trees: &mut Trees,
    total: usize,
    bytes: &'a [u8],
) -> Result<(Part, &'a [u8]), CertFault>
    ensures read { GivesExactly (λ x. ((x.0, trees.new), x.1.now)) result (node_step trees.old total bytes.now) }
    ensures err { OnErr result (trees.new ≡ trees.old) }
{
    let (node, rest) = node_of(total, bytes)?;
    let source = trees.source();
    trees.take(bytes.len().saturating_sub(rest.len()));
    trees.settle();
    Ok((Part::Node { source, node }, rest))
}

/// Takes the record that comes first, where there are so many bytes up to the end of these; of a node that is cut by the end of
/// its tree these are the bytes up to there. Its part, and the bytes behind it.
#[tactic(auto, unfolding(crate::specs::ExactParts::Steps::first_at))]
pub fn take<'a>(
    awaited: &mut Awaited,
    trees: &mut Trees,
    total: usize,
    bytes: &'a [u8],
) -> Result<(Part, &'a [u8]), CertFault>
    ensures read { GivesCert (λ x. ((x.0, (awaited.new, trees.new)), x.1.now)) result (first_at awaited.old trees.old total bytes.now) }
    ensures err { OnErr result ((awaited.new ≡ awaited.old) × (trees.new ≡ trees.old)) }
{
    if awaited.triangles > 0 {
        return awaited.take_triangle(total, bytes);
    }
    if awaited.rays > 0 {
        return awaited.take_ray(total, bytes);
    }
    if awaited.lengths > 0 {
        return take_length(awaited, trees, total, bytes);
    }
    if trees.first() > 0 {
        return take_node(trees, total, bytes);
    }
    Err(CertFault::Trailing {
        at: place(total, bytes),
    })
}
