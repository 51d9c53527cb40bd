//! The records that a whole certificate has no reader for: a node as a value, and the head of a tree. Both take no
//! memory.

ghost use Rattle.std.specs.Prelude.{◌≡◌, ◌<◌, ℕ, length, Ok, IfOk, IfSome, ⊤};
ghost use Rattle.block_evidence.specs.SightTree.Spelling.{IsPackable};
ghost use Rattle.cert_format.specs.Reading.{GivesExactly, two_ends_at, three_ends_at, four_ends_at, node_at};
ghost use Rattle.certificates.specs.CertParts.Nodes.{TakesNodes};
ghost use Rattle.certificates.specs.CertParts.Steps.{head_at, node_width};

use block_evidence::Evidence;
use block_evidence::sight_tree::Node;
use cert_format::Sizes;
use cert_format::fields::{end_of, place, u16_below, u64_at};
use sight_names::CertFault;

#[tactic(auto, unfolding(cert_format::specs::Reading::two_ends_at))]
fn two_ends(total: usize, bytes: &[u8]) -> Result<(Node, &[u8]), CertFault>
    ensures read { GivesExactly (λ x. (x.0, x.1.now)) result (two_ends_at total bytes.now) }
    ensures packable { IfOk result (λ x. IsPackable x.0) }
{
    let (a, rest) = end_of(total, None, bytes)?;
    let (b, rest) = end_of(total, Some(a), rest)?;
    let ends = [a, b, 0, 0];
    Ok((Node::Blocked(Evidence { count: 2, ends }), rest))
}

#[tactic(auto, unfolding(cert_format::specs::Reading::three_ends_at))]
fn three_ends(total: usize, bytes: &[u8]) -> Result<(Node, &[u8]), CertFault>
    ensures read { GivesExactly (λ x. (x.0, x.1.now)) result (three_ends_at total bytes.now) }
    ensures packable { IfOk result (λ x. IsPackable x.0) }
{
    let (a, rest) = end_of(total, None, bytes)?;
    let (b, rest) = end_of(total, Some(a), rest)?;
    let (c, rest) = end_of(total, Some(b), rest)?;
    let ends = [a, b, c, 0];
    Ok((Node::Blocked(Evidence { count: 3, ends }), rest))
}

#[tactic(auto, unfolding(cert_format::specs::Reading::four_ends_at))]
fn four_ends(total: usize, bytes: &[u8]) -> Result<(Node, &[u8]), CertFault>
    ensures read { GivesExactly (λ x. (x.0, x.1.now)) result (four_ends_at total bytes.now) }
    ensures packable { IfOk result (λ x. IsPackable x.0) }
{
    let (a, rest) = end_of(total, None, bytes)?;
    let (b, rest) = end_of(total, Some(a), rest)?;
    let (c, rest) = end_of(total, Some(b), rest)?;
    let (d, rest) = end_of(total, Some(c), rest)?;
    let ends = [a, b, c, d];
    Ok((Node::Blocked(Evidence { count: 4, ends }), rest))
}

/// The node that comes first.
#[tactic(auto, unfolding(cert_format::specs::Reading::node_at))]
pub fn node_of(total: usize, bytes: &[u8]) -> Result<(Node, &[u8]), CertFault>
    ensures read { GivesExactly (λ x. (x.0, x.1.now)) result (node_at total bytes.now) }
    // Nothing of it is lost where it is kept as its spelling.
    ensures packable { IfOk result (λ x. IsPackable x.0) }
{
    match bytes {
        [] => Err(CertFault::Short {
            at: place(total, bytes),
        }),
        [0, rest @ ..] => Ok((Node::Open, rest)),
        [2, rest @ ..] => two_ends(total, rest),
        [3, rest @ ..] => three_ends(total, rest),
        [4, rest @ ..] => four_ends(total, rest),
        [_, ..] => Err(CertFault::OutOfRange {
            at: place(total, bytes),
        }),
    }
}

/// The node that names the four ends that come first, and the bytes behind it; else None.
#[inline(always)]
fn usual_ends(bytes: &[u8]) -> Option<(Node, &[u8])>
    ensures read { IfSome result (λ x. (total : ℕ) → four_ends_at total bytes.now ≡ Ok (x.0, x.1.now)) }
    ensures less { IfSome result (λ x. length x.1.now < length bytes.now) }
{
    let [a, a_high, b, b_high, c, c_high, d, d_high, rest @ ..] = bytes else {
        return None;
    };
    let a = u16::from_le_bytes([*a, *a_high]);
    let b = u16::from_le_bytes([*b, *b_high]);
    let c = u16::from_le_bytes([*c, *c_high]);
    let d = u16::from_le_bytes([*d, *d_high]);
    if a < b && b < c && c < d {
        let ends = [a, b, c, d];
        return Some((Node::Blocked(Evidence { count: 4, ends }), rest));
    }
    None
}

/// The node that comes first and the bytes behind it, where the bytes have all of it and it is open or names four ends, as
/// nearly all nodes do. None says nothing.
// in line with what it calls: a certificate has millions of nodes
#[inline(always)]
#[tactic(auto, unfolding(cert_format::specs::Reading::node_at))]
pub fn usual_node(bytes: &[u8]) -> Option<(Node, &[u8])>
    ensures read { IfSome result (λ x. (total : ℕ) → node_at total bytes.now ≡ Ok (x.0, x.1.now)) }
    ensures less { IfSome result (λ x. length x.1.now < length bytes.now) }
{
    match bytes {
        [0, rest @ ..] => Some((Node::Open, rest)),
        [4, rest @ ..] => usual_ends(rest),
        _ => None,
    }
}

/// Passes over the usual nodes that come first, of so many that are to come: what of the bytes is behind them, and how many
/// are left.
pub fn pass_nodes(bytes: &[u8], count: u64) -> (&[u8], u64)
    ensures { TakesNodes bytes.now count result.0.now result.1 (λ _. ⊤) }
{
    let mut rest = bytes;
    let mut left = count;
    'rest: while left > 0 {
        let Some((_, behind)) = usual_node(rest) else {
            break;
        };
        rest = behind;
        left -= 1;
    }
    (rest, left)
}

/// How many bytes a node takes that begins with this byte; one where no node does.
pub fn node_width(first: u8) -> usize
    ensures { result ≡ node_width first }
{
    match first {
        0 => 1,
        2 => 5,
        3 => 7,
        4 => 9,
        _ => 1,
    }
}

/// The source of the tree that comes first, above the last one, and how many nodes it has.
#[tactic(auto, unfolding(crate::specs::CertParts::Steps::head_at))]
pub fn head_of(
    sizes: Sizes,
    total: usize,
    last: Option<u16>,
    bytes: &[u8],
) -> Result<((u16, u64), &[u8]), CertFault>
    ensures { GivesExactly (λ x. (x.0, x.1.now)) result (head_at sizes total last bytes.now) }
{
    let (source, rest) = u16_below(sizes.sectors, total, bytes)?;
    let behind = match last {
        None => true,
        Some(other) => other < source,
    };
    if !behind {
        return Err(CertFault::NotSorted {
            at: place(total, bytes),
        });
    }
    let (count, rest) = u64_at(total, rest)?;
    Ok(((source, count), rest))
}
