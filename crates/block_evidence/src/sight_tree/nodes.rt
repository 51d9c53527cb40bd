//! The nodes of a walk, kept as a certificate spells them.

ghost use Rattle.std.specs.Prelude.{◌≡◌, ℕ, ◌*◌, ◌≤◌, [], ◌∷◌, ◌++◌, length, OnOk, OnErr, IfOk};
ghost use Rattle.std.specs.Iterator.{YieldsFirst, item_count};
ghost use Rattle.block_evidence.specs.declared.sight_tree.Node.TheVariants.{Blocked};
ghost use Rattle.block_evidence.specs.SightTree.Spelling.{FitsNode, IsPackable, SpellNodes, SpellSoMany, first_node, node_bytes};

use crate::Evidence;
use crate::sight_tree::Node;
use sight_names::Memory;
use std::alloc::Global;
use std::marker::Model;

/// So many bytes have the nodes of most trees.
const ROOM: usize = 32768;

/// The nodes of a walk, in order; a contract sees the list of them. A node takes a byte and two more for each end.
#[derive(Drop)]
pub struct Nodes {
    /// The nodes one behind the other, each as a certificate spells it.
    bytes: Vec<u8>,
    count: usize,
}

impl Model for Nodes {
    ghost use Rattle.std.specs.Prelude.{◌≡◌, List, length};
    ghost use Rattle.block_evidence.specs.declared.sight_tree.Node.{Node as WalkNode};

    ghost Value = { List WalkNode };

    ghost use Rattle.block_evidence.specs.SightTree.Spelling.{SpellNodes, nodes_in_bytes};

    ghost view = { λ s. nodes_in_bytes s.bytes.items };

    ghost invariant = { λ s. SpellNodes s.bytes.items (nodes_in_bytes s.bytes.items) × (s.count ≡ length (nodes_in_bytes s.bytes.items)) };
}

impl Nodes {
    /// No node.
    pub fn new(alloc: Global) -> Nodes
        ensures { result ≡ [] }
    {
        Nodes {
            bytes: Vec::new(alloc),
            count: 0,
        }
    }

    /// No node, and room for those of most trees: as bytes come one node after the other, they would be moved each time that
    /// there is none left.
    pub fn with_room(alloc: Global) -> Result<Nodes, Memory>
        ensures { IfOk result (λ ns. ns ≡ []) }
    {
        Ok(Nodes {
            bytes: Vec::with_capacity(alloc, ROOM)?,
            count: 0,
        })
    }

    /// The nodes that these bytes spell, of which there are so many.
    pub fn of_bytes(alloc: Global, bytes: &[u8], count: usize) -> Result<Nodes, Memory>
        requires { SpellSoMany bytes.now count }
        ensures { IfOk result (λ ns. SpellNodes bytes.now ns) }
    {
        Ok(Nodes {
            bytes: Vec::from_slice(alloc, bytes)?,
            count,
        })
    }

    /// The bytes that spell the nodes, one behind the other.
    pub fn as_bytes(&self) -> &[u8]
        ensures { SpellNodes result.now self.now }
    {
        self.bytes.as_slice()
    }

    /// How many there are.
    pub fn len(&self) -> usize
        ensures { result ≡ length self.now }
    {
        self.count
    }

    /// Adds a node behind the others.
    #[inline(always)]
    pub fn push(&mut self, node: Node) -> Result<(), Memory>
        requires { IsPackable node }
        ensures ok { OnOk result (self.new ≡ self.old ++ node ∷ []) }
        ensures err { OnErr result (self.new ≡ self.old) }
    {
        match node {
            Node::Open => self.push_open(),
            Node::Blocked(evidence) => self.push_blocked(evidence),
        }
    }

    /// Adds an open node behind the others.
    // in line with what it calls, as is the next one: a walk notes a node for each sequence that it comes to
    #[inline(always)]
    pub fn push_open(&mut self) -> Result<(), Memory>
        ensures ok { OnOk result (self.new ≡ self.old ++ Node.Open ∷ []) }
        ensures err { OnErr result (self.new ≡ self.old) }
    {
        self.bytes.push(0)?;
        self.count += 1;
        Ok(())
    }

    /// Adds a node that these ends block behind the others.
    #[inline(always)]
    pub fn push_blocked(&mut self, evidence: Evidence) -> Result<(), Memory>
        requires { IsPackable (Blocked evidence) }
        ensures ok { OnOk result (self.new ≡ self.old ++ Blocked evidence ∷ []) }
        ensures err { OnErr result (self.new ≡ self.old) }
    {
        put_ends(&mut self.bytes, evidence)?;
        self.count += 1;
        Ok(())
    }

    /// Gives back the memory that no node takes.
    pub fn shrink_to_fit(&mut self)
        ensures { self.new ≡ self.old }
    {
        self.bytes.shrink_to_fit();
    }

    /// The nodes in order.
    pub fn iter(&self) -> NodesIter<'_>
        ensures { result ≡ self.now }
    {
        NodesIter {
            bytes: self.bytes.as_slice(),
        }
    }
}

/// Adds the spelling of a node that these ends block.
#[inline(always)]
fn put_ends(bytes: &mut Vec<u8>, evidence: Evidence) -> Result<(), Memory>
    requires { evidence.count ≤ 4 }
    ensures ok { OnOk result (bytes.new.items ≡ bytes.old.items ++ node_bytes (Blocked evidence)) }
    ensures err { OnErr result (bytes.new.items ≡ bytes.old.items) }
    ensures fits { FitsNode (Blocked evidence) }
{
    // nearly all name four ends, and nine bytes are copied without a call
    if evidence.count == 4 {
        put_four(bytes, evidence)
    } else {
        put_few(bytes, evidence)
    }
}

/// The same of four ends.
#[inline(always)]
fn put_four(bytes: &mut Vec<u8>, evidence: Evidence) -> Result<(), Memory>
    requires { evidence.count ≡ 4 }
    ensures ok { OnOk result (bytes.new.items ≡ bytes.old.items ++ node_bytes (Blocked evidence)) }
    ensures err { OnErr result (bytes.new.items ≡ bytes.old.items) }
    ensures fits { FitsNode (Blocked evidence) }
{
    let [a, b, c, d] = evidence.ends;
    let [a, a_high] = a.to_le_bytes();
    let [b, b_high] = b.to_le_bytes();
    let [c, c_high] = c.to_le_bytes();
    let [d, d_high] = d.to_le_bytes();
    bytes.extend_from_slice(&[4, a, a_high, b, b_high, c, c_high, d, d_high])?;
    Ok(())
}

/// The same of fewer ends, which are rare.
#[inline(never)]
fn put_few(bytes: &mut Vec<u8>, evidence: Evidence) -> Result<(), Memory>
    requires { evidence.count ≤ 4 }
    ensures ok { OnOk result (bytes.new.items ≡ bytes.old.items ++ node_bytes (Blocked evidence)) }
    ensures err { OnErr result (bytes.new.items ≡ bytes.old.items) }
    ensures fits { FitsNode (Blocked evidence) }
{
    let [a, b, c, d] = evidence.ends;
    let [a, a_high] = a.to_le_bytes();
    let [b, b_high] = b.to_le_bytes();
    let [c, c_high] = c.to_le_bytes();
    let [d, d_high] = d.to_le_bytes();
    let spelled = [evidence.count, a, a_high, b, b_high, c, c_high, d, d_high];
    bytes.extend_from_slice(&spelled[..1 + 2 * evidence.count as usize])?;
    Ok(())
}

/// The nodes that are still to come; a contract sees the list of them.
#[derive(Drop)]
pub struct NodesIter<'a> {
    bytes: &'a [u8],
}

impl<'a> Model for NodesIter<'a> {
    ghost use Rattle.std.specs.Prelude.{List};
    ghost use Rattle.block_evidence.specs.declared.sight_tree.Node.{Node as WalkNode};

    ghost Value = { List WalkNode };

    ghost use Rattle.block_evidence.specs.SightTree.Spelling.{SpellNodes, nodes_in_bytes};

    ghost view = { λ s. nodes_in_bytes s.bytes.now };

    ghost invariant = { λ s. SpellNodes s.bytes.now (nodes_in_bytes s.bytes.now) };
}

impl<'a> Iterator for NodesIter<'a> {
    type Item = Node;

    ghost next_gives = { YieldsFirst (λ s. s) };

    ghost remaining = { item_count (λ s. s) };

    fn next(&mut self) -> Option<Node> {
        let (kind, rest) = self.bytes.split_first()?;
        let (ends, rest) = rest.split_at(2 * *kind as usize);
        self.bytes = rest;
        Some(node_of(ends))
    }
}

/// The node that names the ends that these bytes spell, an open one where there are none.
fn node_of(bytes: &[u8]) -> Node
    ensures { (k : ℕ) → k ≤ 4 → length bytes.now ≡ 2 * k → result ≡ first_node k bytes.now }
{
    match bytes {
        [a, a_high, b, b_high, c, c_high, d, d_high] => Node::Blocked(Evidence {
            count: 4,
            ends: [
                u16::from_le_bytes([*a, *a_high]),
                u16::from_le_bytes([*b, *b_high]),
                u16::from_le_bytes([*c, *c_high]),
                u16::from_le_bytes([*d, *d_high]),
            ],
        }),
        [a, a_high, b, b_high, c, c_high] => Node::Blocked(Evidence {
            count: 3,
            ends: [
                u16::from_le_bytes([*a, *a_high]),
                u16::from_le_bytes([*b, *b_high]),
                u16::from_le_bytes([*c, *c_high]),
                0,
            ],
        }),
        [a, a_high, b, b_high] => Node::Blocked(Evidence {
            count: 2,
            ends: [
                u16::from_le_bytes([*a, *a_high]),
                u16::from_le_bytes([*b, *b_high]),
                0,
                0,
            ],
        }),
        [a, a_high] => Node::Blocked(Evidence {
            count: 1,
            ends: [u16::from_le_bytes([*a, *a_high]), 0, 0, 0],
        }),
        _ => Node::Open,
    }
}
