//! What the types of a tree's nodes say of them: that they fit their fields, and how many bytes there are at most.

ghost use Rattle.std.specs.Prelude.{◌<◌, ◌^◌, List, length};
ghost use Rattle.std.specs.List.{AllByRecursion};
ghost use Rattle.block_evidence.specs.declared.sight_tree.Node.{Node};
ghost use Rattle.block_evidence.specs.SightTree.Spelling.{FitsNode};
ghost use Rattle.certificates.specs.CertExact.Grammar.{nodes_bytes};

use block_evidence::sight_tree::Nodes;

/// A contract knows the range of a number only where it is read, so each tree is looked at.
pub fn see_trees(trees: &[Nodes])
    ensures lengths { AllByRecursion (λ (ns : List Node). length (nodes_bytes ns) < 2 ^ 64) trees.now }
    ensures fit { AllByRecursion (λ (ns : List Node). AllByRecursion FitsNode ns) trees.now }
{
    for tree in trees {
        let _length = tree.as_bytes().len();
    }
}
