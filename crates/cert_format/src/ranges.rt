//! What the types of a certificate's numbers say of them: that they fit their fields.

ghost use Rattle.std.specs.List.{AllByRecursion};
ghost use Rattle.cert_format.specs.Grammar.{FitsPairRay, FitsTree};

use block_evidence::sight_tree::Tree;
use sight_names::PairRay;

/// A contract knows the range of a number only where it is read, so each ray is looked at.
pub fn see_rays(rays: &[PairRay])
    ensures { AllByRecursion FitsPairRay rays.now }
{
    for ray in rays {
        let _numbers = (ray.ray.a, ray.ray.b, ray.ray.c);
    }
}

/// The same for the nodes of each tree.
pub fn see_trees(trees: &[Tree])
    ensures { AllByRecursion FitsTree trees.now }
{
    for tree in trees {
        let _count = tree.nodes.len();
        let _bytes = tree.nodes.as_bytes();
    }
}
