// A rule that was read.
ghost use Rattle.std.specs.Prelude.{◌≡◌, ℕ, List};
ghost use Rattle.fixed_vec.specs.Elements.{elements};
ghost use Rattle.grammar.specs.Grammar.{Tree};
ghost use Rattle.grammar.specs.Nodes.{nodes as nodes_of};
ghost use Rattle.grammar.specs.Refusals.{Accepts};

use fixed_vec::FixedVec;
use grammar::{MAX_WORDS, Node};

// A rule. Its nodes are those of some text that is accepted.
#[derive(Clone, Copy)]
pub struct Rule {
    pub(crate) nodes: FixedVec<Node, MAX_WORDS>,
    ghost accepted: { ∥ ((text : List ℕ) × (t : Tree) × Accepts text t × (elements nodes ≡ nodes_of 0 t)) ∥₁ },
}
