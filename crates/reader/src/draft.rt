// A rule that is being read: its nodes so far, and how many words were read. A word's node comes after those of its
// operands, so there are at least as many words as nodes.
ghost use Rattle.std.specs.Prelude.{◌≤◌, length};
ghost use Rattle.fixed_vec.specs.Elements.{elements};
ghost use Rattle.grammar.specs.Limits.{max_words};

use fixed_vec::FixedVec;
use grammar::{MAX_WORDS, Node};

#[derive(Drop)]
pub(crate) struct Draft {
    pub(crate) nodes: FixedVec<Node, MAX_WORDS>,
    pub(crate) words: usize,
    ghost room: { length (elements nodes) ≤ words },
    ghost few: { words ≤ max_words },
}
