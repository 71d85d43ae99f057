// Reads a rule text into a rule.
#![tactic(auto)]

ghost use Rattle.std.specs.Prelude.{◌≡◌, ◌+◌, ◌<◌, [], ◌∷◌, ◌++◌, length, MatchResult};
ghost use Rattle.fixed_vec.specs.Elements.{elements};
ghost use Rattle.grammar.specs.Limits.{max_words};
ghost use Rattle.grammar.specs.Nodes.{node};
ghost use Rattle.grammar.specs.declared.TextFault.TheVariants.{TooManyWords as too_many_words};
ghost use Rattle.grammar.specs.Grammar.{Tree};
ghost use Rattle.grammar.specs.Refusals.{Accepts};
ghost use Rattle.reader.specs.Rules.{nodes_in};
ghost use Rattle.reader.specs.Promise.{Reading, SomeTextAccepted, SomeTextNotTrue};

mod draft;
mod parser;
mod rule;

use draft::Draft;
use fixed_vec::FixedVec;
use grammar::{MAX_DEPTH, MAX_WORDS, Node, TextFault};
use lexer::Lexer;
use parser::{Parser, nothing_behind};
pub use rule::Rule;
use words::{Operator, Word};

impl Rule {
    // The rule's nodes: the left operand of a node before its right one, both before the node.
    pub fn nodes(&self) -> &[Node]
        ensures value { result.now ≡ nodes_in self.now }
    {
        self.nodes.as_slice()
    }
}

impl Draft {
    // Nothing read yet.
    pub(crate) fn new() -> Draft
        ensures value { (elements result.nodes ≡ []) × (result.words ≡ 0) }
    {
        // A node of zeros alone: a free place holds no word, and zeros are written fastest.
        let blank = Node {
            word: Word {
                operator: Operator::And,
                number: 0,
            },
            left: 0,
        };
        Draft {
            nodes: FixedVec::new(blank),
            words: 0,
        }
    }

    // One word more, at `place`.
    pub(crate) fn count(&mut self, place: usize) -> Result<(), TextFault>
        ensures counted { MatchResult result (λ _. self.new.words ≡ self.old.words + 1) (λ f. (f ≡ too_many_words place) × (self.old.words ≡ max_words)) }
        ensures same { self.new.nodes ≡ self.old.nodes }
    {
        if self.words >= MAX_WORDS {
            return Err(TextFault::TooManyWords(place));
        }
        self.words += 1;
        Ok(())
    }

    // The node of a word whose operands stand already.
    pub(crate) fn push(&mut self, word: Word, left: u8)
        requires { length (elements self.old.nodes) < self.old.words }
        ensures pushed { elements self.new.nodes ≡ elements self.old.nodes ++ node word left ∷ [] }
        ensures words { self.new.words ≡ self.old.words }
    {
        self.nodes.push(Node { word, left }).unwrap();
    }
}

// Reads a rule text: the rule, or why and where the text is refused.
pub fn read(text: &[u8]) -> Result<Rule, TextFault>
    ensures reading { Reading text.now result }
    ensures one_reading { (t u : Tree) → Accepts text.now t → Accepts text.now u → t ≡ u }
{
    let mut parser = Parser {
        lexer: Lexer::new(text)?,
        draft: Draft::new(),
    };
    nothing_behind(parser.rule(MAX_DEPTH)?)?;
    Ok(Rule {
        nodes: parser.draft.nodes,
    })
}

// What the promise of `read` shuts out: a reader that refuses every text, and one that makes `true` of each.
pub fn reading_stands()
    ensures not_all_refused { SomeTextAccepted }
    ensures not_all_true { SomeTextNotTrue }
{}
