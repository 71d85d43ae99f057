// The text of a rule that is being written: the rule's nodes, and the line so far. The functions for a rule and for an operand
// call each other. Nodes are named by their places in the rule, which lies in fixed memory with no heap.
ghost use Rattle.std.specs.Prelude.{◌<◌, length};
ghost use Rattle.writer.specs.Tops.{Ordered, ordered_prop};

use crate::MAX_RULE_TEXT;
use grammar::Node;
use text::{Decimal, Line};
use words::{Operands, Word};

#[derive(Drop)]
pub(crate) struct RuleText<'a> {
    pub(crate) nodes: &'a [Node],
    pub(crate) line: Line<MAX_RULE_TEXT>,
    ghost ordered: { Ordered 0 nodes.now } by { ordered_prop nodes.now 0 },
}

impl<'a> RuleText<'a> {
    ghost use Rattle.words.specs.Words.{spell};
    ghost use Rattle.grammar.specs.Layout.{layout, as_operand};
    ghost use Rattle.writer.specs.Puts.{Puts, PutsTree};

    // Puts the text of the rule with the node `top` at its top behind the line's text.
    #[cycle(rule_unit)]
    pub(crate) fn rule(&mut self, top: usize)
        requires within { top < length self.old.nodes.now }
        ensures text { PutsTree self.old self.new top layout }
    {
        let node = self.nodes[top];
        match words::operands_of(node.word.operator) {
            Operands::Zero => self.word(node.word),
            Operands::One => {
                self.word(node.word);
                self.line.append(b" ");
                self.unit(top - 1);
            }
            Operands::Two => {
                let left = usize::from(node.left);
                let right = top - 1;
                self.unit(left);
                self.line.append(b" "); // behind the left operand
                self.word(node.word);
                self.line.append(b" ");
                self.unit(right);
            }
        }
    }

    // Puts the text of an operand: in parentheses where a two-sided word is at its top.
    #[cycle(rule_unit)]
    fn unit(&mut self, top: usize)
        requires within { top < length self.old.nodes.now }
        ensures text { PutsTree self.old self.new top (λ t. as_operand t (layout t)) }
    {
        match words::operands_of(self.nodes[top].word.operator) {
            Operands::Two => {
                self.line.append(b"(");
                self.rule(top);
                self.line.append(b")");
            }
            _ => self.rule(top),
        }
    }

    // Puts a word: its bytes and, where a number follows them, the number's digits.
    fn word(&mut self, word: Word)
        ensures text { Puts self.old self.new (spell word) }
    {
        self.line.append(words::text_of(word.operator));
        if words::is_numbered(word.operator) {
            self.line
                .append(Decimal::new(u64::from(word.number)).bytes());
        }
    }
}
