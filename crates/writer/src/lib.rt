// Writes a rule out.
#![tactic(auto)]

mod rule_text;

ghost use Rattle.std.specs.Prelude.{◌≡◌, ◌≤◌, length};
ghost use Rattle.grammar.specs.Grammar.{Tree};
ghost use Rattle.grammar.specs.Layout.{layout};
ghost use Rattle.grammar.specs.Refusals.{Accepts};
ghost use Rattle.text.specs.Writing.{Written};
ghost use Rattle.reader.specs.Rules.{TreeOf};
ghost use Rattle.writer.specs.Limits.{max_rule_text};

use reader::Rule;
use rule_text::RuleText;
use text::{Line, WriteFault};

// The longest text of a rule, in bytes: `ralways` over 31 times `implies`, with 32 leaves of six letters or digits.
pub const MAX_RULE_TEXT: usize = 541;

// The rule's text: that of its one tree. Reading it gives this tree again. A rule's tree is named in clauses alone, since a type of the
// code cannot hold it.
pub fn text_of(rule: &Rule) -> Line<MAX_RULE_TEXT>
    ensures some_tree { ∥ ((t : Tree) × TreeOf rule.now t) ∥₁ }
    ensures one_tree { (t u : Tree) → TreeOf rule.now t → TreeOf rule.now u → t ≡ u }
    ensures text { (t : Tree) → TreeOf rule.now t → result ≡ layout t }
    ensures short { (t : Tree) → TreeOf rule.now t → length (layout t) ≤ max_rule_text }
    ensures reads_back { (t : Tree) → TreeOf rule.now t → Accepts (layout t) t }
{
    let nodes = rule.nodes();
    let mut text = RuleText {
        nodes,
        line: Line::new(),
    };
    text.rule(nodes.len() - 1);
    text.line
}

// Writes the rule's text at the front of the memory and answers its length, or refuses and writes nothing: no `Display`, for the reason
// that stands at `Line`.
pub fn write(rule: &Rule, out: &mut [u8]) -> Result<usize, WriteFault>
    ensures some_tree { ∥ ((t : Tree) × TreeOf rule.now t) ∥₁ }
    ensures one_tree { (t u : Tree) → TreeOf rule.now t → TreeOf rule.now u → t ≡ u }
    ensures written { (t : Tree) → TreeOf rule.now t → Written out.old out.new (layout t) result }
    ensures short { (t : Tree) → TreeOf rule.now t → length (layout t) ≤ max_rule_text }
    ensures reads_back { (t : Tree) → TreeOf rule.now t → Accepts (layout t) t }
{
    text::write(out, text_of(rule).bytes())
}
