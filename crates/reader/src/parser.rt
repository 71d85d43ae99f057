// A text that is being read: what is left of it, and the rule so far. The functions for a rule and for a unit call each
// other. Each is told how many more levels a token may lie deep, and leaves the nodes of what it has read in the draft.
// Each takes the answer to a token apart where it stands, by `let .. else` or `match`, and leaves with the fault of that place.
// A level and a place are passed on to be used once, in a function's first line.
ghost use Rattle.std.specs.Prelude.{◌≡◌, ℕ, ◌+◌, List, ◌∷◌, MatchResult};
ghost use Rattle.words.specs.declared.Operands.TheVariants.{Zero, One};
ghost use Rattle.grammar.specs.Grammar.{takes};
ghost use Rattle.grammar.specs.Machine.{Item, token};
ghost use Rattle.grammar.specs.declared.Token.TheVariants.{Open, Word as word_token};
ghost use Rattle.grammar.specs.declared.TextFault.TheVariants.{TooDeep as too_deep};
ghost use Rattle.lexer.specs.Answers.{left};
ghost use Rattle.reader.specs.Reading.{UnitBy, ended};

use crate::draft::Draft;
use grammar::{TextFault, Token};
use lexer::{Lexer, Placed};
use words::{Operands, Word, operands_of};

#[derive(Drop)]
pub(crate) struct Parser<'a> {
    pub(crate) lexer: Lexer<'a>,
    pub(crate) draft: Draft,
}

impl<'a> Parser<'a> {
    ghost use Rattle.reader.specs.Reading.{ReadUnit, ReadRule};

    // A rule: a unit, or two units and a two-sided word between them. It has read the token behind the rule, too, and
    // hands it back.
    #[cycle(in_parentheses_one_sided_rule_unit)]
    pub(crate) fn rule(&mut self, deep: usize) -> Result<Option<Placed>, TextFault>
        ensures read { ReadRule deep (left self.old.lexer) self.old result self.new }
    {
        self.unit(deep)?;
        let operand = self.draft.nodes.len() - 1;
        let Some(next) = self.lexer.next()? else {
            return Ok(None);
        };
        let Token::Word(word) = next.token else {
            return Ok(Some(next));
        };
        let Operands::Two = operands_of(word.operator) else {
            return Ok(Some(next));
        };
        self.draft.count(next.place)?;
        self.unit(deep)?;
        // There are at most 64 nodes: `try_from` would add an error that cannot come.
        self.draft.push(word, operand as u8);
        self.lexer.next()
    }

    // A unit: a rule in parentheses, a one-sided word and a unit, or a leaf.
    #[cycle(in_parentheses_one_sided_rule_unit)]
    #[tactic(auto, using(crate::proofs::Ways::leaf_behind))]
    pub(crate) fn unit(&mut self, deep: usize) -> Result<(), TextFault>
        ensures read { ReadUnit deep (left self.old.lexer) self.old result self.new }
    {
        let Some(Placed { place, token }) = self.lexer.next()? else {
            return Err(TextFault::EndsEarly(self.lexer.text_len()));
        };
        match token {
            Token::Open => self.in_parentheses(deep, place),
            Token::Close => Err(TextFault::Misplaced(place)),
            Token::Word(word) => match operands_of(word.operator) {
                Operands::Zero => self.draft.leaf(word, place),
                Operands::One => self.one_sided(deep, word, place),
                Operands::Two => Err(TextFault::Misplaced(place)),
            },
        }
    }

    // The unit of a one-sided word, which stands at `place`.
    #[cycle(in_parentheses_one_sided_rule_unit)]
    fn one_sided(&mut self, deep: usize, word: Word, place: usize) -> Result<(), TextFault>
        requires { takes word ≡ One }
        ensures read { ReadUnit deep (token place (word_token word) ∷ left self.old.lexer) self.old result self.new }
    {
        let below = deeper(deep, place)?;
        self.draft.count(place)?;
        self.unit(below)?;
        self.draft.push(word, 0);
        Ok(())
    }

    // The rule and the closing parenthesis behind an opening one, which stands at `place`.
    #[cycle(in_parentheses_one_sided_rule_unit)]
    fn in_parentheses(&mut self, deep: usize, place: usize) -> Result<(), TextFault>
        ensures read { ReadUnit deep (token place Open ∷ left self.old.lexer) self.old result self.new }
    {
        let below = deeper(deep, place)?;
        let Some(next) = self.rule(below)? else {
            return Err(TextFault::EndsEarly(self.lexer.text_len()));
        };
        let Token::Close = next.token else {
            return Err(TextFault::Misplaced(next.place));
        };
        Ok(())
    }
}

impl Draft {
    // A leaf, at `place`.
    fn leaf(&mut self, word: Word, place: usize) -> Result<(), TextFault>
        requires { takes word ≡ Zero }
        ensures read { (n deep : ℕ) (xs : List Item) → UnitBy n deep (token place (word_token word) ∷ xs) self.old result xs self.new }
    {
        self.count(place)?;
        self.push(word, 0);
        Ok(())
    }
}

// The levels that are left behind a token at `place` that opens one more.
fn deeper(deep: usize, place: usize) -> Result<usize, TextFault>
    ensures level { MatchResult result (λ below. below + 1 ≡ deep) (λ f. (f ≡ too_deep place) × (deep ≡ 0)) }
{
    deep.checked_sub(1).ok_or(TextFault::TooDeep(place))
}

// The end of the text behind a whole rule: anything else cannot stand there.
pub(crate) fn nothing_behind(next: Option<Placed>) -> Result<(), TextFault>
    ensures value { result ≡ ended next }
{
    match next {
        None => Ok(()),
        Some(next) => Err(TextFault::Misplaced(next.place)),
    }
}
