// A rule made ready to run.
#![tactic(auto)]

mod making;
mod parts;
mod program;

ghost use Rattle.std.specs.Prelude.{◌≡◌, ℕ, ◌≤◌, ◌↔◌};
ghost use Rattle.grammar.specs.Grammar.{Tree};
ghost use Rattle.reader.specs.Rules.{TreeOf};
ghost use Rattle.program.specs.Programs.{steps, plain_numbers, routine_numbers, wanted, predicates, HasAll, Runs};

use evaluation::Step;
use parts::Parts;
pub use program::Program;
use reader::Rule;

impl Program {
    // The program of a rule.
    #[tactic(auto, using(crate::proofs::Listing::listed), unfolding(crate::specs::Planned::planned))]
    pub fn of(rule: &Rule) -> Program
        ensures rule { result.rule ≡ rule.now }
        ensures runs { (t : Tree) → TreeOf rule.now t → Runs result t }
    {
        let mut parts = Parts::new();
        for node in rule.nodes() {
            parts.add(node);
        }
        Program { rule: *rule, parts }
    }

    // The rule that this is the program of.
    pub fn rule(&self) -> &Rule
        ensures value { result.now ≡ self.now.rule }
    {
        &self.rule
    }

    // The steps, one for each node.
    pub fn steps(&self) -> &[Step]
        ensures value { result.now ≡ steps self.now }
    {
        self.parts.steps.as_slice()
    }

    // For each plain cell, in order, the number of the step whose value it keeps. A call for each kind of cell, as `Parts` says.
    pub fn plain(&self) -> &[u8]
        ensures value { result.now ≡ plain_numbers self.now }
    {
        self.parts.plain.as_slice()
    }

    // For each routine cell, in order, the number of the step whose value it keeps.
    pub fn routine(&self) -> &[u8]
        ensures value { result.now ≡ routine_numbers self.now }
    {
        self.parts.routine.as_slice()
    }

    // How many predicates a reading must have.
    pub fn predicates(&self) -> usize
        ensures value { result ≡ wanted self.now }
    {
        self.parts.predicates
    }
}

// A theorem about how many predicates a rule asks for: a reading has one for each `pN` of the rule exactly if it has so many.
pub fn program_stands()
    ensures asked { (n : ℕ) (t : Tree) → predicates t ≤ n ↔ HasAll n t }
{}
