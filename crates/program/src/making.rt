// How a program is made of a rule's nodes, one after another.
ghost use Rattle.std.specs.Prelude.{◌≡◌, ℕ, ◌+◌, ◌<◌, List, ◌∷◌, length};
ghost use Rattle.words.specs.Words.{Listed};
ghost use Rattle.fixed_vec.specs.Elements.{elements};
ghost use Rattle.grammar.specs.Limits.{max_words};
ghost use Rattle.grammar.specs.declared.Node.{Node as RuleNode};
ghost use Rattle.evaluation.specs.Plan.{cell_of, if_plain, if_routine};
ghost use Rattle.evaluation.specs.Steps.{source};
ghost use Rattle.program.specs.Planned.{node_step, planned, asked_by};
ghost use Rattle.program.specs.Parts.{in_plain, in_routine, comes_to};

use crate::parts::Parts;
use evaluation::Step;
use fixed_vec::FixedVec;
use grammar::{MAX_WORDS, Node};
use reels::EventKind;
use words::Operator;

// What a step keeps for the next event: the value of the step with this number, in a plain or in a routine cell.
#[derive(Clone, Copy)]
enum Kept {
    Plain(u8),
    Routine(u8),
}

// What step number `at` keeps: its operand's value, where the next event asks for that, or else its own.
fn kept_by(step: Step, at: u8) -> Option<Kept>
    ensures plain { in_plain result ≡ if_plain (cell_of step) (source step at) }
    ensures routine { in_routine result ≡ if_routine (cell_of step) (source step at) }
{
    // A word with an operand is never a rule's first, so `at` is not 0 where this is used.
    let operand = at.saturating_sub(1);
    let kept = match step {
        Step::Before(_) => Kept::Plain(operand),
        Step::Rbefore(_) => Kept::Routine(operand),
        Step::Rise(_) => Kept::Plain(operand),
        Step::Fall(_) => Kept::Plain(operand),
        Step::Once(_) => Kept::Plain(at),
        Step::Ronce(_) => Kept::Routine(at),
        Step::Always(_) => Kept::Plain(at),
        Step::Ralways(_) => Kept::Routine(at),
        Step::Since(_, _) => Kept::Plain(at),
        Step::Rsince(_, _) => Kept::Routine(at),
        _ => return None,
    };
    Some(kept)
}

// How many predicates a step asks for: one more than the number of its own.
fn asked_by(step: Step) -> usize
    ensures value { result ≡ asked_by step }
{
    match step {
        Step::Predicate(number) => usize::from(number) + 1,
        _ => 0,
    }
}

// The number that the next element of a list gets.
fn number_of<T: Copy>(list: &FixedVec<T, MAX_WORDS>) -> u8
    ensures value { result ≡ length (elements list.now) }
{
    // There are at most 64, so this loses nothing, and `try_from` would add an error that cannot come.
    list.len() as u8
}

impl Parts {
    // Nothing made yet.
    #[tactic(auto, unfolding(crate::specs::Planned::asked, evaluation::specs::Steps::sources))]
    pub(crate) fn new() -> Parts
        ensures empty { length (elements result.steps) ≡ 0 }
        ensures nodes { (ns : List RuleNode) → comes_to result ns ≡ planned 0 0 ns }
    {
        Parts {
            steps: FixedVec::new(Step::False),
            plain: FixedVec::new(0),
            routine: FixedVec::new(0),
            predicates: 0,
        }
    }

    // The step of a node that comes next. Its cell has the next number among those of its kind.
    fn step_of(&self, node: &Node) -> Step
        requires { Listed node.now.word }
        ensures value { result ≡ node_step node.now (length (elements self.now.plain)) (length (elements self.now.routine)) }
    {
        let (plain, routine) = (number_of(&self.plain), number_of(&self.routine));
        match node.word.operator {
            Operator::And => Step::And(node.left),
            Operator::Or => Step::Or(node.left),
            Operator::Implies => Step::Implies(node.left),
            Operator::Since => Step::Since(node.left, plain),
            Operator::Rsince => Step::Rsince(node.left, routine),
            Operator::Not => Step::Not,
            Operator::Before => Step::Before(plain),
            Operator::Rbefore => Step::Rbefore(routine),
            Operator::Once => Step::Once(plain),
            Operator::Ronce => Step::Ronce(routine),
            Operator::Always => Step::Always(plain),
            Operator::Ralways => Step::Ralways(routine),
            Operator::Rise => Step::Rise(plain),
            Operator::Fall => Step::Fall(plain),
            Operator::True => Step::True,
            Operator::False => Step::False,
            // A `From` of these five would only move them: nothing else turns a word into a kind.
            Operator::Step => Step::Kind(EventKind::Step),
            Operator::Call => Step::Kind(EventKind::Call),
            Operator::Begin => Step::Kind(EventKind::Begin),
            Operator::End => Step::Kind(EventKind::End),
            Operator::Return => Step::Kind(EventKind::Return),
            // A listed predicate's number fits 8 bits: `try_from` would add an error that cannot come.
            Operator::Predicate => Step::Predicate(node.word.number as u8),
            Operator::Routine => Step::Routine(node.word.number),
        }
    }

    // One node more: its step, with what that keeps and asks for.
    pub(crate) fn add(&mut self, node: &Node)
        requires room { length (elements self.old.steps) < max_words }
        requires listed { Listed node.now.word }
        ensures one { length (elements self.new.steps) ≡ length (elements self.old.steps) + 1 }
        ensures nodes { (ns : List RuleNode) → comes_to self.new ns ≡ comes_to self.old (node.now ∷ ns) }
    {
        let step = self.step_of(node);
        match kept_by(step, number_of(&self.steps)) {
            Some(Kept::Plain(number)) => self.plain.push(number).unwrap(),
            Some(Kept::Routine(number)) => self.routine.push(number).unwrap(),
            None => {}
        }
        self.predicates = self.predicates.max(asked_by(step));
        self.steps.push(step).unwrap();
    }
}
