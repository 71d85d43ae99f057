// A rule as a watcher runs it, and why that is looking back: the steps of a rule, the values that they keep, and theorems.
#![tactic(auto)]

ghost use Rattle.evaluation.specs.Theorems.{LooksBack, BegunOpened, Fresh, Evaluates, Copies};

use kinds::TruthKind;
use reels::EventKind;

// What a watcher does at one node of a rule. The right or only operand is the step just before. `And`, `Or` and `Implies` have
// the number of their left operand's step, `Since` and `Rsince` this and then the number of their cell; the other words that
// look back have the number of their cell. Routine words have routine cells, the others plain cells, each counted from 0.
#[derive(Clone, Copy, PartialEq, Eq, Debug)]
pub enum Step {
    True,
    False,
    Kind(EventKind),
    Predicate(u8),
    Routine(u16),
    Not,
    And(u8),
    Or(u8),
    Implies(u8),
    Before(u8),
    Rbefore(u8),
    Once(u8),
    Ronce(u8),
    Always(u8),
    Ralways(u8),
    Since(u8, u8),
    Rsince(u8, u8),
    Rise(u8),
    Fall(u8),
}

// Theorems about which event the routine words of the next event look back to, and which routines are open.
pub fn returning_stands()
    ensures back { LooksBack }
    ensures opened { BegunOpened }
{}

// Theorems about a watcher's cells in any kind: they hold what looking back says, and so do the values of the steps.
pub fn evaluation_stands<K: TruthKind>()
    ensures fresh { Fresh K.TruthKind.algebra }
    ensures evaluates { Evaluates K.TruthKind.algebra }
    ensures copies { Copies K.TruthKind.algebra }
{}
