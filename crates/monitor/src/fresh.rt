// The cells of a watcher just made: true for `always` and `ralways`, else false.
ghost use Rattle.std.specs.Prelude.{◌≡◌, ℕ, ◌+◌, ◌≤◌, [], ◌∷◌, ◌++◌, map, length, take, drop};
ghost use Rattle.evaluation.specs.Plan.{cell_of};
ghost use Rattle.evaluation.specs.Steps.{fresh_of};
ghost use Rattle.monitor.specs.Sides.{pick, starts_true, listed};

use crate::evaluate::truth_of;
use evaluation::Step;
use kinds::TruthKind;

// Plain or routine cells.
#[derive(Clone, Copy)]
pub(crate) enum Side {
    Plain,
    Routine,
}

// Whether the step's cell starts as true, where the step has a cell on this side.
fn start_of(step: &Step, side: Side) -> Option<bool>
    ensures value { listed result ≡ pick side (cell_of step.now) (starts_true step.now) }
{
    match side {
        Side::Plain => match *step {
            Step::Before(_) => Some(false),
            Step::Once(_) => Some(false),
            Step::Always(_) => Some(true),
            Step::Since(_, _) => Some(false),
            Step::Rise(_) => Some(false),
            Step::Fall(_) => Some(false),
            _ => None,
        },
        Side::Routine => match *step {
            Step::Rbefore(_) => Some(false),
            Step::Ronce(_) => Some(false),
            Step::Ralways(_) => Some(true),
            Step::Rsince(_, _) => Some(false),
            _ => None,
        },
    }
}

// Writes the step's cell on one side, where it has one, at the place `end`, and answers the place behind it.
fn write_cell<K: TruthKind>(step: &Step, side: Side, cells: &mut [K], end: usize) -> usize
    requires room { end + length (fresh_of K.TruthKind.algebra (pick side) (step.now ∷ [])) ≤ length cells.old }
    ensures end { result ≡ end + length (fresh_of K.TruthKind.algebra (pick side) (step.now ∷ [])) }
    ensures written { map K.TruthKind.means (take result cells.new) ≡ map K.TruthKind.means (take end cells.old) ++ fresh_of K.TruthKind.algebra (pick side) (step.now ∷ []) }
    ensures rest { (n : ℕ) → result ≤ n → drop n cells.new ≡ drop n cells.old }
{
    let Some(start) = start_of(step, side) else {
        return end;
    };
    cells[end] = truth_of(start);
    end + 1
}

// Writes the cells on one side, in the order of the steps.
pub(crate) fn write_fresh<K: TruthKind>(steps: &[Step], side: Side, cells: &mut [K])
    requires room { length (fresh_of K.TruthKind.algebra (pick side) steps.now) ≤ length cells.old }
    ensures fresh { map K.TruthKind.means (take (length (fresh_of K.TruthKind.algebra (pick side) steps.now)) cells.new) ≡ fresh_of K.TruthKind.algebra (pick side) steps.now }
    ensures rest { drop (length (fresh_of K.TruthKind.algebra (pick side) steps.now)) cells.new ≡ drop (length (fresh_of K.TruthKind.algebra (pick side) steps.now)) cells.old }
{
    let mut end = 0;
    for step in steps {
        end = write_cell(step, side, cells, end);
    }
}
