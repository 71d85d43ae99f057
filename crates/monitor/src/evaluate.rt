// The values of a rule's nodes at an event. Cells are only read.
ghost use Rattle.std.specs.Prelude.{◌≡◌, ◌-◌, ◌<◌, ◌≤◌, [], map, length, take, drop, Some as found, slice_index_or};
ghost use Rattle.std.specs.List.{slice_get};
ghost use Rattle.evaluation.specs.Plan.{cell_of};
ghost use Rattle.evaluation.specs.Steps.{left_of, evaluate};
ghost use Rattle.program.specs.Programs.{Sound};
ghost use Rattle.history.specs.Value.{truth};
ghost use Rattle.monitor.specs.Own.{cells};
ghost use Rattle.monitor.specs.Shut.{CellFits, value_of_step};

use crate::events::is_kind;
use evaluation::Step;
use kinds::TruthKind;
use readings::Source;
use reels::Event;

// The kind's value of a test.
pub(crate) fn truth_of<K: TruthKind>(test: bool) -> K
    ensures value { K.TruthKind.means result ≡ truth K.TruthKind.algebra test }
{
    if test { K::truth() } else { K::falsehood() }
}

// The value of a predicate; a reading that is judged to have it has it.
fn predicate<K: TruthKind, S: Source<Kind = K>>(source: &S, number: u8) -> K
    ensures value { K.TruthKind.means result ≡ slice_index_or (map K.TruthKind.means (S.Source.readings source.now)) number K.TruthKind.algebra.false }
{
    source.value(usize::from(number)).unwrap_or(K::falsehood())
}

// What stands at a place.
fn at<K: TruthKind>(list: &[K], place: usize) -> K
    requires { place < length list.now }
    ensures value { K.TruthKind.means result ≡ slice_index_or (map K.TruthKind.means list.now) place K.TruthKind.algebra.false }
{
    list[place]
}

// Since: the right operand, or the left one while it was so already.
fn since<K: TruthKind>(working: &[K], left: usize, right: usize, past: K) -> K
    requires left { left < length working.now }
    requires right { right < length working.now }
    ensures value { K.TruthKind.means result ≡ K.TruthKind.algebra.or (slice_index_or (map K.TruthKind.means working.now) right K.TruthKind.algebra.false) (K.TruthKind.algebra.and (slice_index_or (map K.TruthKind.means working.now) left K.TruthKind.algebra.false) (K.TruthKind.means past)) }
{
    at(working, right).or(at(working, left).and(past))
}

// The value of a step from those of the steps before it and from its cell. Its right or only operand stands at `before`.
#[tactic(auto, unfolding(crate::specs::Shut::value_of_step))]
fn step_value<K: TruthKind, S: Source<Kind = K>>(
    step: &Step,
    before: usize,
    plain: &[K],
    routine: &[K],
    working: &[K],
    event: Event,
    source: &S,
) -> K
    requires left { left_of step.now < length working.now }
    requires operand { before < length working.now }
    requires cell { CellFits (cell_of step.now) (length plain.now) (length routine.now) }
    ensures value { K.TruthKind.means result ≡ value_of_step K.TruthKind.algebra event (map K.TruthKind.means (S.Source.readings source.now)) (cells K.TruthKind.means plain.now routine.now) (map K.TruthKind.means working.now) before step.now }
{
    match *step {
        Step::True => K::truth(),
        Step::False => K::falsehood(),
        Step::Kind(kind) => truth_of(is_kind(event, kind)),
        Step::Predicate(number) => predicate(source, number),
        Step::Routine(number) => truth_of(event.routine == number),
        Step::Not => at(working, before).not(),
        Step::And(left) => at(working, usize::from(left)).and(at(working, before)),
        Step::Or(left) => at(working, usize::from(left)).or(at(working, before)),
        Step::Implies(left) => at(working, usize::from(left)).not().or(at(working, before)),
        Step::Before(cell) => at(plain, usize::from(cell)),
        Step::Rbefore(cell) => at(routine, usize::from(cell)),
        Step::Once(cell) => at(working, before).or(at(plain, usize::from(cell))),
        Step::Ronce(cell) => at(working, before).or(at(routine, usize::from(cell))),
        Step::Always(cell) => at(working, before).and(at(plain, usize::from(cell))),
        Step::Ralways(cell) => at(working, before).and(at(routine, usize::from(cell))),
        Step::Since(left, cell) => since(
            working,
            usize::from(left),
            before,
            at(plain, usize::from(cell)),
        ),
        Step::Rsince(left, cell) => since(
            working,
            usize::from(left),
            before,
            at(routine, usize::from(cell)),
        ),
        Step::Rise(cell) => at(working, before).and(at(plain, usize::from(cell)).not()),
        Step::Fall(cell) => at(working, before).not().and(at(plain, usize::from(cell))),
    }
}

// Writes the value of each step at its place among the working values.
pub(crate) fn evaluate<K: TruthKind, S: Source<Kind = K>>(
    steps: &[Step],
    plain: &[K],
    routine: &[K],
    event: Event,
    source: &S,
    working: &mut [K],
)
    requires sound { Sound 0 (length plain.now) (length routine.now) steps.now }
    requires room { length steps.now ≤ length working.old }
    ensures values { map K.TruthKind.means (take (length steps.now) working.new) ≡ evaluate K.TruthKind.algebra event (map K.TruthKind.means (S.Source.readings source.now)) (cells K.TruthKind.means plain.now routine.now) steps.now [] }
    ensures rest { drop (length steps.now) working.new ≡ drop (length steps.now) working.old }
{
    for (i, step) in steps.iter().enumerate() {
        let before = i.saturating_sub(1);
        let value = step_value(step, before, plain, routine, working, event, source);
        working[i] = value;
    }
}

// The value of the rule, which is that of the last of its steps.
pub(crate) fn last_value<K: Copy>(steps: &[Step], working: &[K]) -> K
    requires some { 0 < length steps.now }
    requires room { length steps.now ≤ length working.now }
    ensures value { slice_get working.now (length steps.now - 1) ≡ found result }
{
    working[steps.len() - 1]
}
