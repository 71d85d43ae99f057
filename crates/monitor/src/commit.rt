// What is kept for the next event: cells, the stack, the open routines and the nesting.
ghost use Rattle.std.specs.Prelude.{◌≡◌, ℕ, ◌+◌, ◌-◌, ◌<◌, ◌≤◌, length, take, drop, slice_index_or, slice_set};
ghost use Rattle.std.proofs.Math.Seq.{paste};
ghost use Rattle.watching.specs.Calls.{cells_after, next_nesting};
ghost use Rattle.watching.specs.Faults.{max_events};
ghost use Rattle.monitor.specs.Keeping.{Room, routine_kept, stack_kept, opened_kept};

use reels::{Event, EventKind};
use stack::Stack;
use watching::{Due, Nesting, OpenRoutine};

// Each cell takes the working value at its number.
pub(crate) fn keep<K: Copy>(numbers: &[u8], working: &[K], cells: &mut [K])
    requires below { (k d : ℕ) → k < length numbers.now → slice_index_or numbers.now k d < length working.now }
    requires room { length numbers.now ≤ length cells.old }
    ensures after { (d : K) → cells.new ≡ cells_after d numbers.now working.now cells.old }
{
    for (i, number) in numbers.iter().enumerate() {
        cells[i] = working[usize::from(*number)];
    }
}

// Puts values on the stack, above the `len` that are there.
fn push_values<K: Copy>(values: &[K], len: usize, stack: &mut [K])
    requires room { len + length values.now ≤ length stack.old }
    ensures pushed { stack.new ≡ paste stack.old len values.now (length values.now) }
{
    let mut stack = Stack::new(stack, len);
    let _ = stack.push_all(values);
}

// Takes the topmost of the `len` values on the stack off it.
fn pop_values<K: Copy>(values: &mut [K], len: usize, stack: &mut [K])
    requires some { length values.old ≤ len }
    requires within { len ≤ length stack.old }
    ensures popped { values.new ≡ take (length values.old) (drop (len - length values.old) stack.old) }
    ensures stack { stack.new ≡ stack.old }
{
    let mut stack = Stack::new(stack, len);
    let _ = stack.pop_all(values);
}

// Puts a routine on the list of the `depth` that are open.
fn push_opened(routine: OpenRoutine, depth: usize, opened: &mut [OpenRoutine])
    requires room { depth < length opened.old }
    ensures pushed { opened.new ≡ slice_set opened.old depth routine }
{
    let mut opened = Stack::new(opened, depth);
    let _ = opened.push(routine);
}

// The nesting after an accepted event.
pub(crate) fn next_nesting(nesting: Nesting, event: Event) -> Nesting
    requires counted { nesting.accepted < max_events }
    requires shallow { nesting.depth ≤ 256 }
    ensures value { result ≡ next_nesting nesting event }
{
    let (depth, due) = match event.kind {
        EventKind::Step => (nesting.depth, None),
        EventKind::Call => (nesting.depth, Some(Due::Begin(event.routine))),
        EventKind::Begin => (nesting.depth + 1, None),
        EventKind::End => (
            nesting.depth.saturating_sub(1),
            Some(Due::Return(event.routine)),
        ),
        EventKind::Return => (nesting.depth, None),
    };
    Nesting {
        limit: nesting.limit,
        accepted: nesting.accepted + 1,
        depth,
        due,
    }
}

// The routine cells after an event, with the stack and the open routines.
pub(crate) fn keep_routine<K: Copy>(
    numbers: &[u8],
    nesting: Nesting,
    event: Event,
    working: &[K],
    routine: &mut [K],
    stack: &mut [K],
    opened: &mut [OpenRoutine],
)
    requires below { (k d : ℕ) → k < length numbers.now → slice_index_or numbers.now k d < length working.now }
    requires cells { length numbers.now ≤ length routine.old }
    requires room { Room (length numbers.now) nesting.depth (length stack.old) (length opened.old) event.kind }
    ensures routine { (d : K) → routine.new ≡ routine_kept numbers.now nesting.depth routine.old stack.old event.kind d working.now }
    ensures stack { stack.new ≡ stack_kept (length numbers.now) nesting.depth routine.old stack.old event.kind }
    ensures opened { opened.new ≡ opened_kept nesting.depth nesting.accepted opened.old event.kind event.routine }
{
    let cells = numbers.len();
    match event.kind {
        EventKind::Begin => {
            let entry = OpenRoutine {
                routine: event.routine,
                call: nesting.accepted,
            };
            push_values(&routine[0..cells], cells * nesting.depth, stack);
            push_opened(entry, nesting.depth, opened);
            keep(numbers, working, routine);
        }
        EventKind::End => pop_values(&mut routine[0..cells], cells * nesting.depth, stack),
        _ => keep(numbers, working, routine),
    }
}
