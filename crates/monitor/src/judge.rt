// Which events are refused, decided before anything is written.
ghost use Rattle.std.specs.Prelude.{◌≡◌, ◌≤◌, length, IfOk};
ghost use Rattle.std.specs.Option.{option_map};
ghost use Rattle.std.specs.Result.{result_err};
ghost use Rattle.reels.specs.Nesting.{judged, undue, innermost};
ghost use Rattle.watching.specs.Faults.{max_limit, max_events};
ghost use Rattle.watching.specs.Memory.{short_list};
ghost use Rattle.watching.specs.Refusals.{nest_of, routines_in, event_fault, number_of, refusal};
ghost use Rattle.monitor.specs.Own.{own};

use crate::events::is_kind;
use program::Program;
use reels::{Event, EventKind, is_fit};
use watching::{Due, EventFault, LentList, MAX_EVENTS, Nesting, OpenRoutine, WatchFault};

// The first list that is too short for the program under the depth limit.
pub(crate) fn short_list<K>(
    program: &Program,
    limit: usize,
    plain: &[K],
    routine: &[K],
    stack: &[K],
    opened: &[OpenRoutine],
    working: &[K],
) -> Option<LentList>
    requires { limit ≤ max_limit }
    ensures value { result ≡ short_list program.now limit (own plain.now routine.now stack.now opened.now) (length working.now) }
{
    let cells = program.routine().len();
    if plain.len() < program.plain().len() {
        return Some(LentList::Plain);
    }
    if routine.len() < cells {
        return Some(LentList::Routine);
    }
    if stack.len() < cells * limit {
        return Some(LentList::Stack);
    }
    if opened.len() < limit {
        return Some(LentList::Opened);
    }
    if working.len() < program.steps().len() {
        return Some(LentList::Working);
    }
    None
}

// Whether the routine is the innermost of those open.
fn is_innermost(depth: usize, opened: &[OpenRoutine], routine: u16) -> bool
    requires { depth ≤ length opened.now }
    ensures value { result ≡ innermost (routines_in depth opened.now) routine }
{
    depth > 0 && opened[depth - 1].routine == routine
}

// The fault of an event whose number fits its kind, where no other event is due.
fn undue_fault(nesting: Nesting, opened: &[OpenRoutine], event: Event) -> Option<EventFault>
    requires { nesting.depth ≤ length opened.now }
    ensures value { result ≡ option_map event_fault (undue nesting.limit (routines_in nesting.depth opened.now) event.kind event.routine) }
{
    match event.kind {
        EventKind::Step => None,
        EventKind::Call => {
            if nesting.depth < nesting.limit {
                return None;
            }
            Some(EventFault::TooDeep)
        }
        EventKind::Begin => Some(EventFault::Stray),
        EventKind::End => {
            if is_innermost(nesting.depth, opened, event.routine) {
                return None;
            }
            Some(EventFault::NotInnermost)
        }
        EventKind::Return => Some(EventFault::Stray),
    }
}

// The fault of an event by the nesting of those before it.
pub(crate) fn nesting_fault(
    nesting: Nesting,
    opened: &[OpenRoutine],
    event: Event,
) -> Option<EventFault>
    requires { nesting.depth ≤ length opened.now }
    ensures value { result ≡ option_map event_fault (judged nesting.limit (nest_of nesting opened.now) event) }
{
    if !is_fit(event) {
        return Some(EventFault::UnfitRoutine);
    }
    match nesting.due {
        None => undue_fault(nesting, opened, event),
        Some(Due::Begin(routine)) => {
            if is_kind(event, EventKind::Begin) && event.routine == routine {
                return None;
            }
            Some(EventFault::BeginDue)
        }
        Some(Due::Return(routine)) => {
            if is_kind(event, EventKind::Return) && event.routine == routine {
                return None;
            }
            Some(EventFault::ReturnDue)
        }
    }
}

// Refuses an event, or answers the number that it gets. Nothing is written yet.
pub(crate) fn judge<K>(
    program: &Program,
    nesting: Nesting,
    plain: &[K],
    routine: &[K],
    stack: &[K],
    opened: &[OpenRoutine],
    working: &[K],
    event: Event,
    readings: usize,
) -> Result<u32, WatchFault>
    requires limited { nesting.limit ≤ max_limit }
    requires within { nesting.depth ≤ nesting.limit }
    requires counted { nesting.accepted ≤ max_events }
    ensures fault { result_err result ≡ refusal program.now nesting (own plain.now routine.now stack.now opened.now) (length working.now) event readings }
    ensures number { IfOk result (λ n. n ≡ number_of nesting) }
{
    if let Some(list) = short_list(
        program,
        nesting.limit,
        plain,
        routine,
        stack,
        opened,
        working,
    ) {
        return Err(WatchFault::ListTooShort(list));
    }
    let number = nesting.accepted + 1;
    if let Some(fault) = nesting_fault(nesting, opened, event) {
        return Err(WatchFault::AtEvent { number, fault });
    }
    if readings < program.predicates() {
        return Err(WatchFault::AtEvent {
            number,
            fault: EventFault::MissingPredicate,
        });
    }
    if nesting.accepted >= MAX_EVENTS {
        return Err(WatchFault::AtEvent {
            number,
            fault: EventFault::TooManyEvents,
        });
    }
    Ok(number)
}
