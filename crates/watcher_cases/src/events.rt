// Events drawn at random: mostly such as may come next, and here and there any.
use crate::accepted::Accepted;
use crate::random::Random;
use reels::{Event, EventKind};

const KINDS: [EventKind; 5] = [
    EventKind::Step,
    EventKind::Call,
    EventKind::Begin,
    EventKind::End,
    EventKind::Return,
];

// How often a call and an end are drawn for each step.
#[derive(Clone, Copy)]
pub struct Odds {
    pub calls: u32,
    pub ends: u32,
}

// An event that may come behind the accepted ones, or any.
pub(crate) fn event(accepted: &Accepted, odds: Odds, random: &mut Random) -> Event {
    if random.once_in(12) {
        return any_event(random);
    }
    let (kind, routine) = match accepted.last() {
        Some(last) if last.kind == EventKind::Call => (EventKind::Begin, last.routine),
        Some(last) if last.kind == EventKind::End => (EventKind::Return, last.routine),
        _ => free_event(accepted, odds, random),
    };
    Event { kind, routine }
}

// A step, a call, or the end of the innermost routine.
fn free_event(accepted: &Accepted, odds: Odds, random: &mut Random) -> (EventKind, u16) {
    let drawn = random.below(odds.calls.saturating_add(odds.ends).saturating_add(1));
    if drawn < odds.calls {
        return (EventKind::Call, random.below(3).saturating_add(1) as u16);
    }
    match accepted.innermost() {
        Some(routine) if drawn < odds.calls.saturating_add(odds.ends) => (EventKind::End, routine),
        _ => (EventKind::Step, 0),
    }
}

// An event of any kind, with any small routine number.
fn any_event(random: &mut Random) -> Event {
    Event {
        kind: random.element(&KINDS).unwrap_or(EventKind::Step),
        routine: random.below(4) as u16,
    }
}
