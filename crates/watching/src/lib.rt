// What a watcher's calls are about: how far the nesting has come, the memory that is lent, verdicts and refusals; and, in
// specs/, what each call answers and leaves.
#![tactic(auto)]

ghost use Rattle.std.specs.Prelude.{◌≡◌};
ghost use Rattle.watching.specs.Faults.{list_number, fault_number, fault_place};

use refusal::Refusal;

// The highest depth limit: how many routines may be open together at most.
pub const MAX_LIMIT: usize = 256;

// How many events a watcher accepts at most.
pub const MAX_EVENTS: u32 = 16_777_215;

// The one event that may come next: the begin of the routine just called, or the return of the one just ended.
#[derive(Clone, Copy, PartialEq, Eq, Debug)]
pub enum Due {
    Begin(u16),
    Return(u16),
}

// How far the nesting of the accepted events has come, under a depth limit.
#[derive(Clone, Copy, PartialEq, Eq, Debug)]
pub struct Nesting {
    pub limit: usize,
    // How many events were accepted.
    pub accepted: u32,
    // How many routines are open.
    pub depth: usize,
    // What has to come next, where not every event may.
    pub due: Option<Due>,
}

// A routine that has begun and not ended: its number, and the event number of its call.
#[derive(Clone, Copy, PartialEq, Eq, Debug)]
pub struct OpenRoutine {
    pub routine: u16,
    pub call: u32,
}

// The memory that is lent to a watcher's calls: slices whose lengths a watcher knows, since nothing here allocates. The first four lists are the watcher's own from its making on; the last
// one is free between calls.
#[derive(Drop)]
pub struct Lists<'a, K> {
    // The plain cells.
    pub plain: &'a mut [K],
    // The routine cells.
    pub routine: &'a mut [K],
    // The routine cells that stood when the open routines were called, the outermost routine's first.
    pub stack: &'a mut [K],
    // The open routines, the outermost first.
    pub opened: &'a mut [OpenRoutine],
    // The values of the rule's nodes at the latest accepted event.
    pub working: &'a mut [K],
}

// One of the lists, with its number.
#[derive(Clone, Copy, PartialEq, Eq, Debug)]
pub enum LentList {
    Plain = 1,
    Routine = 2,
    Stack = 3,
    Opened = 4,
    Working = 5,
}

impl LentList {
    // The list's number, from 1.
    pub fn number(&self) -> usize
        ensures value { result ≡ list_number self.now }
    {
        // The discriminant, to which no `From` leads; it is what the refusal of a short list shows as its place.
        *self as usize
    }
}

// The answer to an accepted event: its number, and the value of the rule.
#[derive(Clone, Copy, PartialEq, Eq, Debug)]
pub struct Verdict<K> {
    pub number: u32,
    pub value: K,
}

// What is wrong with an event, with the number that a refusal's line shows.
#[derive(Clone, Copy, PartialEq, Eq, Debug)]
pub enum EventFault {
    // The routine number does not fit the kind.
    UnfitRoutine = 31,
    // After a call, anything but its begin.
    BeginDue = 32,
    // After an end, anything but its return.
    ReturnDue = 33,
    // Another begin or return.
    Stray = 34,
    // An end of another routine than the innermost.
    NotInnermost = 35,
    // A call while as many routines are open as the limit allows.
    TooDeep = 36,
    // The reading has no value for a predicate of the rule.
    MissingPredicate = 30,
    TooManyEvents = 37,
}

// Why a making or an event is refused.
#[derive(Clone, Copy, PartialEq, Eq, Debug)]
pub enum WatchFault {
    // A depth limit above the highest.
    LimitTooHigh,
    ListTooShort(LentList),
    // A fault of an event, and the number that it would have had.
    AtEvent { number: u32, fault: EventFault },
}

// The place is the event's number, the list's number, or the highest limit.
impl From<WatchFault> for Refusal {
    ghost from_gives = { λ fault refusal. (refusal.number ≡ fault_number fault) × (refusal.place ≡ fault_place fault) };

    fn from(fault: WatchFault) -> Refusal {
        match fault {
            WatchFault::LimitTooHigh => Refusal {
                number: 20,
                place: MAX_LIMIT,
            },
            WatchFault::ListTooShort(list) => Refusal {
                number: 21,
                place: list.number(),
            },
            // There is no `usize::from` of a u32, and none of a discriminant.
            WatchFault::AtEvent { number, fault } => Refusal {
                number: fault as u16,
                place: number as usize,
            },
        }
    }
}
