// The expected answers are those that docs and contracts speak of.
use kinds::{Margin, Two};
use reader::{Rule, read};
use readings::{Definition, GaugeList, Points, Predicates, Side};
use reels::{Event, EventKind};
use refusal::Refusal;
use std::test::Fail;
use watcher::{Watcher, give, give_two_valued, make};
use watching::{Lists, MAX_EVENTS, MAX_LIMIT, OpenRoutine, Verdict, WatchFault};

// A rule with one plain cell, one routine cell and five nodes.
const RULE: &[u8] = b"before p0 and rbefore p1";

// How long its lists must be under a depth limit of 2.
const LENS: [usize; 5] = [1, 1, 2, 2, 5];

// The five lists, longer than they must be.
#[derive(Clone, Copy, PartialEq, Eq)]
struct Memory {
    plain: [Two; 4],
    routine: [Two; 4],
    stack: [Two; MAX_LIMIT],
    opened: [OpenRoutine; MAX_LIMIT],
    working: [Two; 8],
}

// What a refusal shows.
fn shown(fault: WatchFault) -> Refusal {
    Refusal::from(fault)
}

// The first `len` places of a list.
fn front<T, const N: usize>(list: &mut [T; N], len: usize) -> &mut [T] {
    let all = &mut list[..];
    &mut all[..len.min(N)]
}

impl Memory {
    fn new() -> Memory {
        let closed = OpenRoutine {
            routine: 9,
            call: 9,
        };
        Memory {
            plain: [Two::Yes; 4],
            routine: [Two::Yes; 4],
            stack: [Two::Yes; MAX_LIMIT],
            opened: [closed; MAX_LIMIT],
            working: [Two::Yes; 8],
        }
    }

    // The fronts of the lists.
    fn lend(&mut self, lens: [usize; 5]) -> Lists<'_, Two> {
        let [plain, routine, stack, opened, working] = lens;
        Lists {
            plain: front(&mut self.plain, plain),
            routine: front(&mut self.routine, routine),
            stack: front(&mut self.stack, stack),
            opened: front(&mut self.opened, opened),
            working: front(&mut self.working, working),
        }
    }
}

fn rule(text: &[u8]) -> Result<Rule, Fail> {
    match read(text) {
        Ok(rule) => Ok(rule),
        Err(_) => Err(Fail::new("the text is refused")),
    }
}

// A watcher with its memory, which is lent whole.
#[derive(Drop)]
struct Watched {
    watcher: Watcher,
    memory: Memory,
    lens: [usize; 5],
}

impl Watched {
    fn new(text: &[u8], limit: usize) -> Result<Watched, Fail> {
        let rule = rule(text)?;
        let mut memory = Memory::new();
        let lens = [4, 4, MAX_LIMIT, MAX_LIMIT, 8];
        match make(&rule, limit, memory.lend(lens)) {
            Ok(watcher) => Ok(Watched {
                watcher,
                memory,
                lens,
            }),
            Err(_) => Err(Fail::new("the making is refused")),
        }
    }

    // Gives the watcher an event with a word of predicates.
    fn give(&mut self, kind: EventKind, routine: u16, word: u64) -> Result<Verdict<Two>, Refusal> {
        give(
            &mut self.watcher,
            Event { kind, routine },
            &Predicates(word),
            self.memory.lend(self.lens),
        )
        .map_err(shown)
    }
}

fn refused(number: u16, place: usize) -> Result<Verdict<Two>, Refusal> {
    Err(Refusal { number, place })
}

fn answered(number: u32, value: Two) -> Result<Verdict<Two>, Refusal> {
    Ok(Verdict { number, value })
}

#[test]
fn seven_events(rt: HostRuntime) -> Result<(), Fail> {
    let table = [
        (EventKind::Step, 0, 1, Two::No, Two::No),
        (EventKind::Call, 7, 2, Two::No, Two::No),
        (EventKind::Begin, 7, 2, Two::Yes, Two::No),
        (EventKind::Step, 0, 1, Two::Yes, Two::Yes),
        (EventKind::End, 7, 0, Two::No, Two::Yes),
        (EventKind::Return, 7, 2, Two::Yes, Two::No),
        (EventKind::Step, 0, 0, Two::Yes, Two::No),
    ];
    let mut first = Watched::new(b"rbefore p1", 1)?;
    let mut second = Watched::new(b"ronce (p0 and before p1)", 1)?;
    for (number, (kind, routine, word, before, once)) in (1..8).zip(table) {
        let answer = first.give(kind, routine, word);
        assert_eq!(rt; answer, answered(number, before), "event {number}");
        let answer = give_two_valued(
            &mut second.watcher,
            Event { kind, routine },
            &Predicates(word),
            second.memory.lend(second.lens),
        );
        assert_eq!(rt;
            answer.map_err(shown),
            answered(number, once),
            "event {number}"
        );
    }
    Ok(())
}

#[test]
fn no_depth(rt: HostRuntime) -> Result<(), Fail> {
    let mut watched = Watched::new(b"call", 0)?;
    assert_eq!(rt; watched.give(EventKind::Call, 7, 0), refused(36, 1));
    assert_eq!(rt; watched.give(EventKind::Step, 0, 0), answered(1, Two::No));
    Ok(())
}

#[test]
fn full_depth(rt: HostRuntime) -> Result<(), Fail> {
    let mut watched = Watched::new(b"rbefore call", MAX_LIMIT)?;
    for depth in 0..256 {
        let call = 2 * depth + 1;
        assert_eq!(rt;
            watched.give(EventKind::Call, 7, 0),
            answered(call, Two::No)
        );
        assert_eq!(rt;
            watched.give(EventKind::Begin, 7, 0),
            answered(call + 1, Two::Yes)
        );
    }
    assert_eq!(rt; watched.give(EventKind::Call, 7, 0), refused(36, 513));
    for depth in 0..256 {
        let end = 2 * depth + 513;
        assert_eq!(rt; watched.give(EventKind::End, 7, 0), answered(end, Two::No));
        assert_eq!(rt;
            watched.give(EventKind::Return, 7, 0),
            answered(end + 1, Two::Yes)
        );
    }
    assert_eq!(rt; watched.give(EventKind::End, 7, 0), refused(35, 1025));
    Ok(())
}

#[test]
fn misplaced_events(rt: HostRuntime) -> Result<(), Fail> {
    let mut watched = Watched::new(b"before p0", 2)?;
    let fresh = watched.memory;
    assert_eq!(rt; watched.give(EventKind::Step, 3, 1), refused(31, 1));
    assert_eq!(rt; watched.give(EventKind::Call, 0, 1), refused(31, 1));
    assert_eq!(rt; watched.give(EventKind::End, 7, 1), refused(35, 1));
    assert_eq!(rt; watched.give(EventKind::Begin, 7, 1), refused(34, 1));
    assert!(rt; watched.memory == fresh);
    assert_eq!(rt; watched.give(EventKind::Call, 7, 1), answered(1, Two::No));
    let called = watched.memory;
    assert_eq!(rt; watched.give(EventKind::Begin, 8, 0), refused(32, 2));
    assert!(rt; watched.memory == called);
    assert_eq!(rt; watched.give(EventKind::Begin, 7, 0), answered(2, Two::Yes));
    assert_eq!(rt; watched.give(EventKind::End, 8, 1), refused(35, 3));
    assert_eq!(rt; watched.give(EventKind::End, 7, 1), answered(3, Two::No));
    assert_eq!(rt; watched.give(EventKind::Return, 8, 0), refused(33, 4));
    assert_eq!(rt;
        watched.give(EventKind::Return, 7, 0),
        answered(4, Two::Yes)
    );
    Ok(())
}

#[test]
fn short_lists(rt: HostRuntime) -> Result<(), Fail> {
    let rule = rule(RULE)?;
    for list in 1..6 {
        let mut lens = LENS;
        if let Some(len) = lens.get_mut(list - 1) {
            *len = len.saturating_sub(1);
        }
        let mut memory = Memory::new();
        let making = make(&rule, 2, memory.lend(lens));
        assert_eq!(rt;
            making.err().map(shown),
            Some(Refusal {
                number: 21,
                place: list
            })
        );
        assert!(rt; memory == Memory::new());
        let mut watched = Watched::new(RULE, 2)?;
        let fresh = watched.memory;
        watched.lens = lens;
        assert_eq!(rt; watched.give(EventKind::Step, 0, 3), refused(21, list));
        assert!(rt; watched.memory == fresh);
        watched.lens = LENS;
        assert_eq!(rt; watched.give(EventKind::Step, 0, 3), answered(1, Two::No));
        assert_eq!(rt; watched.give(EventKind::Step, 0, 0), answered(2, Two::Yes));
    }
    Ok(())
}

#[test]
fn high_limit(rt: HostRuntime) -> Result<(), Fail> {
    let rule = rule(RULE)?;
    let mut memory = Memory::new();
    let making = make(&rule, MAX_LIMIT + 1, memory.lend([0; 5]));
    assert_eq!(rt;
        making.err().map(shown),
        Some(Refusal {
            number: 20,
            place: 256
        })
    );
    assert!(rt; memory == Memory::new());
    Ok(())
}

// The last event that a watcher accepts, and the one behind it.
#[test]
fn too_many_events(rt: HostRuntime) -> Result<(), Fail> {
    let mut watched = Watched::new(b"step", 0)?;
    for _ in 1..MAX_EVENTS {
        if watched.give(EventKind::Step, 0, 0).is_err() {
            return Err(Fail::new("a step is refused"));
        }
    }
    assert_eq!(rt;
        watched.give(EventKind::Step, 0, 0),
        answered(MAX_EVENTS, Two::Yes)
    );
    assert_eq!(rt;
        watched.give(EventKind::Step, 0, 0),
        refused(37, 16_777_216)
    );
    Ok(())
}

#[test]
fn margins(rt: HostRuntime) -> Result<(), Fail> {
    let rule = rule(b"p0 and not p1")?;
    let mut working = [Margin(0); 4];
    let Ok(mut watcher) = make(&rule, 0, margin_lists(&mut working)) else {
        return Err(Fail::new("the making is refused"));
    };
    let step = Event {
        kind: EventKind::Step,
        routine: 0,
    };
    let points = Points {
        list: &[Some(65), Some(10)],
    };
    let definitions = [definition(0), definition(1)];
    let short = GaugeList {
        points,
        definitions: &definitions[..1],
    };
    let answer = give(&mut watcher, step, &short, margin_lists(&mut working));
    assert_eq!(rt;
        answer.err().map(shown),
        Some(Refusal {
            number: 30,
            place: 1
        })
    );
    let whole = GaugeList {
        points,
        definitions: &definitions,
    };
    let answer = give(&mut watcher, step, &whole, margin_lists(&mut working));
    let Ok(verdict) = answer else {
        return Err(Fail::new("the event is refused"));
    };
    assert_eq!(rt; verdict.number, 1);
    assert_eq!(rt; verdict.value, Margin(15));
    Ok(())
}

// How far a point lies above 25.
fn definition(point: u16) -> Definition {
    Definition {
        point,
        side: Side::Above,
        limit: 25,
    }
}

// The lists of a rule without cells under a depth limit of 0.
fn margin_lists(working: &mut [Margin]) -> Lists<'_, Margin> {
    Lists {
        plain: &mut [],
        routine: &mut [],
        stack: &mut [],
        opened: &mut [],
        working,
    }
}
