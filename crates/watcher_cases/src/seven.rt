// Seven events through a few rules.
use crate::memory::Memory;
use crate::tally::shown;
use kind_texts::TextKind;
use kind_texts::kind::TEXT_LIMIT;
use kinds::Two;
use reader::read;
use readings::Predicates;
use reels::{Event, EventKind};
use std::alloc::Global;
use std::{io, str};
use watcher::{give_two_valued, make};

const RULES: [&str; 6] = [
    "before p1",
    "rbefore p1",
    "once (p0 and before p1)",
    "ronce (p0 and before p1)",
    "rise p0",
    "p1 rsince p0",
];

// Each event with its predicates.
const EVENTS: [(EventKind, u16, u64); 7] = [
    (EventKind::Step, 0, 1),
    (EventKind::Call, 7, 2),
    (EventKind::Begin, 7, 2),
    (EventKind::Step, 0, 1),
    (EventKind::End, 7, 0),
    (EventKind::Return, 7, 2),
    (EventKind::Step, 0, 0),
];

// Prints each rule with its verdicts.
pub(crate) fn show_rules(rt: &impl Print, alloc: Global) -> io::Result<()> {
    for text in RULES {
        show_rule(rt, alloc, text)?;
    }
    Ok(())
}

fn show_rule(rt: &impl Print, alloc: Global, text: &str) -> io::Result<()> {
    let Ok(rule) = read(text.as_bytes()) else {
        return println!(rt; "refused");
    };
    let mut memory = Memory::new(alloc, rule.nodes(), 256)?;
    let Ok(mut watcher) = make(&rule, 256, memory.lend(0)) else {
        return println!(rt; "not made");
    };
    print!(rt; "{text}:")?;
    for (kind, routine, word) in EVENTS {
        let event = Event { kind, routine };
        match give_two_valued(&mut watcher, event, &Predicates(word), memory.lend(0)) {
            Ok(verdict) => show_value(rt, verdict.value)?,
            Err(fault) => print!(rt; " {:?}", shown(fault))?,
        }
    }
    println!(rt; "")
}

// Prints a value behind a space.
fn show_value(rt: &impl Print, value: Two) -> io::Result<()> {
    let mut line = [0; TEXT_LIMIT];
    let len = value.write_text(&mut line).unwrap();
    let text = &line[..len];
    print!(rt; " {}", str::from_utf8(text).unwrap_or("?"))
}
