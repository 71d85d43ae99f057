// A watcher, and beside it all that it has accepted.
use crate::accepted::Accepted;
use crate::case::Case;
use crate::memory::Memory;
use crate::past::Past;
use crate::random::Random;
use crate::tally::{Tally, shown};
use kinds::TruthKind;
use reader::Rule;
use readings::Source;
use reels::Event;
use refusal::Refusal;
use std::alloc::Global;
use std::fmt::Debug;
use std::io;
use watcher::Watcher;
use watching::{Lists, Verdict, WatchFault};
use words::Operator;

#[derive(Drop)]
pub struct Watched<K> {
    pub watcher: Watcher,
    pub memory: Memory<K>,
    past: Past<K>,
    rule: Rule,
    limit: usize,
}

impl<K: TruthKind + PartialEq + Debug> Case for Watched<K> {
    fn make(
        alloc: Global,
        rule: &Rule,
        limit: usize,
        random: &mut Random,
        tally: &mut Tally,
    ) -> io::Result<Option<Watched<K>>> {
        let mut memory = Memory::new(alloc, rule.nodes(), limit)?;
        let short = random.below(5).saturating_add(1) as usize;
        made(rule, limit.saturating_add(257), short, &mut memory, tally)?;
        made(rule, limit, short, &mut memory, tally)?;
        let Some(watcher) = made(rule, limit, 0, &mut memory, tally)? else {
            return Ok(None);
        };
        Ok(Some(Watched {
            watcher,
            memory,
            past: Past::new(alloc, rule.nodes().len()),
            rule: *rule,
            limit,
        }))
    }

    fn accepted(&self) -> &Accepted {
        &self.past.accepted
    }
}

impl<K: TruthKind + PartialEq + Debug> Watched<K> {
    // Gives the watcher an event, with list number `short` one place too short.
    pub(crate) fn give<S: Source<Kind = K>>(
        &mut self,
        event: Event,
        source: &S,
        short: usize,
        tally: &mut Tally,
    ) -> io::Result<()> {
        let answer = watcher::give(&mut self.watcher, event, source, self.memory.lend(short));
        self.compare(event, source, short, answer, tally)
    }

    // Compares the answer to an event with what looking back gives.
    pub(crate) fn compare<S: Source<Kind = K>>(
        &mut self,
        event: Event,
        source: &S,
        short: usize,
        answer: Result<Verdict<K>, WatchFault>,
        tally: &mut Tally,
    ) -> io::Result<()> {
        let number = self.past.accepted.len().saturating_add(1);
        let wanted = match self.refusal(event, source.len(), short) {
            Some(refusal) => {
                tally.refuse(refusal.number);
                Err(refusal)
            }
            None => {
                tally.verdicts = tally.verdicts.saturating_add(1);
                self.past.accept(self.rule.nodes(), event, source)?;
                tally.depth = tally.depth.max(self.past.accepted.depth());
                tally.compare(number, &self.memory.working(), &self.past.latest())?;
                Ok(self.verdict())
            }
        };
        self.memory.spoil(K::truth());
        tally.compare(number, &answer.map_err(shown), &wanted)
    }

    // The verdict that looking back gives at the last event.
    fn verdict(&self) -> Verdict<K> {
        Verdict {
            number: u32::try_from(self.past.accepted.len()).unwrap_or(u32::MAX),
            value: self.past.latest().last().copied().unwrap_or(K::falsehood()),
        }
    }

    // The refusal of an event with so many readings.
    fn refusal(&self, event: Event, readings: usize, short: usize) -> Option<Refusal> {
        if self.memory.has_place(short) {
            return Some(Refusal {
                number: 21,
                place: short,
            });
        }
        let number = match self.past.accepted.refusal(event, self.limit) {
            Some(number) => number,
            None if asks_beyond(&self.rule, readings) => 30,
            None => return None,
        };
        Some(Refusal {
            number,
            place: self.past.accepted.len().saturating_add(1),
        })
    }
}

// Whether the rule has a predicate beyond so many.
fn asks_beyond(rule: &Rule, readings: usize) -> bool {
    rule.nodes().iter().any(|node| {
        matches!(node.word.operator, Operator::Predicate)
            && usize::from(node.word.number) >= readings
    })
}

// Makes a watcher, with list number `short` one place too short, and compares the answer with what a making refuses.
fn made<K: TruthKind>(
    rule: &Rule,
    limit: usize,
    short: usize,
    memory: &mut Memory<K>,
    tally: &mut Tally,
) -> io::Result<Option<Watcher>> {
    let wanted = if limit > 256 {
        Some(Refusal {
            number: 20,
            place: 256,
        })
    } else if memory.has_place(short) {
        Some(Refusal {
            number: 21,
            place: short,
        })
    } else {
        None
    };
    if let Some(refusal) = wanted {
        tally.refuse(refusal.number);
    }
    let (watcher, refusal) = match watcher::make(rule, limit, memory.lend(short)) {
        Ok(watcher) => (Some(watcher), None),
        Err(fault) => (None, Some(shown(fault))),
    };
    tally.compare(0, &refusal, &wanted)?;
    Ok(watcher)
}
