// Two watchers of one rule, to the second of which each reading is carried.
use crate::accepted::Accepted;
use crate::case::Case;
use crate::random::Random;
use crate::tally::{Tally, shown};
use crate::watched::Watched;
use kinds::TruthKind;
use maps::CarryingMap;
use reader::Rule;
use readings::{Carried, Source};
use reels::Event;
use refusal::Refusal;
use std::alloc::Global;
use std::fmt::Debug;
use std::io;
use watcher::{Twins, give_both};
use watching::{Verdict, WatchFault};

#[derive(Drop)]
pub struct WatchedTwins<K, L> {
    first: Watched<K>,
    second: Watched<L>,
}

impl<K: TruthKind + PartialEq + Debug, L: TruthKind + PartialEq + Debug> Case
    for WatchedTwins<K, L> {
    fn make(
        alloc: Global,
        rule: &Rule,
        limit: usize,
        random: &mut Random,
        tally: &mut Tally,
    ) -> io::Result<Option<WatchedTwins<K, L>>> {
        let Some(first) = Watched::make(alloc, rule, limit, random, tally)? else {
            return Ok(None);
        };
        let Some(second) = Watched::make(alloc, rule, limit, random, tally)? else {
            return Ok(None);
        };
        Ok(Some(WatchedTwins { first, second }))
    }

    fn accepted(&self) -> &Accepted {
        self.first.accepted()
    }
}

impl<K: TruthKind + PartialEq + Debug, L: TruthKind + PartialEq + Debug> WatchedTwins<K, L> {
    // Gives both watchers an event, and compares each answer with what looking back gives, and the second with the first, carried.
    pub(crate) fn give<M: CarryingMap<From = K, To = L>, S: Source<Kind = K>>(
        &mut self,
        event: Event,
        carried: &Carried<S, M>,
        tally: &mut Tally,
    ) -> io::Result<()> {
        let Twins { first, second } = give_both(
            &mut self.first.watcher,
            &mut self.second.watcher,
            event,
            carried,
            self.first.memory.lend(0),
            self.second.memory.lend(0),
        );
        let wanted = carry(&carried.map, &first);
        let number = self.accepted().len().saturating_add(1);
        tally.compare(number, &second.map_err(shown), &wanted)?;
        self.first.compare(event, &carried.source, 0, first, tally)?;
        self.second.compare(event, carried, 0, second, tally)
    }
}

// The answer of a second watcher that goes with the first one's.
fn carry<M: CarryingMap>(
    map: &M,
    answer: &Result<Verdict<M::From>, WatchFault>,
) -> Result<Verdict<M::To>, Refusal> {
    match answer {
        Ok(verdict) => Ok(Verdict {
            number: verdict.number,
            value: map.carry(verdict.value),
        }),
        Err(fault) => Err(shown(*fault)),
    }
}
