// Rules drawn at random, each run through events drawn at random.
use crate::case::Case;
use crate::draws::Draw;
use crate::events::{Odds, event};
use crate::random::Random;
use crate::rule_texts::rule_text;
use crate::tally::Tally;
use reader::{Rule, read};
use refusal::Refusal;
use std::alloc::Global;
use std::io;

// How many rules and events are drawn, and how deep routines may lie.
#[derive(Clone, Copy)]
pub struct Trial {
    pub rules: u64,
    pub events: u32,
    pub limits: &'static [usize],
    // Whether calls are far more than ends in the first half of the events, and far fewer in the second.
    pub climbs: bool,
}

impl Trial {
    // Runs all of it, and prints what was counted.
    pub(crate) fn run<D: Draw>(
        self,
        rt: &impl Print,
        alloc: Global,
        random: &mut Random,
        name: &str,
    ) -> io::Result<()> {
        let mut tally = Tally::new(alloc);
        for _ in 0..self.rules.saturating_mul(2) {
            if tally.rules == self.rules {
                break;
            }
            let text = rule_text(alloc, random)?;
            match read(text.as_slice()) {
                Ok(rule) => {
                    tally.begin(text.as_slice())?;
                    self.run_rule::<D>(alloc, &rule, random, &mut tally)?;
                }
                Err(fault) => tally.refuse(Refusal::from(fault).number),
            }
        }
        tally.show(rt, name)
    }

    // Runs one rule through its events.
    fn run_rule<D: Draw>(
        self,
        alloc: Global,
        rule: &Rule,
        random: &mut Random,
        tally: &mut Tally,
    ) -> io::Result<()> {
        let limit = random.element(self.limits).unwrap_or(256);
        let Some(mut case) = D::Case::make(alloc, rule, limit, random, tally)? else {
            return Ok(());
        };
        let odds = Odds {
            calls: random.below(4).saturating_add(1),
            ends: random.below(4).saturating_add(1),
        };
        for at in 0..self.events {
            tally.events = tally.events.saturating_add(1);
            let event = event(case.accepted(), self.odds_at(at, odds), random);
            D::give(random, event, &mut case, tally)?;
        }
        Ok(())
    }

    // The odds at an event.
    fn odds_at(self, at: u32, odds: Odds) -> Odds {
        if !self.climbs {
            return odds;
        }
        if at < self.events / 2 {
            Odds { calls: 30, ends: 1 }
        } else {
            Odds { calls: 1, ends: 30 }
        }
    }
}
