// Runs watchers, seven events through a few rules, and rules and events drawn at random, each answer beside that of a small
// evaluator which keeps all history and looks back; what is printed is held to the file `stdout`.
#![tactic(auto)]

mod accepted;
mod case;
mod draws;
mod events;
mod memory;
mod past;
mod random;
mod rule_texts;
mod seven;
mod tally;
mod trials;
mod twins;
mod watched;

use draws::{
    Margins, OverAtZone, OverFirst, OverIntoThree, OverSecond, OverSign, Pairs, ThreeValued,
    TwoValued, ZoneWords,
};
use random::Random;
use std::io;
use trials::Trial;

const WIDE: Trial = Trial {
    rules: 2000,
    events: 100,
    limits: &[0, 1, 2, 4, 256],
    climbs: false,
};

const DEEP: Trial = Trial {
    rules: 12,
    events: 1600,
    limits: &[16, 256, 256],
    climbs: true,
};

fn main(rt: HostRuntime) -> io::Result<()> {
    let alloc = rt.alloc();
    seven::show_rules(&rt, alloc)?;
    let mut random = Random::new(20_481);
    WIDE.run::<TwoValued>(&rt, alloc, &mut random, "two-valued")?;
    DEEP.run::<TwoValued>(&rt, alloc, &mut random, "two-valued, deep")?;
    let share = Trial {
        rules: 200,
        events: 50,
        ..WIDE
    };
    share.run::<ThreeValued>(&rt, alloc, &mut random, "three-valued")?;
    share.run::<ZoneWords>(&rt, alloc, &mut random, "zones")?;
    share.run::<Margins>(&rt, alloc, &mut random, "margins")?;
    share.run::<Pairs>(&rt, alloc, &mut random, "pairs")?;
    share.run::<OverSign>(&rt, alloc, &mut random, "sign of a margin")?;
    share.run::<OverIntoThree>(&rt, alloc, &mut random, "two-valued into three-valued")?;
    share.run::<OverAtZone>(&rt, alloc, &mut random, "one zone")?;
    share.run::<OverFirst>(&rt, alloc, &mut random, "first of a pair")?;
    share.run::<OverSecond>(&rt, alloc, &mut random, "second of a pair")
}
