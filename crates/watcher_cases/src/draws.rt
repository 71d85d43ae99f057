// Readings drawn at random, of every kind and over every map.
use crate::case::Case;
use crate::random::Random;
use crate::tally::Tally;
use crate::twins::WatchedTwins;
use crate::watched::Watched;
use kinds::{Margin, Pair, Three, Two, Zones};
use maps::{AtZone, First, IntoThree, Second, Sign};
use readings::{
    Carried, Definition, GaugeList, GaugeSigns, PairSource, Points, Predicates, Side, ZoneList,
};
use reels::Event;
use std::io;
use std::marker::PhantomData;

// The zone that is asked for.
const ZONE: u8 = 17;

// Draws a reading and gives it to a case, with an event.
pub trait Draw {
    type Case: Case;

    fn give(
        random: &mut Random,
        event: Event,
        case: &mut Self::Case,
        tally: &mut Tally,
    ) -> io::Result<()>;
}

// The number of a list that is to be too short: mostly none.
fn short(random: &mut Random) -> usize {
    if random.once_in(40) {
        return random.below(6) as usize;
    }
    0
}

// How many values a reading has: mostly all.
fn len(random: &mut Random) -> usize {
    if random.once_in(10) {
        return random.below(65) as usize;
    }
    64
}

// A word, with as many zeros as ones.
fn predicates(random: &mut Random) -> Predicates {
    Predicates(random.next())
}

fn zones(random: &mut Random) -> [Zones; 64] {
    let mut words = [Zones(0); 64];
    for word in words.iter_mut() {
        *word = Zones(random.next());
    }
    words
}

// Points of which some are missing, and a few far above all limits.
fn points(random: &mut Random) -> [Option<u16>; 8] {
    let mut points = [None; 8];
    for point in points.iter_mut() {
        *point = match random.below(16) {
            0 => None,
            1 => Some(65_535),
            _ => Some(random.below(200) as u16),
        };
    }
    points
}

fn definitions(random: &mut Random) -> [Definition; 64] {
    let blank = Definition {
        point: 0,
        side: Side::Above,
        limit: 0,
    };
    let mut definitions = [blank; 64];
    for definition in definitions.iter_mut() {
        definition.point = random.below(9) as u16;
        definition.limit = random.below(200) as u16;
        if random.once_in(2) {
            definition.side = Side::Below;
        }
    }
    definitions
}

fn zone_list<'a>(words: &'a [Zones], len: usize) -> ZoneList<'a> {
    ZoneList {
        words: words.get(..len).unwrap_or(words),
    }
}

fn gauge<'a>(
    points: &'a [Option<u16>],
    definitions: &'a [Definition],
    len: usize,
) -> GaugeList<'a> {
    GaugeList {
        points: Points { list: points },
        definitions: definitions.get(..len).unwrap_or(definitions),
    }
}

// One watcher of each kind.
pub struct TwoValued;

impl Draw for TwoValued {
    type Case = Watched<Two>;

    fn give(
        random: &mut Random,
        event: Event,
        case: &mut Watched<Two>,
        tally: &mut Tally,
    ) -> io::Result<()> {
        case.give(event, &predicates(random), short(random), tally)
    }
}

pub struct ThreeValued;

impl Draw for ThreeValued {
    type Case = Watched<Three>;

    fn give(
        random: &mut Random,
        event: Event,
        case: &mut Watched<Three>,
        tally: &mut Tally,
    ) -> io::Result<()> {
        let points = points(random);
        let definitions = definitions(random);
        let source = GaugeSigns {
            source: gauge(&points, &definitions, len(random)),
            map: Sign,
        };
        case.give(event, &source, short(random), tally)
    }
}

pub struct ZoneWords;

impl Draw for ZoneWords {
    type Case = Watched<Zones>;

    fn give(
        random: &mut Random,
        event: Event,
        case: &mut Watched<Zones>,
        tally: &mut Tally,
    ) -> io::Result<()> {
        let words = zones(random);
        let source = zone_list(&words, len(random));
        case.give(event, &source, short(random), tally)
    }
}

pub struct Margins;

impl Draw for Margins {
    type Case = Watched<Margin>;

    fn give(
        random: &mut Random,
        event: Event,
        case: &mut Watched<Margin>,
        tally: &mut Tally,
    ) -> io::Result<()> {
        let points = points(random);
        let definitions = definitions(random);
        let source = gauge(&points, &definitions, len(random));
        case.give(event, &source, short(random), tally)
    }
}

pub struct Pairs;

impl Draw for Pairs {
    type Case = Watched<Pair<Zones, Margin>>;

    fn give(
        random: &mut Random,
        event: Event,
        case: &mut Watched<Pair<Zones, Margin>>,
        tally: &mut Tally,
    ) -> io::Result<()> {
        let words = zones(random);
        let points = points(random);
        let definitions = definitions(random);
        let source = PairSource {
            first: zone_list(&words, len(random)),
            second: gauge(&points, &definitions, 64),
        };
        case.give(event, &source, short(random), tally)
    }
}

// Two watchers over each map.
pub struct OverSign;

impl Draw for OverSign {
    type Case = WatchedTwins<Margin, Three>;

    fn give(
        random: &mut Random,
        event: Event,
        case: &mut WatchedTwins<Margin, Three>,
        tally: &mut Tally,
    ) -> io::Result<()> {
        let points = points(random);
        let definitions = definitions(random);
        let carried = Carried {
            source: gauge(&points, &definitions, len(random)),
            map: Sign,
        };
        case.give(event, &carried, tally)
    }
}

pub struct OverIntoThree;

impl Draw for OverIntoThree {
    type Case = WatchedTwins<Two, Three>;

    fn give(
        random: &mut Random,
        event: Event,
        case: &mut WatchedTwins<Two, Three>,
        tally: &mut Tally,
    ) -> io::Result<()> {
        let carried = Carried {
            source: predicates(random),
            map: IntoThree,
        };
        case.give(event, &carried, tally)
    }
}

pub struct OverAtZone;

impl Draw for OverAtZone {
    type Case = WatchedTwins<Zones, Two>;

    fn give(
        random: &mut Random,
        event: Event,
        case: &mut WatchedTwins<Zones, Two>,
        tally: &mut Tally,
    ) -> io::Result<()> {
        let words = zones(random);
        let Some(map) = AtZone::new(ZONE) else {
            return Ok(());
        };
        let carried = Carried {
            source: zone_list(&words, len(random)),
            map,
        };
        case.give(event, &carried, tally)
    }
}

pub struct OverFirst;

impl Draw for OverFirst {
    type Case = WatchedTwins<Pair<Two, Margin>, Two>;

    fn give(
        random: &mut Random,
        event: Event,
        case: &mut WatchedTwins<Pair<Two, Margin>, Two>,
        tally: &mut Tally,
    ) -> io::Result<()> {
        let points = points(random);
        let definitions = definitions(random);
        let carried = Carried {
            source: PairSource {
                first: predicates(random),
                second: gauge(&points, &definitions, len(random)),
            },
            map: First(PhantomData),
        };
        case.give(event, &carried, tally)
    }
}

pub struct OverSecond;

impl Draw for OverSecond {
    type Case = WatchedTwins<Pair<Two, Margin>, Margin>;

    fn give(
        random: &mut Random,
        event: Event,
        case: &mut WatchedTwins<Pair<Two, Margin>, Margin>,
        tally: &mut Tally,
    ) -> io::Result<()> {
        let points = points(random);
        let definitions = definitions(random);
        let carried = Carried {
            source: PairSource {
                first: predicates(random),
                second: gauge(&points, &definitions, len(random)),
            },
            map: Second(PhantomData),
        };
        case.give(event, &carried, tally)
    }
}
