// Every source on small examples, and a use of any source together with the stack.
ghost use Rattle.std.specs.Prelude.{◌≡◌, ◌<◌, length, MatchOption, slice_set};
ghost use Rattle.std.specs.List.{slice_get};

use super::*;
use kinds::{Margin, Three, Two, Zones};
use maps::Sign;
use stack::Stack;

// Value number n of any source, left as the lowest element of a stack of values of its kind.
fn keep<S: Source>(source: &S, n: usize, list: &mut [S::Kind]) -> Option<S::Kind>
    ensures value { result ≡ slice_get (S.Source.readings source.now) n }
    ensures kept { MatchOption result (list.new ≡ list.old) (λ v. (0 < length list.old → list.new ≡ slice_set list.old 0 v)) }
{
    let value = source.value(n)?;
    let mut values = Stack::new(list, 0);
    let _ = values.push(value);
    Some(value)
}

#[test]
fn predicates(rt: HostRuntime) {
    let word = Predicates(1 << 63 | 2);
    assert_eq!(rt; word.len(), 64);
    assert_eq!(rt; word.value(0), Some(Two::No));
    assert_eq!(rt; word.value(1), Some(Two::Yes));
    assert_eq!(rt; word.value(63), Some(Two::Yes));
    assert_eq!(rt; word.value(64), None);
}

#[test]
fn first_64_zone_words(rt: HostRuntime) {
    let mut words = [Zones(5); 65];
    words[63] = Zones(7);
    let zones = ZoneList { words: &words };
    assert_eq!(rt; zones.len(), 64);
    assert_eq!(rt; zones.value(63), Some(Zones(7)));
    assert_eq!(rt; zones.value(64), None);
    let mut list = [Zones(0)];
    assert_eq!(rt; keep(&zones, 63, &mut list), Some(Zones(7)));
    assert_eq!(rt; list[0], Zones(7));
}

#[test]
fn gauges(rt: HostRuntime) {
    let points = Points {
        list: &[Some(65_535), None, Some(40)],
    };
    let above = Definition {
        point: 0,
        side: Side::Above,
        limit: 0,
    };
    let definitions = [
        above,
        Definition {
            side: Side::Below,
            ..above
        },
        Definition { point: 1, ..above },
        Definition { point: 3, ..above },
        Definition {
            point: 2,
            side: Side::Below,
            limit: 25,
        },
    ];
    let gauge = GaugeList {
        points,
        definitions: &definitions,
    };
    assert_eq!(rt; gauge.len(), 5);
    assert_eq!(rt; gauge.value(0), Some(Margin(32_767)));
    assert_eq!(rt; gauge.value(1), Some(Margin(-32_767)));
    assert_eq!(rt; gauge.value(2), Some(Margin(0)));
    assert_eq!(rt; gauge.value(3), Some(Margin(0)));
    assert_eq!(rt; gauge.value(4), Some(Margin(-15)));
    assert_eq!(rt; gauge.value(5), None);
    let signs = GaugeSigns {
        source: gauge,
        map: Sign,
    };
    assert_eq!(rt; signs.value(0), Some(Three::Yes));
    assert_eq!(rt; signs.value(3), Some(Three::Unknown));
    assert_eq!(rt; signs.value(4), Some(Three::No));
    let both = PairSource {
        first: signs,
        second: Predicates(1),
    };
    assert_eq!(rt; both.len(), 5);
    assert!(rt; both.value(5).is_none());
}
