// The values are those that docs and contracts speak of: ends, zeros, and one past each end.
use kind_texts::TextKind;
use kinds::{Margin, Pair, Three, TruthKind, Two, Zones};
use maps::{AtZone, CarryingMap, First, IntoThree, Second, Sign};
use refusal::Refusal;
use std::marker::PhantomData;
use std::process::Abort;
use std::test::Fail;

// The value's text is these bytes; memory one byte too short is refused and left as it was.
fn reads<K: TextKind>(rt: &impl Abort, value: K, text: &[u8]) -> Result<(), Fail> {
    let mut out = [b'?'; 32];
    let n = value
        .write_text(&mut out)
        .map_err(|_| Fail::new("too short"))?;
    assert!(rt; n <= 32 && n > 0);
    assert_eq!(rt; &out[0..n], text);
    let mut short = [b'?'; 32];
    let written = value.write_text(&mut short[0..n - 1]);
    let fault = written.err().ok_or_else(|| Fail::new("written"))?;
    let refusal = Refusal::from(fault);
    assert_eq!(rt; refusal.number, 18);
    assert_eq!(rt; refusal.place, n);
    assert_eq!(rt; short[0], b'?');
    Ok(())
}

#[test]
fn word_texts(rt: HostRuntime) -> Result<(), Fail> {
    reads(&rt, Two::Yes, b"yes")?;
    reads(&rt, Two::No, b"no")?;
    reads(&rt, Three::Unknown, b"unknown")
}

#[test]
fn zone_texts(rt: HostRuntime) -> Result<(), Fail> {
    let table: [(u64, &[u8]); 3] = [
        (!32, b"63 first 5"),
        (u64::MAX, b"64 first none"),
        (0, b"0 first 0"),
    ];
    for (word, text) in table {
        reads(&rt, Zones(word), text)?;
    }
    Ok(())
}

#[test]
fn margin_texts(rt: HostRuntime) -> Result<(), Fail> {
    let table: [(i16, &[u8]); 5] = [
        (37, b"0.3"),
        (-37, b"-0.3"),
        (-4, b"0.0"),
        (32_767, b"327.6"),
        (-32_768, b"-327.6"),
    ];
    for (number, text) in table {
        reads(&rt, Margin(number), text)?;
    }
    Ok(())
}

#[test]
fn margins(rt: HostRuntime) {
    let table = [
        (Margin(-32_768).not(), 32_767),
        (Margin(40).and(Margin(-15).not()), 15),
        (Margin::falsehood().or(Margin(-3)), -3),
        (Margin::falsehood(), -32_767),
    ];
    for (margin, number) in table {
        assert_eq!(rt; margin.held(), number);
    }
    assert_eq!(rt; Margin(-32_768), Margin::falsehood());
}

#[test]
fn other_kinds(rt: HostRuntime) {
    assert_eq!(rt; Two::Yes.and(Two::No.not()), Two::Yes);
    assert_eq!(rt;
        Three::Unknown.or(Three::No).and(Three::Yes),
        Three::Unknown
    );
    assert_eq!(rt; Zones(6).and(Zones(3)), Zones(2));
    let pair = Pair {
        first: Two::Yes,
        second: Margin(7),
    }
    .not();
    assert_eq!(rt; pair.first, Two::No);
    assert_eq!(rt; pair.second, Margin(-7));
}

#[test]
fn signs(rt: HostRuntime) {
    for (number, sign) in [(-1, Three::No), (0, Three::Unknown), (1, Three::Yes)] {
        assert_eq!(rt; Sign.carry(Margin(number)), sign);
    }
    assert_eq!(rt; IntoThree.carry(Two::Yes), Three::Yes);
}

#[test]
fn parts(rt: HostRuntime) {
    let pair = Pair {
        first: Two::Yes,
        second: Three::Unknown,
    };
    assert_eq!(rt; First(PhantomData).carry(pair), Two::Yes);
    assert_eq!(rt; Second(PhantomData).carry(pair), Three::Unknown);
}

#[test]
fn zones_apart(rt: HostRuntime) -> Result<(), Fail> {
    // Numbers of zones, and no places in a list; 64 is one past the last.
    for n in 0..64 {
        let zone = AtZone::new(n).ok_or_else(|| Fail::new("a zone is missing"))?;
        assert_eq!(rt; zone.carry(Zones(1 << n)), Two::Yes);
        assert_eq!(rt; zone.carry(Zones(!(1 << n))), Two::No);
    }
    assert!(rt; AtZone::new(64).is_none());
    Ok(())
}
