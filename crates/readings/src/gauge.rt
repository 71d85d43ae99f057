// The points of a gauge and the definitions of what is read from them.
ghost use Rattle.std.specs.Prelude.{◌≡◌};
ghost use Rattle.kinds.specs.Margin.{held, margin_means};
ghost use Rattle.readings.specs.Gauge.{content, difference, kept, reading};

use kinds::Margin;

// The points of a gauge: each has a value or is missing.
#[derive(Clone, Copy)]
pub struct Points<'a> {
    pub list: &'a [Option<u16>],
}

// On which side of its limit a point's value should be.
#[derive(Clone, Copy, PartialEq, Eq, Debug)]
pub enum Side {
    Above,
    Below,
}

// What is read at one place of a gauge list.
#[derive(Clone, Copy, PartialEq, Eq, Debug)]
pub struct Definition {
    pub point: u16,
    pub side: Side,
    pub limit: u16,
}

impl<'a> Points<'a> {
    // The value of a point, or nothing where the point is missing or not listed. Points are asked here and nowhere else.
    pub fn value(&self, point: u16) -> Option<u16>
        ensures value { result ≡ content self.now.list.now point }
    {
        self.list.get(usize::from(point)).copied().flatten()
    }
}

// The margin of a number, held within the ends.
fn margin_of(number: i32) -> Margin
    ensures value { result ≡ kept (held number) }
{
    let end = i32::from(Margin::END);
    // The cast keeps the number, which is within the ends; `try_from` would add a branch that never runs.
    Margin(number.clamp(-end, end) as i16)
}

impl Side {
    // How far the value lies on this side of the limit.
    fn difference(self, value: u16, limit: u16) -> i32
        ensures value { result ≡ difference self value limit }
    {
        let value = i32::from(value);
        let limit = i32::from(limit);
        match self {
            Side::Above => value - limit,
            Side::Below => limit - value,
        }
    }
}

impl Definition {
    // The margin at a point's value; 0 where there is none.
    pub fn margin(&self, value: Option<u16>) -> Margin
        ensures value { result ≡ kept (reading self.now value) }
        ensures means { margin_means result ≡ reading self.now value }
    {
        margin_of(value.map_or(0, |value| self.side.difference(value, self.limit)))
    }
}
