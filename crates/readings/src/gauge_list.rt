// The margins of a gauge: one value for each definition, of which the first 64 count.
ghost use Rattle.readings.specs.Few.{margins_few};
ghost use Rattle.readings.specs.Gauge.{margins};

use crate::carried::Carried;
use crate::front::counted;
use crate::gauge::{Definition, Points};
use crate::source::Source;
use kinds::Margin;
use maps::Sign;

#[derive(Clone, Copy)]
pub struct GaugeList<'a> {
    pub points: Points<'a>,
    pub definitions: &'a [Definition],
}

impl<'a> Source for GaugeList<'a> {
    type Kind = Margin;

    ghost readings = { λ s. margins s.points.list.now s.definitions.now };

    ghost few = { λ s. margins_few s.points.list.now s.definitions.now };

    fn len(&self) -> usize {
        counted(self.definitions).len()
    }

    fn value(&self, n: usize) -> Option<Margin> {
        let definition = counted(self.definitions).get(n)?;
        let value = self.points.value(definition.point);
        Some(definition.margin(value))
    }
}

// The three-valued readings of a gauge: the sign of each margin.
pub type GaugeSigns<'a> = Carried<GaugeList<'a>, Sign>;
