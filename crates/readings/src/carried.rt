// A source carried by a map: every value is carried, and the length stays.
ghost use Rattle.std.specs.Prelude.{map};
ghost use Rattle.readings.specs.Few.{map_few};

use crate::source::Source;
use maps::CarryingMap;

#[derive(Drop)]
pub struct Carried<S, M> {
    pub source: S,
    pub map: M,
}

impl<S: Source, M: CarryingMap<From = S::Kind>> Source for Carried<S, M> {
    type Kind = M::To;

    ghost readings = { λ s. map (M.CarryingMap.carried s.map) (S.Source.readings s.source) };

    ghost few = { λ s. map_few (M.CarryingMap.carried s.map) (S.Source.readings s.source) (S.Source.few s.source) };

    fn len(&self) -> usize {
        self.source.len()
    }

    fn value(&self, n: usize) -> Option<M::To> {
        self.source.value(n).map(|value| self.map.carry(value))
    }
}
