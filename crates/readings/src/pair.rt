// The pair of two sources, value by value, as long as the shorter.
ghost use Rattle.readings.specs.Few.{paired_few};
ghost use Rattle.readings.specs.Lists.{paired};

use crate::source::Source;
use kinds::Pair;

#[derive(Drop)]
pub struct PairSource<A, B> {
    pub first: A,
    pub second: B,
}

impl<A: Source, B: Source> Source for PairSource<A, B> {
    type Kind = Pair<A::Kind, B::Kind>;

    ghost readings = { λ s. paired (A.Source.readings s.first) (B.Source.readings s.second) };

    ghost few = { λ s. paired_few (A.Source.readings s.first) (B.Source.readings s.second) (A.Source.few s.first) };

    fn len(&self) -> usize {
        self.first.len().min(self.second.len())
    }

    #[tactic(auto, using(crate::proofs::Places::slice_get_paired))]
    fn value(&self, n: usize) -> Option<Pair<A::Kind, B::Kind>> {
        let first = self.first.value(n)?;
        let second = self.second.value(n)?;
        Some(Pair { first, second })
    }
}
