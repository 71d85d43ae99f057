// A word of 64 two-valued predicates: predicate N is bit N, bit 0 the lowest.
ghost use Rattle.readings.specs.Few.{bits_few};
ghost use Rattle.readings.specs.Lists.{bits};

use crate::source::{MOST, Source};
use kinds::Two;

#[derive(Clone, Copy, PartialEq, Eq, Debug)]
pub struct Predicates(pub u64);

impl Source for Predicates {
    type Kind = Two;

    ghost readings = { λ w. bits w.0 };

    ghost few = { λ w. bits_few w.0 };

    fn len(&self) -> usize {
        MOST
    }

    fn value(&self, n: usize) -> Option<Two> {
        (n < MOST).then(|| Two::from((self.0 >> n) & 1 == 1))
    }
}
