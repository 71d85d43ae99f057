// The pair of two kinds, worked part by part.
ghost use Rattle.kinds.specs.Pair.{both};
ghost use Rattle.kinds.specs.PairLaws.{both_laws};

use crate::kind::TruthKind;

#[derive(Clone, Copy, PartialEq, Eq, Debug)]
pub struct Pair<A, B> {
    pub first: A,
    pub second: B,
}

impl<A: TruthKind, B: TruthKind> TruthKind for Pair<A, B> {
    ghost algebra = { both A.TruthKind.algebra B.TruthKind.algebra };

    ghost means = { λ p. (A.TruthKind.means p.first, B.TruthKind.means p.second) };

    ghost laws = { both_laws A.TruthKind.algebra B.TruthKind.algebra A.TruthKind.laws B.TruthKind.laws };

    fn truth() -> Pair<A, B> {
        Pair {
            first: A::truth(),
            second: B::truth(),
        }
    }

    fn falsehood() -> Pair<A, B> {
        Pair {
            first: A::falsehood(),
            second: B::falsehood(),
        }
    }

    fn not(self) -> Pair<A, B> {
        Pair {
            first: self.first.not(),
            second: self.second.not(),
        }
    }

    fn and(self, other: Pair<A, B>) -> Pair<A, B> {
        Pair {
            first: self.first.and(other.first),
            second: self.second.and(other.second),
        }
    }

    fn or(self, other: Pair<A, B>) -> Pair<A, B> {
        Pair {
            first: self.first.or(other.first),
            second: self.second.or(other.second),
        }
    }
}
