// The margin kind: how far a reading lies inside its limit, in hundredths of a percent of moisture.
ghost use Rattle.std.specs.Prelude.{◌≡◌};
ghost use Rattle.std.specs.Ordering.{int_eq, on};
ghost use Rattle.kinds.specs.Margin.{margin, margin_means, held};
ghost use Rattle.kinds.specs.MarginLaws.{margin_laws};
ghost use Rattle.std.specs.Cmp.Rules.{comparing};
ghost use Rattle.std.proofs.Common.{rules};
ghost use Rattle.std.specs.Cmp as Keys;

use crate::kind::TruthKind;

// A margin as lists keep it: a plain number. One beyond the ends means that end.
#[derive(Clone, Copy, Debug)]
pub struct Margin(pub i16);

impl Margin {
    // The greatest margin; the least is its negation.
    pub const END: i16 = 32_767;

    // The number that is meant.
    pub fn held(self) -> i16
        ensures value { result ≡ (held self.0).value }
    {
        self.0.clamp(-Margin::END, Margin::END)
    }
}

// Margins are compared by what they mean; a derive would compare the numbers that lists keep.
impl PartialEq for Margin {
    ghost eq = { on (λ x. (held x.0).value) int_eq };

    ghost laws = { Keys.partial_equiv_from_equiv (Prim.search (comparing, rules)) };

    fn eq(&self, other: &Margin) -> bool {
        self.held() == other.held()
    }
}

impl Eq for Margin {
    ghost laws = { Prim.search (comparing, rules) };
}

impl TruthKind for Margin {
    ghost algebra = { margin };

    ghost means = { margin_means };

    ghost laws = { margin_laws };

    fn truth() -> Margin {
        Margin(Margin::END)
    }

    fn falsehood() -> Margin {
        Margin(-Margin::END)
    }

    fn not(self) -> Margin {
        Margin(-self.held())
    }

    fn and(self, other: Margin) -> Margin {
        Margin(self.0.min(other.0))
    }

    fn or(self, other: Margin) -> Margin {
        Margin(self.0.max(other.0))
    }
}
