// The two-valued kind: no and yes.
ghost use Rattle.kinds.specs.Two.{two, two_means};
ghost use Rattle.kinds.specs.TwoLaws.{two_laws};
ghost use Rattle.std.specs.Prelude.{◌≡◌};

use crate::kind::TruthKind;

// No is below yes.
#[derive(Clone, Copy, PartialEq, Eq, PartialOrd, Ord, Debug)]
pub enum Two {
    No,
    Yes,
}

// Yes for true, as a test or a bit gives it.
impl From<bool> for Two {
    ghost from_gives = { λ b x. two_means x ≡ b };

    fn from(test: bool) -> Two {
        if test { Two::Yes } else { Two::No }
    }
}

impl TruthKind for Two {
    ghost algebra = { two };

    ghost means = { two_means };

    ghost laws = { two_laws };

    fn truth() -> Two {
        Two::Yes
    }

    fn falsehood() -> Two {
        Two::No
    }

    fn not(self) -> Two {
        match self {
            Two::No => Two::Yes,
            Two::Yes => Two::No,
        }
    }

    fn and(self, other: Two) -> Two {
        self.min(other)
    }

    fn or(self, other: Two) -> Two {
        self.max(other)
    }
}
