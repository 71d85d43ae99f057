// The three-valued kind: no, unknown, yes.
ghost use Rattle.kinds.specs.Three.{three};
ghost use Rattle.kinds.specs.ThreeLaws.{three_laws};

use crate::kind::TruthKind;

// Each is below those after it.
#[derive(Clone, Copy, PartialEq, Eq, PartialOrd, Ord, Debug)]
pub enum Three {
    No,
    Unknown,
    Yes,
}

impl TruthKind for Three {
    ghost algebra = { three };

    ghost means = { λ x. x };

    ghost laws = { three_laws };

    fn truth() -> Three {
        Three::Yes
    }

    fn falsehood() -> Three {
        Three::No
    }

    fn not(self) -> Three {
        match self {
            Three::No => Three::Yes,
            Three::Unknown => Three::Unknown,
            Three::Yes => Three::No,
        }
    }

    fn and(self, other: Three) -> Three {
        self.min(other)
    }

    fn or(self, other: Three) -> Three {
        self.max(other)
    }
}
