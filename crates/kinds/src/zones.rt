// The zone kind: a word of 64 zones of the web, zone 0 in the lowest bit, worked bit by bit.
ghost use Rattle.kinds.specs.Zones.{zones, zones_means};
ghost use Rattle.kinds.specs.ZonesLaws.{zones_laws};

use crate::kind::TruthKind;

#[derive(Clone, Copy, PartialEq, Eq, Debug)]
pub struct Zones(pub u64);

impl TruthKind for Zones {
    ghost algebra = { zones };

    ghost means = { zones_means };

    ghost laws = { zones_laws };

    fn truth() -> Zones {
        Zones(u64::MAX)
    }

    fn falsehood() -> Zones {
        Zones(0)
    }

    fn not(self) -> Zones {
        Zones(!self.0)
    }

    fn and(self, other: Zones) -> Zones {
        Zones(self.0 & other.0)
    }

    fn or(self, other: Zones) -> Zones {
        Zones(self.0 | other.0)
    }
}
