// One zone to two-valued: whether that zone holds.
ghost use Rattle.maps.specs.AtZone.{asked, Asks, two_of};
ghost use Rattle.std.specs.Prelude.{◌≡◌, Bool, true, false, refl};
ghost use Rattle.kinds.specs.Two.{two_means};
ghost use Rattle.kinds.specs.Zones.{bit};

use crate::map::CarryingMap;
use crate::zone::AtZone;
use kinds::{Two, Zones};

impl AtZone {
    // The map that asks for the zone, or nothing where there is no such zone.
    pub fn new(zone: u8) -> Option<AtZone>
        ensures value { Asks zone result }
    {
        // `then` would ask for the same test again, as a clause of its closure.
        if zone < 64 {
            Some(AtZone { zone })
        } else {
            None
        }
    }
}

impl CarryingMap for AtZone {
    type From = Zones;

    type To = Two;

    ghost carried = { asked };

    ghost keeps = { λ m.
        let means_two_of : (b : Bool) → two_means (two_of b) ≡ b = elim [ true ↦ refl | false ↦ refl ] in
        record {
          map = λ v. v (record { index = m.zone; below = m.within });
          follows = λ w. means_two_of (bit w.0 m.zone);
          keeps = record { true = refl; false = refl; not = λ x. refl; and = λ x y. refl; or = λ x y. refl };
        } };

    fn carry(&self, value: Zones) -> Two {
        Two::from((value.0 >> self.zone) & 1 == 1)
    }
}
