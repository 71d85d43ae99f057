// Two-valued into three-valued: no to no, yes to yes.
ghost use Rattle.maps.specs.IntoThree.{widened};
ghost use Rattle.std.specs.Prelude.{true, false, refl};
ghost use Rattle.kinds.specs.declared.two.Two.TheVariants.{No, Yes};
ghost use Rattle.maps.specs.AtZone.{two_of};

use crate::map::CarryingMap;
use kinds::{Three, Two};

#[derive(Clone, Copy)]
pub struct IntoThree;

impl CarryingMap for IntoThree {
    type From = Two;

    type To = Three;

    ghost carried = { λ _. widened };

    ghost keeps = { λ m.
        record {
          map = λ b. widened (two_of b);
          follows = elim [ No ↦ refl | Yes ↦ refl ];
          keeps = record {
            true = refl;
            false = refl;
            not = elim [ true ↦ refl | false ↦ refl ];
            and = elim [ true ↦ λ y. refl | false ↦ λ y. refl ];
            or = elim [ true ↦ λ y. refl | false ↦ λ y. refl ];
          };
        } };

    // A `From` of these two would only move this match: nothing else widens a value.
    fn carry(&self, value: Two) -> Three {
        match value {
            Two::No => Three::No,
            Two::Yes => Three::Yes,
        }
    }
}
