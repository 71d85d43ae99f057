// A margin's sign: below 0 no, 0 unknown, above 0 yes.
ghost use Rattle.maps.specs.Sign.{sign};
ghost use Rattle.kinds.specs.Margin.{margin_means};
ghost use Rattle.std.specs.Prelude.{refl};
ghost use Rattle.maps.specs.Signs.{sign_not, sign_lesser, sign_greater};

use crate::map::CarryingMap;
use kinds::{Margin, Three};
use std::cmp::Ordering;

#[derive(Clone, Copy)]
pub struct Sign;

impl CarryingMap for Sign {
    type From = Margin;

    type To = Three;

    ghost carried = { λ _ m. sign (margin_means m) };

    ghost keeps = { λ m.
        record {
          map = sign;
          follows = λ x. refl;
          keeps = record {
            true = refl;
            false = refl;
            not = λ x. sign_not x.value;
            and = λ x y. sign_lesser x.value y.value;
            or = λ x y. sign_greater x.value y.value;
          };
        } };

    fn carry(&self, value: Margin) -> Three {
        match value.held().cmp(&0) {
            Ordering::Less => Three::No,
            Ordering::Equal => Three::Unknown,
            Ordering::Greater => Three::Yes,
        }
    }
}
