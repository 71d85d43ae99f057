// The text of a zone word: how many zones hold and the lowest that does not.
ghost use Rattle.std.specs.Prelude.{◌≡◌};
ghost use Rattle.std.proofs.Common.{ap};
ghost use Rattle.kind_texts.specs.Zones.{zone_text, counted_text};
ghost use Rattle.kinds.specs.Zones.{zones_means};
ghost use Rattle.kind_texts.specs.Pieces.{length_zone};

use crate::kind::{TEXT_LIMIT, TextKind};
use kinds::Zones;
use text::{Decimal, Line};

// The text for a count of zones that hold and the lowest zone that does not: 64 for none, as `trailing_zeros` answers.
fn spelled(count: u32, lowest: u32) -> Line<TEXT_LIMIT>
    ensures value { result ≡ counted_text count lowest }
{
    let count = Decimal::new(u64::from(count));
    let digits = Decimal::new(u64::from(lowest));
    let word: &[u8] = if lowest == 64 {
        b"none"
    } else {
        digits.bytes()
    };
    Line::new().add(count.bytes()).add(b" first ").add(word)
}

impl TextKind for Zones {
    ghost text = { λ w. zone_text (zones_means w) };

    ghost same = { λ x y e. ap zone_text e };

    ghost short = { λ x. length_zone (zones_means x) };

    fn line(self) -> Line<TEXT_LIMIT> {
        spelled(self.0.count_ones(), (!self.0).trailing_zeros())
    }
}
