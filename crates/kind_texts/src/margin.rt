// The text of a margin: its tenths of a percent.
ghost use Rattle.std.specs.Prelude.{◌≡◌};
ghost use Rattle.std.proofs.Common.{ap};
ghost use Rattle.kind_texts.specs.Margin.{margin_text, sign, tenths, tenths_text};
ghost use Rattle.kinds.specs.Margin.{held, margin_means};
ghost use Rattle.kind_texts.specs.Pieces.{length_margin};

use crate::kind::{TEXT_LIMIT, TextKind};
use kinds::Margin;
use text::{Decimal, Line};

// The margin in tenths of a percent, cut toward zero.
fn tenths(margin: Margin) -> i16
    ensures value { result ≡ tenths (held margin.0).value }
{
    margin.held() / 10
}

// What stands before the digits of a number.
fn sign(number: i16) -> &'static [u8]
    ensures value { result.now ≡ sign number }
{
    if number < 0 { b"-" } else { b"" }
}

// A number of tenths, with a point before the last digit.
fn spelled(tenths: i16) -> Line<TEXT_LIMIT>
    ensures value { result ≡ tenths_text tenths }
{
    let size = u64::from(tenths.unsigned_abs());
    let whole = Decimal::new(size / 10);
    let tenth = Decimal::new(size % 10);
    Line::new()
        .add(sign(tenths))
        .add(whole.bytes())
        .add(b".")
        .add(tenth.bytes())
}

impl TextKind for Margin {
    ghost text = { λ m. margin_text (margin_means m) };

    ghost same = { λ x y e. ap margin_text e };

    ghost short = { λ x. length_margin (margin_means x) };

    fn line(self) -> Line<TEXT_LIMIT> {
        spelled(tenths(self))
    }
}
