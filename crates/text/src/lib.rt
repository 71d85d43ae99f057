// Text in lent memory: one call that writes a text, and what texts are built from.
#![tactic(auto)]

ghost use Rattle.std.specs.Prelude.{◌≡◌};
ghost use Rattle.text.specs.Writing.{Written, number_of, place_of};

pub mod decimal;
pub mod line;

pub use decimal::Decimal;
pub use fixed_vec::put;
pub use line::Line;
use refusal::Refusal;

// Why a text was not written.
#[derive(Clone, Copy, PartialEq, Eq, Debug)]
pub enum WriteFault {
    // The memory lent is shorter than the text, which has this length.
    TooShort(usize),
}

// The place is the length that the memory needs.
impl From<WriteFault> for Refusal {
    ghost from_gives = { λ fault refusal. refusal ≡ record { number = number_of fault; place = place_of fault } };

    fn from(fault: WriteFault) -> Refusal {
        let (number, place) = match fault {
            WriteFault::TooShort(needed) => (18, needed),
        };
        Refusal { number, place }
    }
}

// Writes the piece at the front of the memory and answers its length, or refuses and writes nothing.
pub fn write(out: &mut [u8], piece: &[u8]) -> Result<usize, WriteFault>
    ensures written { Written out.old out.new piece.now result }
{
    let needed = piece.len();
    if out.len() < needed {
        return Err(WriteFault::TooShort(needed));
    }
    out[0..needed].copy_from_slice(piece);
    Ok(needed)
}
