// What a kind with a text is.
ghost use Rattle.std.specs.Prelude.{◌≡◌, ℕ, ◌≤◌, List, length};
ghost use Rattle.text.specs.Writing.{Written};

use kinds::TruthKind;
use text::{Line, WriteFault, write};

// The most bytes that a text of any kind has.
pub const TEXT_LIMIT: usize = 32;

// No `Display`, for the reason that stands at `Line`.
pub trait TextKind: TruthKind {
    // The text of a value.
    ghost text: { Self → List ℕ };

    // The value's text.
    fn line(self) -> Line<TEXT_LIMIT>
        ensures value { result ≡ text self };

    // Writes the value's text into the memory lent, or refuses and writes nothing.
    final fn write_text(self, out: &mut [u8]) -> Result<usize, WriteFault>
        ensures written { Written out.old out.new (text self) result }
    {
        write(out, self.line().bytes())
    }

    // Values that mean the same have the same text.
    ghost same: { (x y : Self) → Self.TruthKind.means x ≡ Self.TruthKind.means y → text x ≡ text y };

    // A text fits a line.
    ghost short: { (x : Self) → length (text x) ≤ 32 };
}
