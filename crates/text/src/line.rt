// A short text under construction.
ghost use Rattle.std.specs.Prelude.{◌≡◌, ◌≤◌, [], ◌++◌, length, take};

use fixed_vec::FixedVec;
use std::marker::Model;

// A text of at most `N` bytes, which the impl below builds without fail. Display could promise no exact text of each value:
// what std says of `write!` holds only where it answers Ok, and it never says that it does.
#[derive(Drop)]
pub struct Line<const N: usize> {
    pub(crate) bytes: FixedVec<u8, N>,
}

// Clauses see the text.
impl<const N: usize> Model for Line<N> {
    ghost use Rattle.std.specs.Prelude.{ℕ, List};
    ghost use Rattle.fixed_vec.specs.Elements.{elements};

    ghost Value = { List ℕ };

    ghost view = { λ l. elements l.bytes };
}

impl<const N: usize> Line<N> {
    // The empty text.
    pub fn new() -> Line<N>
        ensures value { result ≡ [] }
    {
        Line {
            bytes: FixedVec::new(0),
        }
    }

    // The text so far.
    pub fn bytes(&self) -> &[u8]
        ensures value { result.now ≡ self.now }
        ensures within { length self.now ≤ N }
    {
        self.bytes.as_slice()
    }

    // Puts the piece behind the text; what lies past its capacity is cut off.
    pub fn append(&mut self, piece: &[u8])
        ensures value { self.new ≡ take N (self.old ++ piece.now) }
    {
        self.bytes.append(piece);
    }

    // The text with the piece behind it; what lies past its capacity is cut off.
    pub fn add(self, piece: &[u8]) -> Line<N>
        ensures value { result ≡ take N (self.entry ++ piece.now) }
    {
        // Taken apart: a line that is lent to `append` and handed on is copied once more.
        let Line {
            bytes: FixedVec { mut items, len },
        } = self;
        let end = fixed_vec::put(&mut items, len, piece);
        Line {
            bytes: FixedVec { items, len: end },
        }
    }
}
