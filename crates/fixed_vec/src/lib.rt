// Vectors of at most so many elements, which lie in the value itself: they never allocate, and are copied as they are.
#![tactic(auto)]

mod vec;

ghost use Rattle.std.specs.Prelude.{◌≡◌, [], ◌∷◌, ◌++◌, length, take, drop, MatchResult};
ghost use Rattle.fixed_vec.specs.Elements.{elements, joined};

pub use vec::FixedVec;

impl<T: Copy, const N: usize> FixedVec<T, N> {
    // The empty vector. Places that hold no element hold `blank`.
    pub fn new(blank: T) -> FixedVec<T, N>
        ensures value { elements result ≡ [] }
    {
        FixedVec {
            items: [blank; N],
            len: 0,
        }
    }

    // The elements, in order.
    pub fn as_slice(&self) -> &[T]
        ensures value { result.now ≡ elements self.now }
    {
        let places = &self.items[..];
        &places[..self.len]
    }

    // How many elements there are.
    pub fn len(&self) -> usize
        ensures value { result ≡ length (elements self.now) }
    {
        self.as_slice().len()
    }

    // Puts `x` behind the others; a full vector hands it back.
    pub fn push(&mut self, x: T) -> Result<(), T>
        ensures pushed { MatchResult result (λ _. elements self.new ≡ elements self.old ++ x ∷ []) (λ y. (y ≡ x) × (length (elements self.old) ≡ N) × (elements self.new ≡ elements self.old)) }
    {
        if self.len >= N {
            return Err(x);
        }
        self.items[self.len] = x;
        self.len += 1;
        Ok(())
    }

    // Puts `xs` behind the others, as far as there is room.
    pub fn append(&mut self, xs: &[T])
        ensures value { elements self.new ≡ take N (elements self.old ++ xs.now) }
    {
        self.len = put(&mut self.items, self.len, xs);
    }
}

// Writes the piece behind the first `at` elements of the buffer, as far as there is room, and answers the place behind it.
pub fn put<T: Copy>(buffer: &mut [T], at: usize, piece: &[T]) -> usize
    ensures place { result ≡ length (joined buffer.old at piece.now) }
    ensures memory { buffer.new ≡ joined buffer.old at piece.now ++ drop result buffer.old }
{
    let from = at.min(buffer.len());
    let count = piece.len().min(buffer.len() - from);
    let end = from + count;
    buffer[from..end].copy_from_slice(&piece[0..count]);
    end
}
