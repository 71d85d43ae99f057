// A vector of at most `N` elements. The kit's is not `Copy`, and rules and programs are. No model stands in for the fields: one that
// forgets the free places could not be `Copy`.
ghost use Rattle.std.specs.Prelude.{◌≡◌, ◌≤◌, ⊤};

use std::alloc::AllocError;

// The first `len` items are the elements.
#[derive(Copy)]
pub struct FixedVec<T, const N: usize> {
    pub items: [T; N],
    pub len: usize,
    ghost within: { len ≤ N },
}

// Written by hand: a derive of `Clone` is refused for a struct with a parameter and a ghost field.
impl<T: Copy, const N: usize> Clone for FixedVec<T, N> {
    ghost is_clone = { λ v w. w ≡ v };

    ghost is_infallible = { λ _. ⊤ };

    fn clone(&self) -> Result<FixedVec<T, N>, AllocError> {
        Ok(*self)
    }
}
