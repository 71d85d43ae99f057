// The elements of a list that count, where only the first 64 do.
ghost use Rattle.std.specs.Prelude.{◌≡◌};
ghost use Rattle.readings.specs.Lists.{front};

use crate::source::MOST;

// The front of the list.
pub fn counted<T>(list: &[T]) -> &[T]
    ensures value { result.now ≡ front list.now }
{
    &list[..MOST.min(list.len())]
}
