// A bounded stack over a lent slice, for elements of every copyable type.
#![tactic(auto)]

mod calls;

ghost use Rattle.std.specs.Prelude.{◌≡◌, ◌≤◌, min, length};

// The elements stand in the slice's first `len` places, the top last; the places above are free. The memory is lent, since
// nothing here allocates, so what stands in it and how much of it counts are two fields; a `FixedVec` holds its places itself.
// Each call says for itself that the lent slice stays the same loan, and callers need that to know what the slice holds afterwards:
// it relates two states, where a ghost field or a model sees one.
#[derive(Drop)]
pub struct Stack<'a, T> {
    items: &'a mut [T],
    len: usize,
    ghost within: { len ≤ length items.now },
}

// The free places are too few for what was to be pushed. An error of its own, as `Short` is: two calls, and nothing to hold.
#[derive(Clone, Copy, PartialEq, Eq, Debug)]
pub struct Full;

// The elements are fewer than were to be popped.
#[derive(Clone, Copy, PartialEq, Eq, Debug)]
pub struct Short;

impl<'a, T: Copy> Stack<'a, T> {
    // The stack whose elements stand in the slice's first `len` places; a length beyond the slice is cut to the slice's.
    pub fn new(items: &'a mut [T], len: usize) -> Stack<'a, T>
        ensures places { result.items.now ≡ items.old }
        ensures len { result.len ≡ min len (length items.old) }
        ensures lent { result.items.ghost_name ≡ items.entry.ghost_name }
    {
        let len = len.min(items.len());
        Stack { items, len }
    }

    // How many elements the stack has.
    pub fn len(&self) -> usize
        ensures { result ≡ self.now.len }
    {
        self.len
    }
}

#[cfg(test)]
mod tests;
