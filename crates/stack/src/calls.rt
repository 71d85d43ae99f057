// Pushing and popping, one element or several.
ghost use Rattle.std.specs.Prelude.{◌≡◌, ◌≤◌, ◌-◌, take, drop};
ghost use Rattle.stack.specs.Calls.{places, Pushed, Popped, PushedAll, PoppedAll};

use super::{Full, Short, Stack};

impl<'a, T: Copy> Stack<'a, T> {
    // Puts `x` on top; a full stack hands it back.
    pub fn push(&mut self, x: T) -> Result<(), T>
        ensures pushed { Pushed self.old x result self.new }
        ensures lent { self.new.items.ghost_name ≡ self.old.items.ghost_name }
    {
        if self.len == self.items.len() {
            return Err(x);
        }
        self.items[self.len] = x;
        self.len += 1;
        Ok(())
    }

    // Takes the top off; an empty stack gives nothing.
    pub fn pop(&mut self) -> Option<T>
        ensures popped { Popped self.old result self.new }
        ensures lent { self.new.items.ghost_name ≡ self.old.items.ghost_name }
    {
        self.len = self.len.checked_sub(1)?;
        Some(self.items[self.len])
    }

    // Puts all of `xs` on top, in order, as one push after another would; without room for all, none.
    pub fn push_all(&mut self, xs: &[T]) -> Result<(), Full>
        ensures pushed { PushedAll self.old xs.now result self.new }
        ensures lent { self.new.items.ghost_name ≡ self.old.items.ghost_name }
    {
        if self.items.len() - self.len < xs.len() {
            return Err(Full);
        }
        let end = self.len + xs.len();
        self.items[self.len..end].copy_from_slice(xs);
        self.len = end;
        Ok(())
    }

    // The topmost elements, the lowest of them first.
    fn top(&self, count: usize) -> &[T]
        requires { count ≤ self.now.len }
        ensures { result.now ≡ take count (drop (self.now.len - count) (places self.now)) }
    {
        &self.items[self.len - count..self.len]
    }

    // Takes as many elements off the top as `out` has places, and leaves them in `out` in the order in which they
    // were pushed; with fewer elements, takes none.
    pub fn pop_all(&mut self, out: &mut [T]) -> Result<(), Short>
        ensures popped { PoppedAll self.old out.old result self.new out.new }
        ensures lent { self.new.items.ghost_name ≡ self.old.items.ghost_name }
    {
        if self.len < out.len() {
            return Err(Short);
        }
        let top = self.top(out.len());
        out.copy_from_slice(top);
        self.len -= out.len();
        Ok(())
    }
}
