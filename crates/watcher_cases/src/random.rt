// Numbers that look drawn at random, the same at every run.
ghost use Rattle.std.specs.Prelude.{◌≤◌};

// The state is never 0.
#[derive(Drop)]
pub struct Random {
    state: u64,
}

impl Random {
    // The numbers of a seed.
    pub(crate) fn new(seed: u64) -> Random {
        Random { state: seed | 1 }
    }

    // The next number of 64 bits.
    pub(crate) fn next(&mut self) -> u64 {
        let mut state = self.state;
        state ^= state << 13;
        state ^= state >> 7;
        state ^= state << 17;
        self.state = state;
        state.wrapping_mul(0x2545_f491_4f6c_dd1d)
    }

    // A number below the bound; 0 where there is none.
    pub(crate) fn below(&mut self, bound: u32) -> u32
        ensures within { result ≤ bound }
    {
        let drawn = (self.next() >> 32) as u32;
        drawn.checked_rem(bound).unwrap_or(0)
    }

    // True once in so many draws.
    pub(crate) fn once_in(&mut self, draws: u32) -> bool {
        self.below(draws) == 0
    }

    // An element of the list.
    pub(crate) fn element<T: Copy>(&mut self, list: &[T]) -> Option<T> {
        let at = self.below(list.len().min(1000) as u32);
        list.get(at as usize).copied()
    }
}
