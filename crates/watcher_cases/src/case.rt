// What a rule is run through: one watcher, or two side by side.
use crate::accepted::Accepted;
use crate::random::Random;
use crate::tally::Tally;
use reader::Rule;
use std::alloc::Global;
use std::io;

pub trait Case: Drop {
    // Makes it of a rule, under a depth limit; nothing where a watcher differs from what it should do.
    fn make(
        alloc: Global,
        rule: &Rule,
        limit: usize,
        random: &mut Random,
        tally: &mut Tally,
    ) -> io::Result<Option<Self>>;

    // The events that were accepted.
    fn accepted(&self) -> &Accepted;
}
