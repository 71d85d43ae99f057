// A watcher: a rule made ready to run, and how far the nesting of its events has come. Its cells and its stack lie in the
// lists that are lent to its calls.
ghost use Rattle.std.specs.Prelude.{◌+◌, ◌≤◌};
ghost use Rattle.watching.specs.Faults.{max_limit, max_events};
ghost use Rattle.monitor.specs.Room.{begin_due};

use program::Program;
use watching::Nesting;

#[derive(Clone, Copy)]
pub struct Watcher {
    pub(crate) program: Program,
    pub(crate) nesting: Nesting,
    ghost limited: { nesting.limit ≤ max_limit },
    ghost roomy: { begin_due nesting.due + nesting.depth ≤ nesting.limit },
    ghost counted: { nesting.accepted ≤ max_events },
}
