// A watcher's calls, exactly: an event is judged, the values of its rule's nodes are evaluated, and what the next event needs
// is kept. Crate `watcher` says what whole runs of these calls come to.
#![tactic(auto)]

mod commit;
mod evaluate;
mod events;
mod fresh;
mod judge;
mod watcher;

ghost use Rattle.std.specs.Prelude.{◌≡◌, IfOk};
ghost use Rattle.watching.specs.Calls.{Made, Given};
ghost use Rattle.monitor.specs.Nestings.{nesting_in};
ghost use Rattle.monitor.specs.Own.{own};

use commit::{keep, keep_routine, next_nesting};
use evaluate::{evaluate, last_value};
use fresh::{Side, write_fresh};
use judge::{judge, short_list};
use kinds::TruthKind;
use program::Program;
use reader::Rule;
use readings::Source;
use reels::Event;
pub use watcher::Watcher;
use watching::{MAX_LIMIT, Nesting, OpenRoutine, Verdict, WatchFault};

impl Watcher {
    // The rule that is watched.
    pub fn rule(&self) -> &Rule
        ensures value { result.now ≡ self.now.program.rule }
    {
        self.program.rule()
    }

    // Makes a watcher of a program: its cells are fresh, and every other place of every list stays as it was.
    pub fn new<K: TruthKind>(
        program: Program,
        limit: usize,
        plain: &mut [K],
        routine: &mut [K],
        stack: &mut [K],
        opened: &mut [OpenRoutine],
        working: &mut [K],
    ) -> Result<Watcher, WatchFault>
        ensures made { Made K.TruthKind.algebra K.TruthKind.means program limit (own plain.old routine.old stack.old opened.old) working.old (nesting_in result) (own plain.new routine.new stack.new opened.new) working.new }
        ensures program { IfOk result (λ w. w.program ≡ program) }
    {
        if limit > MAX_LIMIT {
            return Err(WatchFault::LimitTooHigh);
        }
        if let Some(list) = short_list(&program, limit, plain, routine, stack, opened, working) {
            return Err(WatchFault::ListTooShort(list));
        }
        write_fresh(program.steps(), Side::Plain, plain);
        write_fresh(program.steps(), Side::Routine, routine);
        Ok(Watcher {
            program,
            nesting: Nesting {
                limit,
                accepted: 0,
                depth: 0,
                due: None,
            },
        })
    }

    // Gives the watcher an event with its reading.
    pub fn give<K: TruthKind, S: Source<Kind = K>>(
        &mut self,
        event: Event,
        source: &S,
        plain: &mut [K],
        routine: &mut [K],
        stack: &mut [K],
        opened: &mut [OpenRoutine],
        working: &mut [K],
    ) -> Result<Verdict<K>, WatchFault>
        ensures given { Given K.TruthKind.algebra K.TruthKind.means self.old.program self.old.nesting (own plain.old routine.old stack.old opened.old) working.old event (S.Source.readings source.now) result self.new.nesting (own plain.new routine.new stack.new opened.new) working.new }
        ensures program { self.new.program ≡ self.old.program }
    {
        let nesting = self.nesting;
        let number = judge(
            &self.program,
            nesting,
            plain,
            routine,
            stack,
            opened,
            working,
            event,
            source.len(),
        )?;
        let steps = self.program.steps();
        evaluate(steps, plain, routine, event, source, working);
        let value = last_value(steps, working);
        keep(self.program.plain(), working, plain);
        keep_routine(
            self.program.routine(),
            nesting,
            event,
            working,
            routine,
            stack,
            opened,
        );
        self.nesting = next_nesting(nesting, event);
        Ok(Verdict { number, value })
    }
}
