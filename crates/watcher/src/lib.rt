// Watchers: made of a rule, given events one by one, each with its reading, and answering each with a verdict or a refusal.
#![tactic(auto)]

ghost use Rattle.std.specs.Prelude.{◌≡◌, ◌≤◌, true, List, [], ◌∷◌, ◌++◌, map, length, is_ok, IfOk, Ok as answered};
ghost use Rattle.std.specs.Result.{result_err};
ghost use Rattle.grammar.specs.Grammar.{Tree};
ghost use Rattle.kinds.specs.Two.{two, two_means};
ghost use Rattle.reader.specs.Rules.{TreeOf};
ghost use Rattle.watching.specs.Calls.{Given};
ghost use Rattle.watching.specs.Faults.{max_limit};
ghost use Rattle.watching.specs.Memory.{own_of, working_of, own_left, working_left};
ghost use Rattle.watching.specs.declared.Verdict.{Verdict as Decision};
ghost use Rattle.runs.specs.Runs.{Exchange, accepted, exchange, Run};
ghost use Rattle.runs.specs.Twins.{Enough, AllAlike, AllSame};
ghost use Rattle.watcher.specs.Making.{refusal_of, LongEnough, Left};
ghost use Rattle.watcher.specs.Giving.{LooksBackAfter, LeavesNodes, GoesOn};
ghost use Rattle.watcher.specs.Published.{Satisfies};

use kinds::{TruthKind, Two};
use maps::CarryingMap;
pub use monitor::Watcher;
use program::Program;
use reader::Rule;
use readings::{Carried, Source};
use reels::Event;
use watching::{Lists, Verdict, WatchFault};

// Makes a watcher of the rule, under a depth limit, over lent memory.
pub fn make<K: TruthKind>(rule: &Rule, limit: usize, lists: Lists<K>) -> Result<Watcher, WatchFault>
    ensures accepts { (t : Tree) → TreeOf rule.now t → limit ≤ max_limit → LongEnough t limit (own_of lists.entry) (length (working_of lists.entry)) → is_ok result ≡ true }
    ensures some_tree { ∥ ((t : Tree) × TreeOf rule.now t) ∥₁ }
    ensures refusal { (t : Tree) → TreeOf rule.now t → result_err result ≡ refusal_of t limit (own_of lists.entry) (length (working_of lists.entry)) }
    ensures left { Left K.TruthKind.algebra K.TruthKind.means rule.now limit (own_of lists.entry) (working_of lists.entry) result (own_left lists.exit) (working_left lists.exit) }
    ensures begins { IfOk result (λ w. Run K.TruthKind.algebra K.TruthKind.means w.program limit [] w.nesting (own_left lists.exit)) }
{
    let Lists {
        plain,
        routine,
        stack,
        opened,
        working,
    } = lists;
    Watcher::new(
        Program::of(rule),
        limit,
        plain,
        routine,
        stack,
        opened,
        working,
    )
}

// Gives the watcher an event with its reading.
pub fn give<K: TruthKind, S: Source<Kind = K>>(
    watcher: &mut Watcher,
    event: Event,
    source: &S,
    lists: Lists<K>,
) -> Result<Verdict<K>, WatchFault>
    ensures given { Given K.TruthKind.algebra K.TruthKind.means watcher.old.program watcher.old.nesting (own_of lists.entry) (working_of lists.entry) event (S.Source.readings source.now) result watcher.new.nesting (own_left lists.exit) (working_left lists.exit) }
    ensures program { watcher.new.program ≡ watcher.old.program }
    ensures looks_back { LooksBackAfter K.TruthKind.algebra K.TruthKind.means watcher.old.program watcher.old.nesting (own_of lists.entry) event (S.Source.readings source.now) result (working_of lists.entry) }
    ensures leaves { LeavesNodes K.TruthKind.algebra K.TruthKind.means watcher.old.program watcher.old.nesting (own_of lists.entry) event (S.Source.readings source.now) result (working_left lists.exit) }
    ensures goes_on { GoesOn K.TruthKind.algebra K.TruthKind.means watcher.old.program watcher.old.nesting (own_of lists.entry) event (S.Source.readings source.now) result watcher.new.program watcher.new.nesting (own_left lists.exit) }
{
    let Lists {
        plain,
        routine,
        stack,
        opened,
        working,
    } = lists;
    watcher.give(event, source, plain, routine, stack, opened, working)
}

// Gives the watcher an event in the two-valued kind: the answer of `give`, and yes exactly where the published logic is satisfied.
pub fn give_two_valued<S: Source<Kind = Two>>(
    watcher: &mut Watcher,
    event: Event,
    source: &S,
    lists: Lists<Two>,
) -> Result<Verdict<Two>, WatchFault>
    ensures given { Given two two_means watcher.old.program watcher.old.nesting (own_of lists.entry) (working_of lists.entry) event (S.Source.readings source.now) result watcher.new.nesting (own_left lists.exit) (working_left lists.exit) }
    ensures program { watcher.new.program ≡ watcher.old.program }
    ensures looks_back { LooksBackAfter two two_means watcher.old.program watcher.old.nesting (own_of lists.entry) event (S.Source.readings source.now) result (working_of lists.entry) }
    ensures leaves { LeavesNodes two two_means watcher.old.program watcher.old.nesting (own_of lists.entry) event (S.Source.readings source.now) result (working_left lists.exit) }
    ensures goes_on { GoesOn two two_means watcher.old.program watcher.old.nesting (own_of lists.entry) event (S.Source.readings source.now) result watcher.new.program watcher.new.nesting (own_left lists.exit) }
    ensures published { (t : Tree) → TreeOf watcher.old.program.rule t → (xs : List (Exchange Two)) → Run two two_means watcher.old.program watcher.old.nesting.limit xs watcher.old.nesting (own_of lists.entry) → IfOk result (λ v. Satisfies t (accepted two two_means xs) event (S.Source.readings source.now) v) }
{
    let Lists {
        plain,
        routine,
        stack,
        opened,
        working,
    } = lists;
    watcher.give::<Two, S>(event, source, plain, routine, stack, opened, working)
}

// The answers of two watchers to one event.
#[derive(Drop)]
pub struct Twins<K, L> {
    pub first: Result<Verdict<K>, WatchFault>,
    pub second: Result<Verdict<L>, WatchFault>,
}

// Gives an event to two watchers, to the second with its reading carried into another kind: a margin and its lamp, side by side.
pub fn give_both<K: TruthKind, L: TruthKind, M: CarryingMap<From = K, To = L>, S: Source<Kind = K>>(
    first: &mut Watcher,
    second: &mut Watcher,
    event: Event,
    carried: &Carried<S, M>,
    lists: Lists<K>,
    carried_lists: Lists<L>,
) -> Twins<K, L>
    ensures first { Given K.TruthKind.algebra K.TruthKind.means first.old.program first.old.nesting (own_of lists.entry) (working_of lists.entry) event (S.Source.readings carried.now.source) result.first first.new.nesting (own_left lists.exit) (working_left lists.exit) }
    ensures first_looks_back { LooksBackAfter K.TruthKind.algebra K.TruthKind.means first.old.program first.old.nesting (own_of lists.entry) event (S.Source.readings carried.now.source) result.first (working_of lists.entry) }
    ensures first_leaves { LeavesNodes K.TruthKind.algebra K.TruthKind.means first.old.program first.old.nesting (own_of lists.entry) event (S.Source.readings carried.now.source) result.first (working_left lists.exit) }
    ensures first_goes_on { GoesOn K.TruthKind.algebra K.TruthKind.means first.old.program first.old.nesting (own_of lists.entry) event (S.Source.readings carried.now.source) result.first first.new.program first.new.nesting (own_left lists.exit) }
    ensures second { Given L.TruthKind.algebra L.TruthKind.means second.old.program second.old.nesting (own_of carried_lists.entry) (working_of carried_lists.entry) event (map (M.CarryingMap.carried carried.now.map) (S.Source.readings carried.now.source)) result.second second.new.nesting (own_left carried_lists.exit) (working_left carried_lists.exit) }
    ensures second_looks_back { LooksBackAfter L.TruthKind.algebra L.TruthKind.means second.old.program second.old.nesting (own_of carried_lists.entry) event (map (M.CarryingMap.carried carried.now.map) (S.Source.readings carried.now.source)) result.second (working_of carried_lists.entry) }
    ensures second_leaves { LeavesNodes L.TruthKind.algebra L.TruthKind.means second.old.program second.old.nesting (own_of carried_lists.entry) event (map (M.CarryingMap.carried carried.now.map) (S.Source.readings carried.now.source)) result.second (working_left carried_lists.exit) }
    ensures second_goes_on { GoesOn L.TruthKind.algebra L.TruthKind.means second.old.program second.old.nesting (own_of carried_lists.entry) event (map (M.CarryingMap.carried carried.now.map) (S.Source.readings carried.now.source)) result.second second.new.program second.new.nesting (own_left carried_lists.exit) }
    ensures carried { second.old.program.rule ≡ first.old.program.rule → second.old.nesting.limit ≡ first.old.nesting.limit → (t : Tree) → TreeOf first.old.program.rule t → (xs : List (Exchange K)) (ys : List (Exchange L)) → Run K.TruthKind.algebra K.TruthKind.means first.old.program first.old.nesting.limit xs first.old.nesting (own_of lists.entry) → Run L.TruthKind.algebra L.TruthKind.means second.old.program second.old.nesting.limit ys second.old.nesting (own_of carried_lists.entry) → AllAlike L.TruthKind.algebra L.TruthKind.means (M.CarryingMap.carried carried.now.map) xs ys → Enough (exchange event (S.Source.readings carried.now.source) result.first) → Enough (exchange event (map (M.CarryingMap.carried carried.now.map) (S.Source.readings carried.now.source)) result.second) → AllSame L.TruthKind.algebra L.TruthKind.means (M.CarryingMap.carried carried.now.map) (xs ++ exchange event (S.Source.readings carried.now.source) result.first ∷ []) (ys ++ exchange event (map (M.CarryingMap.carried carried.now.map) (S.Source.readings carried.now.source)) result.second ∷ []) }
    ensures programs { (first.new.program ≡ first.old.program) × (second.new.program ≡ second.old.program) }
{
    let Lists {
        plain,
        routine,
        stack,
        opened,
        working,
    } = lists;
    let answer = first.give(
        event,
        &carried.source,
        plain,
        routine,
        stack,
        opened,
        working,
    );
    let Lists {
        plain,
        routine,
        stack,
        opened,
        working,
    } = carried_lists;
    Twins {
        first: answer,
        second: second.give(event, carried, plain, routine, stack, opened, working),
    }
}
