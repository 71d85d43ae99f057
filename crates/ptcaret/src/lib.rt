// The past-time logic of calls and returns, and a rule's value in it. Definitions and theorems, no code.
#![tactic(auto)]

ghost use Rattle.ptcaret.specs.Theorems.{ValueIsSatisfaction, AbstractPrefixIsPrior};

// Theorems: a rule's two-valued value by looking back is whether the trace so far satisfies the rule,
// and the two ways to find the call of a return agree.
pub fn published_meaning_stands()
    ensures stands { ValueIsSatisfaction }
    ensures cut { AbstractPrefixIsPrior }
{}
