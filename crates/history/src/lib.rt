// What a rule's value is at an event: looking back over the events before it. Definitions and theorems, no code.
#![tactic(auto)]

ghost use Rattle.history.specs.Theorems.{Prefix, Carried, Recurrences, SeenFrom, OpenCounts, Matching, NestMatching};
ghost use Rattle.history.specs.Example.{Worked};

use kinds::TruthKind;

// Theorems about what is seen from an event, and which call a return belongs to.
pub fn seeing_stands()
    ensures seen { SeenFrom }
    ensures counts { OpenCounts }
    ensures matching { Matching }
    ensures nest { NestMatching }
{}

// Theorems about a rule's values in any kind: they depend on the moments so far, and follow from those at earlier events.
pub fn looking_back_stands<K: TruthKind>()
    ensures prefix { Prefix K.TruthKind.algebra }
    ensures recurrences { Recurrences K.TruthKind.algebra }
{}

// A theorem about two kinds: what keeps the five operations carries every rule's values.
pub fn carrying_stands<K: TruthKind, L: TruthKind>()
    ensures carried { Carried K.TruthKind.algebra L.TruthKind.algebra }
{}

// Two rules worked out along a reel.
pub fn example_stands()
    ensures worked { Worked }
{}
