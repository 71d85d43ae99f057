// Whole runs of a watcher: that its answers are those of looking back, and the same in another kind. Definitions and theorems,
// no code.
#![tactic(auto)]

ghost use Rattle.runs.specs.Promise.{LooksBack};
ghost use Rattle.runs.specs.Twins.{CarriesOver};

use kinds::TruthKind;

// A theorem about every run of a watcher of any kind.
pub fn runs_stand<K: TruthKind>()
    ensures looks_back { LooksBack K.TruthKind.algebra K.TruthKind.means }
{}

// A theorem about two runs whose readings are carried from one kind into another.
pub fn twins_stand<K: TruthKind, L: TruthKind>()
    ensures carries_over { CarriesOver K.TruthKind.algebra L.TruthKind.algebra K.TruthKind.means L.TruthKind.means }
{}
