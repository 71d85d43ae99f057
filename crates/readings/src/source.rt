// What a reading source is.
ghost use Rattle.std.specs.Prelude.{◌≡◌, ◌≤◌, List, length};
ghost use Rattle.std.specs.List.{slice_get};
ghost use Rattle.readings.specs.Lists.{most};

use kinds::TruthKind;

// How many values a source has at most.
pub const MOST: usize = 64;

// A list of at most 64 values of one kind. No question changes it.
pub trait Source {
    type Kind: TruthKind;

    // The values in order: value number N is what a rule calls `pN`.
    ghost readings: { Self → List Self.Kind };

    // What each source has to show.
    ghost few: { (s : Self) → length (readings s) ≤ most };

    // How many values there are.
    fn len(&self) -> usize
        ensures value { result ≡ length (readings self.now) };

    // Value number n, or nothing at or past the length.
    fn value(&self, n: usize) -> Option<Self::Kind>
        ensures value { result ≡ slice_get (readings self.now) n };
}
