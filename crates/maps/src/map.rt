// What a carrying map is.
ghost use Rattle.std.specs.Prelude.{◌≡◌};
ghost use Rattle.maps.specs.Carries.{Carries};

use kinds::TruthKind;

// A map may hold what it needs, as the number of the zone that it asks for.
pub trait CarryingMap {
    type From: TruthKind;

    type To: TruthKind;

    // The value that a map takes a value to.
    ghost carried: { Self → Self.From → Self.To };

    fn carry(&self, value: Self::From) -> Self::To
        ensures value { result ≡ carried self.now value };

    // What each map has to show: it goes by what values mean, and keeps the five answers.
    ghost keeps: { (m : Self) → Carries Self.From.TruthKind.algebra Self.To.TruthKind.algebra Self.From.TruthKind.means Self.To.TruthKind.means (carried m) };
}
