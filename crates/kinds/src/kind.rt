// What a truth kind is: five answers, exact by what values mean, and the laws that they keep.
ghost use Rattle.std.specs.Prelude.{◌≡◌};
ghost use Rattle.kinds.specs.Algebra.{Algebra, Laws};

pub trait TruthKind: Copy {
    // The values that are meant, and the five operations on them.
    ghost algebra: { Algebra };

    // What a value means. Two values of the code may mean one.
    ghost means: { Self → algebra.Val };

    // What each kind has to show.
    ghost laws: { Laws algebra };

    // The value true.
    fn truth() -> Self
        ensures value { means result ≡ algebra.true };

    // The value false.
    fn falsehood() -> Self
        ensures value { means result ≡ algebra.false };

    fn not(self) -> Self
        ensures value { means result ≡ algebra.not (means self) };

    fn and(self, other: Self) -> Self
        ensures value { means result ≡ algebra.and (means self) (means other) };

    fn or(self, other: Self) -> Self
        ensures value { means result ≡ algebra.or (means self) (means other) };
}
