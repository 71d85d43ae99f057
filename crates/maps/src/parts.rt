// Each part of a pair. What the two maps share is `CarryingMap` itself: one map over a trait of parts was tried, is longer, and the
// toolchain cannot give its method the clauses of the trait yet.
ghost use Rattle.std.specs.Prelude.{refl};

use crate::map::CarryingMap;
use kinds::{Pair, TruthKind};
use std::marker::PhantomData;

#[derive(Drop)]
pub struct First<A, B>(pub PhantomData<Pair<A, B>>);

impl<A: TruthKind, B: TruthKind> CarryingMap for First<A, B> {
    type From = Pair<A, B>;

    type To = A;

    ghost carried = { λ _ p. p.first };

    ghost keeps = { λ m.
        record {
          map = λ p. p.0;
          follows = λ x. refl;
          keeps = record { true = refl; false = refl; not = λ x. refl; and = λ x y. refl; or = λ x y. refl };
        } };

    fn carry(&self, value: Pair<A, B>) -> A {
        value.first
    }
}

#[derive(Drop)]
pub struct Second<A, B>(pub PhantomData<Pair<A, B>>);

impl<A: TruthKind, B: TruthKind> CarryingMap for Second<A, B> {
    type From = Pair<A, B>;

    type To = B;

    ghost carried = { λ _ p. p.second };

    ghost keeps = { λ m.
        record {
          map = λ p. p.1;
          follows = λ x. refl;
          keeps = record { true = refl; false = refl; not = λ x. refl; and = λ x y. refl; or = λ x y. refl };
        } };

    fn carry(&self, value: Pair<A, B>) -> B {
        value.second
    }
}
