// The texts of the two-valued and the three-valued kind: one word each.
ghost use Rattle.kind_texts.specs.Words.{two_text, three_text};
ghost use Rattle.kinds.specs.Two.{two_means};
ghost use Rattle.std.proofs.Common.{rules};

use crate::kind::{TEXT_LIMIT, TextKind};
use kinds::{Three, Two};
use text::Line;

impl TextKind for Two {
    ghost text = { λ x. two_text (two_means x) };

    ghost same = { Prim.search rules };

    ghost short = { Prim.search rules };

    fn line(self) -> Line<TEXT_LIMIT> {
        let word: &[u8] = match self {
            Two::No => b"no",
            Two::Yes => b"yes",
        };
        Line::new().add(word)
    }
}

impl TextKind for Three {
    ghost text = { three_text };

    ghost same = { Prim.search rules };

    ghost short = { Prim.search rules };

    fn line(self) -> Line<TEXT_LIMIT> {
        let word: &[u8] = match self {
            Three::No => b"no",
            Three::Unknown => b"unknown",
            Three::Yes => b"yes",
        };
        Line::new().add(word)
    }
}
