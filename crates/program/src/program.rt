// A rule as a watcher runs it.
ghost use Rattle.std.specs.Prelude.{◌≡◌};
ghost use Rattle.fixed_vec.specs.Elements.{elements};
ghost use Rattle.reader.specs.Rules.{nodes_in};
ghost use Rattle.program.specs.Planned.{planned};

use crate::parts::Parts;
use reader::Rule;

// A rule, and the parts that its nodes come to.
#[derive(Clone, Copy)]
pub struct Program {
    pub(crate) rule: Rule,
    pub(crate) parts: Parts,
    ghost all_steps: { ∥ elements parts.steps ≡ planned 0 0 (nodes_in rule) ∥₁ },
}
