// What a program is made of: the steps of nodes, the numbers that their cells keep, and how many predicates they ask for.
ghost use Rattle.std.specs.Prelude.{◌≡◌, ◌+◌, ◌≤◌, length};
ghost use Rattle.fixed_vec.specs.Elements.{elements};
ghost use Rattle.evaluation.specs.Plan.{if_plain, if_routine};
ghost use Rattle.evaluation.specs.Steps.{sources};
ghost use Rattle.program.specs.Planned.{asked};

use evaluation::Step;
use fixed_vec::FixedVec;
use grammar::MAX_WORDS;

// The steps of some nodes, one for each; for each plain and each routine cell, in order, the number of the step whose value it
// keeps; and how many predicates a reading must have.
#[derive(Clone, Copy)]
pub(crate) struct Parts {
    pub(crate) steps: FixedVec<Step, MAX_WORDS>,
    // Two fields, and not one by the kind of cell: each is lent out whole, under its own name.
    pub(crate) plain: FixedVec<u8, MAX_WORDS>,
    pub(crate) routine: FixedVec<u8, MAX_WORDS>,
    pub(crate) predicates: usize,
    ghost few_cells: { length (elements plain) + length (elements routine) ≤ length (elements steps) },
    ghost all_plain: { elements plain ≡ sources if_plain 0 (elements steps) },
    ghost all_routine: { elements routine ≡ sources if_routine 0 (elements steps) },
    ghost all_predicates: { predicates ≡ asked (elements steps) },
}
