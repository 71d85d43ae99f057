// What the line of a refusal shows, whatever was refused.
#![tactic(auto)]

// Each kind of fault has its numbers; what a place is, the fault says.
#[derive(Clone, Copy, PartialEq, Eq, Debug)]
pub struct Refusal {
    pub number: u16,
    pub place: usize,
}
