// Truth kinds whose values have a text, and the texts of the kinds.
#![tactic(auto)]

pub mod kind;
pub mod margin;
pub mod words;
pub mod zones;

pub use kind::TextKind;
