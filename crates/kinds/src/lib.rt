// Truth kinds: values that can be true, false, negated and joined, each kind shown to keep the same laws.
#![tactic(auto)]

pub mod kind;
pub mod margin;
pub mod pair;
pub mod three;
pub mod two;
pub mod zones;

pub use kind::TruthKind;
pub use margin::Margin;
pub use pair::Pair;
pub use three::Three;
pub use two::Two;
pub use zones::Zones;
