// Reading sources: each means a list of at most 64 values of one truth kind, and answers how long it is and which value stands where.
#![tactic(auto)]

pub mod carried;
mod front;
pub mod gauge;
pub mod gauge_list;
pub mod pair;
pub mod predicates;
pub mod source;
pub mod zone_list;

pub use carried::Carried;
pub use gauge::{Definition, Points, Side};
pub use gauge_list::{GaugeList, GaugeSigns};
pub use pair::PairSource;
pub use predicates::Predicates;
pub use source::Source;
pub use zone_list::ZoneList;

#[cfg(test)]
mod tests;
