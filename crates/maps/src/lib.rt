// Carrying maps: each takes the values of one kind to values of another and keeps all five answers.
#![tactic(auto)]

pub mod into_three;
pub mod map;
pub mod parts;
pub mod sign;
pub mod zone;
pub mod zone_map;

pub use into_three::IntoThree;
pub use map::CarryingMap;
pub use parts::{First, Second};
pub use sign::Sign;
pub use zone::AtZone;
