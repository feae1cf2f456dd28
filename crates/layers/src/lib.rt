// Dictionaries that are made of other dictionaries.
#![tactic(auto)]

mod axis;
mod pair;
mod shift;

pub use axis::{Axis, AxisRefusal};
pub use pair::Pair;
pub use shift::Shift;
