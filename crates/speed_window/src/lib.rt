// The fastest bus speed within a window: a factor and a divider, or none.
#![tactic(auto)]

mod fastest;
pub mod pair;
pub mod window;

pub use pair::Pair;
