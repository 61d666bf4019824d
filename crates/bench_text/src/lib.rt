// The bench program's text: what its lines say, which line is bad, and what is printed.
#![tactic(auto)]

pub mod digits;
pub mod input;
pub mod line;
pub mod put;
pub mod shown;

pub use input::{BadLine, Call, Parts};
pub use line::Header;
pub use put::Text;
