// The lines of a schedule: from bytes to the calls that they write.
#![tactic(auto)]

mod line;
mod number;
mod syntax;
mod text;

pub use line::{read_line, reading_is_exact};
pub use syntax::Call;
pub use text::{Lines, split_line};
