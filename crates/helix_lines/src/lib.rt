//! How a run ends, and what it shows of that on the console.
//!
//! ```text
//! let ending = Ending::Cut { rows: 2, token: Some(token) };
//! let status = show(console, &ending);        // "cut: 2 rows" and the token; Status::Cut, or WriteFault
//! ```
//!
//! What is proved:
//! - [`show`] shows exactly the lines of an ending (`specs/Lines.antt`), the first one first, and gives its status. Once
//!   the console fails no further line is tried; of a run that wrote its rows that is a fault, and of any other it
//!   changes nothing (`specs/Shown.antt`). It takes no memory.
//! - [`refused_line`] and [`token_line`] make the lines that tell why a profile or a token is refused.
#![tactic(auto)]

mod ending;
mod fixed;
mod refusal;
mod showing;
mod status;

pub use ending::Ending;
pub use refusal::{refused_line, token_line};
pub use showing::show;
pub use status::Status;

#[cfg(test)]
mod tests;
