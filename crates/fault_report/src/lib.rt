//! Where a fault stands, as people see it: its line, and carets below the token.
#![tactic(auto)]

mod excerpt;
mod form;
mod line;
mod shown;
mod token_end;

pub use excerpt::{Excerpt, excerpt_at};
pub use form::Form;
pub use line::{Line, Lines};
pub use token_end::tokens_in;
