//! The form of a problem's text: its tokens, its grammar, and what is counted of it.
//!
//! The grammar is a small part of Singular's language.
#![tactic(auto)]

mod form;
mod ring;
mod scanning;
mod tokens;
mod words;

pub use form::{Form, form_of};
pub use ring::begun_at;
pub use scanning::{Part, Place, Scan};
pub use tokens::next_token;
pub use words::{Class, class_of, is_number};

#[cfg(test)]
mod tests;
