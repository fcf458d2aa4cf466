//! Texts as keys and values, percent-encoded in lines.
//!
//! A [`Name`] is a text. A line has letters, digits and `-._~` unchanged, and each other byte as
//! `%` and two upper-case hexadecimal digits. So each text has one spelling, which is a word.
//! `specs/Names.antt` defines it.
#![tactic(auto)]

mod name;

pub use name::Name;
