//! One text for each number, key, pair and event: one printer and one parser.
//!
//! A text is part of a line, without the line's end. [`item`] has the traits of the types that have
//! texts: an [`item::Item`] is what an event holds, and an [`item::Token`] can be a key or a value.
//! `integers` and `pairs` implement them. [`event`] writes and reads events, as in
//! `7 insert 9:1 5:1 2`. [`number`] and [`parts`] read numbers and split texts, for crates with
//! lines of their own. `specs/` defines the texts. [`laws`] states that the text of an event is
//! read as the identical event, and that no other text is.
#![tactic(auto)]

mod digits;
pub mod event;
mod integers;
pub mod item;
pub mod laws;
pub mod number;
mod pairs;
pub mod parts;
