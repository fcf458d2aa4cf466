//! Idioms of std's ordered map and set, as they are written with this library. Each function has
//! the expression of std in quotes, or a comment on why it is not supported. `for x in &set` and
//! `&a & &b` are impls of `indexset_set` and `indexset_map`: a crate that writes them lists these
//! beside `indexset`.
pub mod maps;
pub mod sets;
