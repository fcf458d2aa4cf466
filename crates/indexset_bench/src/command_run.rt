//! The replies to a list of commands to a collection.
use indexset_core::refusal::Refusal;

/// The replies to a list of commands.
#[derive(Debug, Drop)]
pub struct Run<R> {
    /// The replies in order, up to the first command that failed.
    pub replies: Vec<R>,
    /// The error of the command that failed, if one did.
    pub refused: Option<Refusal>,
}
