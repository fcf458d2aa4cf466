//! The events of the logged family, without the trees that return them.
//!
//! [`change::ChangeEvent`] is an event: a change of a node, which it names by the node's last item.
//! `specs/Table.antt` defines the events of a put and of a removal, `specs/Replay.antt` the effect
//! of an event on a list of nodes, `specs/Merging.antt` when small neighbours are merged, and
//! `specs/Attach.antt` which nodes can be inserted whole; [`nodes`] has that test. [`laws`] has
//! consequences of these definitions: replay in parts, a bound on the number of nodes, examples.
//! `specs/Text.antt` defines the text that `{}` writes of an event; `indexset_wire` reads it.
#![tactic(auto)]

pub mod change;
pub mod laws;
pub mod nodes;
