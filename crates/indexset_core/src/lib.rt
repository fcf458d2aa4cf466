//! The parts of both families of collections: order, searches with counted comparisons, and nodes.
//!
//! [`probe::Probe`] is a comparator with a counter: it compares items with a look-up key, and
//! counts the comparisons. [`search::first_not_less`] and [`search::first_greater`] make at most as
//! many as the length of a slice has binary digits. [`node::NodeLike`] is an ascending list of
//! bounded length: a `Vec`, or an [`array_node::ArrayNode`], which never allocates. [`locate`]
//! searches a list of nodes, and [`walk::ItemIter`] is a double-ended iterator over their items.
//! [`pair::Pair`] and [`multipair::MultiPair`] are the items of maps. [`refusal::Refusal`] is the
//! error of every call, and [`refusal::Refused`] an error with the value that the call was given.
//!
//! Begin with `node` and `search`; `moves` and `halve` move items by blocks for all layers above.
#![tactic(auto)]

pub mod array_node;
pub mod by_bytes;
pub mod constants;
pub mod halve;
pub mod item_iter;
pub mod key_range;
pub mod laws;
pub mod locate;
pub mod lookup_key;
pub mod moves;
pub mod multipair;
pub mod node;
pub mod node_text;
pub mod pair;
pub mod position_range;
pub mod probe;
pub mod refusal;
pub mod search;
pub mod steps;
pub mod text;

const _: () = prove!(size_of::<steps::Steps>() == 0);
