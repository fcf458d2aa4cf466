//! Calls for the crates above, which `indexset` does not re-export.
//!
//! A map stores its pairs in a set. These calls read and edit where a search has ended (`spots`,
//! `values`), gather ascending pairs in a run that is appended by blocks (`runs`), and recall for a
//! proof that the pairs ascend (`invariant`). Other callers use the calls of
//! [`BTreeSet`](super::BTreeSet).

mod invariant;
mod runs;
mod spots;
mod values;

pub use invariant::recall_order;
pub use runs::{join_run, take_run};
pub use spots::{
    allocator, element, first_spot, insert_at, last_spot, position, remove_at, spot_by,
    spot_from_end_by, spot_near, start_of,
};
pub use values::{pair_in_mut, value_in};
