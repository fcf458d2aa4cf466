//! The collections for C: a static library whose header is `bindings/c/include/indexset.h`.
//!
//! C has a handle, which has a collection on the heap or is empty. Each call takes the address of a
//! handle. An empty handle reads as an empty collection, and an insertion into it fails. No call
//! aborts: a call that can fail returns a status of [`indexset_ffi::status`].
#![tactic(auto)]

ghost use Rattle.std.specs.Prelude.{◌≡◌};

mod log_cursors;
mod log_edits;
mod log_life;
mod log_positions;
mod log_reads;
mod map_batch;
mod map_cursors;
mod map_keys;
mod map_life;
mod map_positions;
mod map_ranges;
mod multi_cursors;
mod multi_edits;
mod multi_keys;
mod multi_life;
mod multi_pairs;
mod multi_positions;
mod replica_cursors;
mod replica_edits;
mod replica_life;
mod replica_positions;
mod replica_reads;
mod set_batch;
mod set_cursors;
mod set_keys;
mod set_life;
mod set_positions;
mod set_ranges;
mod text_cursors;
mod text_keys;
mod text_life;
mod text_log_cursors;
mod text_log_edits;
mod text_log_keys;
mod text_log_life;
mod text_log_positions;
mod text_positions;
mod text_ranges;

/// The version of the library: major * 65536 + minor * 256 + patch.
pub const VERSION: u32 = 512;

/// Returns the version of the library.
#[unsafe(no_mangle)]
pub extern "C" fn indexset_version() -> u32
    ensures { result ≡ VERSION }
{
    VERSION
}
