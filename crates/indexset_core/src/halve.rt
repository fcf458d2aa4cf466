//! The halving of a node.
ghost use Rattle.std.specs.Prelude.{◌≡◌, ◌/◌, ◌≤◌, length, take, drop};
ghost use Rattle.std.specs.Prelude.{IfOk, OnOk, IfErr, OnErr, vec_capacity};

use crate::refusal::Refusal;

/// Halves a node: keeps the first half of its items, and returns the rest.
///
/// Each half has room for as many items as the node held.
///
/// # Errors
///
/// Fails with `Memory` only. A failed call leaves the items as they were.
pub fn halve_node<T>(node: &mut Vec<T>) -> Result<Vec<T>, Refusal>
    // Result.
    ensures right { IfOk result (λ rest. rest.items
        ≡ drop (length node.old.items / 2) node.old.items) }

    // Contents.
    ensures left { OnOk result (node.new.items ≡ take (length node.old.items / 2) node.old.items) }

    // Failure.
    ensures refusal { IfErr result (λ e. e ≡ Refusal.Memory) }
    ensures unchanged { OnErr result (node.new.items ≡ node.old.items) }

    // Memory.
    ensures left_room { OnOk result (length node.old.items ≤ vec_capacity node.new) }
    ensures right_room { IfOk result (λ rest. length node.old.items ≤ vec_capacity rest) }
{
    let half = node.len() / 2;
    let mut rest = node.split_off(half)?;
    match rest.reserve(half) {
        Ok(()) => Ok(rest),
        Err(error) => {
            let _ = node.append(&mut rest);
            rest.destroy_empty();
            Err(Refusal::from(error))
        }
    }
}
