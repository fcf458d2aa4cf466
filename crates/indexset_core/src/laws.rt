//! Laws on the definitions that the contracts of this crate use. Each function does nothing; its
//! contract is the law, for all values, and so holds of the calls that use the same definitions.
ghost use Rattle.std.specs.Prelude.{◌≡◌, ◌-◌, ◌^◌, ◌<◌, ◌≤◌, ℕ};
ghost use Rattle.indexset_core.specs.Digits.{digits};

/// `digits` counts binary digits.
///
/// 0 has none, and any other n is at least 2 ^ (digits n - 1) and below 2 ^ digits n.
pub fn digits_count_binary_digits()
    ensures none { digits 0 ≡ 0 }
    ensures least { (n : ℕ) → 0 < n → 2 ^ (digits n - 1) ≤ n }
    ensures most { (n : ℕ) → n < 2 ^ digits n }
{}
