//! Writes results to variables and slices of C.
ghost use Rattle.std.specs.Prelude.{◌≡◌, Some, None, true, false, length, min, replicate};
ghost use Rattle.indexset_ffi.specs.Elements.{written};
ghost use Rattle.indexset_ffi.specs.Text.{written_over};

/// Writes an element, if there is one, and returns whether there is.
pub fn write(found: Option<u64>, out: &mut u64) -> bool
    ensures found { result ≡ true → found ≡ Some out.new }
    ensures absent { result ≡ false → found ≡ None }
    ensures unwritten { result ≡ false → out.new ≡ out.old }
{
    match found {
        Some(element) => {
            *out = element;
            true
        }
        None => false,
    }
}

/// Writes a pair, if there is one, and returns whether there is.
pub fn write_pair(found: Option<(u64, u64)>, key: &mut u64, value: &mut u64) -> bool
    ensures found { result ≡ true → found ≡ Some (key.new, value.new) }
    ensures absent { result ≡ false → found ≡ None }
    ensures no_key { result ≡ false → key.new ≡ key.old }
    ensures no_value { result ≡ false → value.new ≡ value.old }
{
    match found {
        Some((k, v)) => {
            *key = k;
            *value = v;
            true
        }
        None => false,
    }
}

/// Writes as many bytes as fit to the first elements of `out`.
pub fn write_bytes(bytes: &[u8], out: &mut [u8])
    ensures { out.new ≡ written_over bytes.now out.old }
{
    let count = bytes.len().min(out.len());
    out[..count].copy_from_slice(&bytes[..count]);
}

/// Writes the same answer `asked` times, or as often as fits, and returns how many it wrote.
pub fn write_same<T: Copy>(asked: usize, answer: T, out: &mut [T]) -> usize
    ensures count { result ≡ min asked (length out.old) }
    ensures written { out.new ≡ written result (replicate asked answer) out.old }
{
    let count = asked.min(out.len());
    for i in 0..count {
        out[i] = answer;
    }
    count
}
