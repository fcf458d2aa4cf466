//! Parts of a text.
ghost use Rattle.std.specs.Prelude.{◌≡◌, ◌==◌, position};
ghost use Rattle.std.specs.Option.{option_map};
ghost use Rattle.indexset_wire.specs.Parts.{cut_at};

/// Splits the text at the first such byte, and returns the parts before and after it.
pub fn cut(text: &[u8], byte: u8) -> Option<(&[u8], &[u8])>
    ensures { option_map (λ cut. (cut.0.now, cut.1.now)) result ≡ cut_at byte text.now }
{
    let place = first_place(text, byte)?;
    Some((&text[..place], &text[place + 1..]))
}

// Returns the index of the first such byte.
fn first_place(text: &[u8], byte: u8) -> Option<usize>
    ensures { result ≡ position (λ b. b == byte) text.now }
{
    text.iter().position(|b| *b == byte)
}
