//! A text as a key or a value.

ghost use Rattle.std.specs.Prelude.{◌≡◌, ℕ, List, Some, true, refl};
ghost use Rattle.std.proofs.Common.{rules};
ghost use Rattle.indexset_text.specs.Names.{AreBytes, name_text, name_texts};
ghost use Rattle.indexset_text.specs.Names.Laws.{EscapesOthers, name_items, name_tokens};

use indexset_bench::key::Key;
use indexset_core::text::Text;
use indexset_wire::item::{Item, Token};
use percent_encoding::{AsciiSet, NON_ALPHANUMERIC, percent_decode, percent_encode};
use std::alloc::{AllocError, Global};
use std::fmt;
use std::io::{self, Write};
use std::marker::Model;

/// Returns the bytes that are escaped: all but letters, digits and `-._~`.
fn escaped() -> AsciiSet
    ensures { EscapesOthers result }
{
    let dash = NON_ALPHANUMERIC.remove(b'-');
    let dot = dash.remove(b'.');
    let line = dot.remove(b'_');
    line.remove(b'~')
}

/// A text that is percent-encoded in lines.
#[derive(Clone, PartialEq, Eq, PartialOrd, Ord, Drop)]
pub struct Name {
    text: Text,
}

impl Model for Name {
    ghost Value = { List ℕ };

    ghost view = { λ name. name.text };

    ghost inverse = { λ text. record { text = text } };
}

/// Displays the text percent-encoded.
impl fmt::Display for Name {
    ghost output = { λ name. Some (name_text name) };

    fn fmt<W: fmt::Write>(&self, f: &mut fmt::Formatter<W>) -> fmt::Result {
        let shown = percent_encode(self.text.as_bytes(), escaped());
        write!(f, "{shown}")
    }
}

// Does nothing; its contract states that each byte is below 256.
fn recall_bytes(bytes: &[u8])
    ensures { AreBytes bytes.now }
{
    let _bytes = bytes;
}

impl Item for Name {
    ghost texts = { name_texts };

    ghost allocates = { true };

    ghost items = { name_items };

    fn read(alloc: Global, text: &[u8]) -> Result<Option<Name>, AllocError> {
        let mut bytes = Vec::new(alloc);
        percent_decode(text).append_to(&mut bytes)?;
        let mut spelled = String::new(alloc);
        percent_encode(bytes.as_slice(), escaped()).append_to(&mut spelled)?;
        if text == spelled.as_bytes() {
            let text = Text::from_vec(bytes);
            Ok(Some(Name { text }))
        } else {
            Ok(None)
        }
    }

    fn write<W: Write>(&self, writer: &mut W) -> io::Result<()> {
        write!(writer, "{self}")
    }

    fn recall_range(&self) {
        recall_bytes(self.text.as_bytes());
    }
}

impl Token for Name {
    ghost tokens = { name_tokens };
}

impl Key for Name {
    ghost shown = { λ x. refl };

    ghost identical = { Prim.search rules };
}
