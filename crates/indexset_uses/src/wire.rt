//! Events that are sent as lines of text, with items of a type of our own.
ghost use Rattle.std.specs.Prelude.{◌≡◌, Some, IfOk, false};
ghost use Rattle.indexset_uses.specs.Wire.{side_items, side_text, side_texts, side_tokens};

use anyhow::Result;
use indexset::base::pair::Pair;
use indexset::cdc::change::ChangeEvent;
use indexset::cdc::text::event::{read_event, recall_range, write_event};
use indexset::cdc::text::item::{Item, Token};
use indexset::cdc::text::laws::events_are_read;
use indexset::concurrent::map::BTreeMap;
use std::alloc::{AllocError, Global};
use std::fmt;
use std::io::{self, Write};

/// A side of a market.
#[derive(Clone, Copy, Debug, PartialEq, Eq, PartialOrd, Ord)]
pub enum Side {
    /// The buying side.
    Buy,
    /// The selling side.
    Sell,
}

/// `buy` or `sell`.
impl fmt::Display for Side {
    ghost output = { λ side. Some (side_text side) };

    fn fmt<W: fmt::Write>(&self, f: &mut fmt::Formatter<W>) -> fmt::Result {
        match self {
            Side::Buy => f.write_str("buy"),
            Side::Sell => f.write_str("sell"),
        }
    }
}

impl Item for Side {
    ghost texts = { side_texts };

    ghost allocates = { false };

    ghost items = { side_items };

    fn read(_alloc: Global, text: &[u8]) -> std::result::Result<Option<Side>, AllocError> {
        if text == b"buy".as_slice() {
            Ok(Some(Side::Buy))
        } else if text == b"sell".as_slice() {
            Ok(Some(Side::Sell))
        } else {
            Ok(None)
        }
    }

    fn write<W: Write>(&self, writer: &mut W) -> io::Result<()> {
        match self {
            Side::Buy => writer.write_all(b"buy"),
            Side::Sell => writer.write_all(b"sell"),
        }
    }

    fn recall_range(&self) {}
}

impl Token for Side {
    ghost tokens = { side_tokens };
}

/// The best price of each side.
pub type Prices = BTreeMap<Side, i64, Vec<Pair<Side, i64>>>;

/// Returns the event that is read from the line of this one, which is the same event.
pub fn resent<T: Item>(alloc: Global, event: &ChangeEvent<T>) -> Result<Option<ChangeEvent<T>>>
    ensures { IfOk result (λ read. read ≡ Some event.now) }
{
    recall_range(event);
    events_are_read::<T>();
    let mut line = Vec::new(alloc);
    write_event(&mut line, event)?;
    Ok(read_event(alloc, line.as_slice())?)
}
