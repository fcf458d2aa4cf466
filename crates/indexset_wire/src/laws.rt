//! Laws of texts. Each function does nothing; its contract is the law.
ghost use Rattle.std.specs.Prelude.{◌≡◌, ℕ, true, List, Some};
ghost use Rattle.indexset_events.specs.Text.{event_shown};
ghost use Rattle.indexset_events.specs.declared.change.ChangeEvent.{ChangeEvent};
ghost use Rattle.indexset_wire.specs.Event.{EventInRange, event_of, event_text};
ghost use Rattle.indexset_wire.specs.Parts.{lacks};

use crate::item::Item;
use std::fmt;

/// The text of an event is one line, and is read as the identical event. No other text is read as
/// that event.
pub fn events_are_read<T: Item>()
    ensures one_line { (e : ChangeEvent T) → EventInRange T.texts e
        → lacks 10 (event_text T.texts e) ≡ true }
    ensures reads_back { (e : ChangeEvent T) → EventInRange T.texts e
        → event_of T.texts (event_text T.texts e) ≡ Some e }
    ensures only { (line : List ℕ) (e : ChangeEvent T) → event_of T.texts line ≡ Some e
        → (line ≡ event_text T.texts e) × EventInRange T.texts e }
{}

/// `{}` writes the text of an event, if it writes the text of each item.
pub fn events_are_shown<T: Item + fmt::Display>()
    ensures { ((x : T) → T.output x ≡ Some (T.texts.text x)) → (e : ChangeEvent T)
        → event_shown T.output e ≡ Some (event_text T.texts e) }
{}
