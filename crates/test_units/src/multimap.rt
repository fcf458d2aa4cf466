//! Numbered pairs, also in events.

use indexset_core::multipair::MultiPair;
use indexset_core::node::NodeLike;
use indexset_core::pair::Pair;
use indexset_events::change::{ChangeEvent, Id};
use std::test::Fail;

type Letters = MultiPair<u64, char>;

#[test]
fn numbers_tell_pairs_apart(rt: HostRuntime) -> Result<(), Fail> {
    let mut node: Vec<Letters> = Vec::new(rt.alloc());
    NodeLike::insert(&mut node, MultiPair::new(1, 'a', 0))?;
    let one = node.len();
    NodeLike::insert(&mut node, MultiPair::new(1, 'b', 1))?;
    let two = node.len();
    NodeLike::insert(&mut node, MultiPair::new(1, 'a', 0))?;
    let again = node.len();
    NodeLike::insert(&mut node, MultiPair::new(2, 'c', 2))?;
    assert!(rt; one == 1 && two == 2 && again == 2 && node.len() == 3);
    assert!(rt; MultiPair::new(1, 2, 0) != MultiPair::new(1, 3, 1));
    Ok(())
}

#[test]
fn an_event_without_its_number(rt: HostRuntime) {
    let event_id = Id::from(0);
    let numbered: ChangeEvent<Letters> = ChangeEvent::CreateNode {
        event_id,
        max_value: MultiPair::new(1, 'a', 0),
    };
    let plain: ChangeEvent<Pair<u64, char>> = ChangeEvent::from(numbered);
    let held = match plain {
        ChangeEvent::CreateNode {
            event_id,
            max_value,
        } => event_id == Id::from(0) && max_value.key == 1 && max_value.value == 'a',
        _ => false,
    };
    assert!(rt; held);
}
