//! Constants, nodes and pairs.

use super::{has_default, is_made_from, is_ordered};
use indexset::base::constants::{DEFAULT_CUTOFF, DEFAULT_INNER_SIZE};
use indexset::base::multipair::MultiPair;
use indexset::base::node::NodeLike;
use indexset::base::pair::Pair;
use std::test::Fail;

type Node = Vec<u64>;

#[test]
fn constants(rt: HostRuntime) -> Result<(), Fail> {
    assert_eq!(rt; DEFAULT_INNER_SIZE, 1024);
    assert_eq!(rt; DEFAULT_CUTOFF, 512);
    Ok(())
}

#[test]
fn a_node() {
    let _with_capacity = <Node as NodeLike<u64>>::with_capacity;
    let _get_ith = <Node as NodeLike<u64>>::get_ith;
    let _halve = <Node as NodeLike<u64>>::halve;
    let _need_to_split = <Node as NodeLike<u64>>::need_to_split;
    let _len = <Node as NodeLike<u64>>::len;
    let _capacity = <Node as NodeLike<u64>>::capacity;
    let _insert = <Node as NodeLike<u64>>::insert;
    let _contains = <Node as NodeLike<u64>>::contains;
    let _try_select = <Node as NodeLike<u64>>::try_select;
    let _rank = <Node as NodeLike<u64>>::rank;
    let _delete = <Node as NodeLike<u64>>::delete;
    let _replace = <Node as NodeLike<u64>>::replace;
    let _max = <Node as NodeLike<u64>>::max;
    let _min = <Node as NodeLike<u64>>::min;
    let _iter = <Node as NodeLike<u64>>::iter;
}

#[test]
fn pairs() {
    let _pair = Pair {
        key: 1u64,
        value: 'a',
    };
    let _numbered = MultiPair {
        key: 1u64,
        value: 'a',
        discriminator: 0,
    };
    let _new = MultiPair::<u64, char>::new;
    is_ordered::<Pair<u64, char>>();
    is_ordered::<MultiPair<u64, char>>();
    has_default::<Pair<u64, char>>();
    has_default::<MultiPair<u64, char>>();
    is_made_from::<MultiPair<u64, char>, Pair<u64, char>>();
}
