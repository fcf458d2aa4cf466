//! Small programs over the library, one in each file, each proved to meet its contract. The program
//! prints what they return.
#![tactic(auto)]

mod change_log;
mod copies;
mod counting;
mod idioms;
mod journal;
mod listing;
mod matching;
mod names;
mod orders;
mod prices;
mod runs;
mod scores;
mod shards;
mod stock;
mod strings;
mod tags;
mod takeover;
mod wire;

use anyhow::Result;
use indexset::base::Text;
use indexset::base::pair::Pair;
use indexset::replica::Replica;
use indexset::{BTreeMap, BTreeSet};

fn main(rt: HostRuntime) -> Result<()> {
    show_scores(&rt)?;
    show_matching(&rt)?;
    show_counts(&rt)?;
    show_prices(&rt)?;
    show_changes(&rt)?;
    show_takeover(&rt)?;
    show_stock(&rt)?;
    show_wire(&rt)?;
    show_idioms(&rt)
}

fn show_idioms(rt: &HostRuntime) -> Result<()> {
    let mut set = BTreeSet::new(rt.alloc())?;
    idioms::sets::extend_to(&mut set, 5)?;
    let dropped = idioms::sets::drop_above(&mut set, 2);
    println!(rt; "dropped {dropped}: {set:?}")?;
    let mut map = idioms::maps::two(rt.alloc())?;
    let last = idioms::maps::last_values(rt.alloc(), &map, 1)?;
    println!(rt;
        "{map:?}: greatest {:?}, last {last:?}",
        idioms::maps::greatest(&map)
    )?;
    map.insert(2, 0)?;
    map.insert(5, 0)?;
    let taken = idioms::maps::take_zeros(rt.alloc(), &mut map, 5)?;
    println!(rt; "taken {taken:?}: {map:?}")?;
    let mut groups = BTreeMap::new(rt.alloc())?;
    for value in [10, 20] {
        idioms::maps::group(rt.alloc(), &mut groups, value % 3, value)?;
    }
    println!(rt; "{groups:?}")?;
    Ok(())
}

fn show_scores(rt: &HostRuntime) -> Result<()> {
    let mut board = BTreeSet::new(rt.alloc())?;
    play_scores(rt, &mut board)
}

fn play_scores(rt: &HostRuntime, board: &mut BTreeSet<u64>) -> Result<()> {
    for score in [30, 10, 20, 50, 40] {
        scores::enter(board, score)?;
    }
    println!(rt; "best: {:?}", scores::best(board))?;
    println!(rt; "scores from 35: {}", scores::scores_from(board, 35))?;
    println!(rt;
        "second page of two: {:?}",
        listing::page(rt.alloc(), board, 2, 2)?
    )?;
    println!(rt; "pages: {}", listing::page_count(board, 2))?;
    println!(rt; "taken from 35: {:?}", scores::take_from(board, 35)?)?;
    Ok(())
}

fn show_matching(rt: &HostRuntime) -> Result<()> {
    let mut bids = BTreeSet::from(rt.alloc(), vec![in rt.alloc(); 98, 101, 99]?)?;
    let mut asks = BTreeSet::from(rt.alloc(), vec![in rt.alloc(); 100, 103, 102]?)?;
    match_orders(rt, &mut bids, &mut asks)
}

fn match_orders(
    rt: &HostRuntime,
    bids: &mut BTreeSet<u64>,
    asks: &mut BTreeSet<u64>,
) -> Result<()> {
    for _ in 0..2 {
        let found = matching::take_match(bids, asks);
        println!(rt; "match: {found:?}")?;
    }
    println!(rt; "asks: {asks:?}")?;
    println!(rt; "in all: {}", matching::clear(asks))?;
    Ok(())
}

fn show_counts(rt: &HostRuntime) -> Result<()> {
    let low: BTreeSet<u64> = (0..1000u64).collect(rt.alloc())?;
    let high: BTreeSet<u64> = (900..2000u64).collect(rt.alloc())?;
    show_counts_of(rt, &low, &high)
}

fn show_counts_of(rt: &HostRuntime, low: &BTreeSet<u64>, high: &BTreeSet<u64>) -> Result<()> {
    println!(rt; "either: {:?}", counting::count_of_either(low, high))?;
    println!(rt; "both: {}", counting::count_of_both(low, high))?;
    // One comparison finds one of two nodes, of 512 and 588 numbers, and ten find the position in
    // either.
    for key in [950, 899, 2000] {
        let (place, comparisons) = counting::place_of(high, key);
        println!(rt; "place of {key}: {place:?}, by {comparisons} comparisons")?;
    }
    Ok(())
}

fn show_prices(rt: &HostRuntime) -> Result<()> {
    let mut prices = BTreeMap::new(rt.alloc())?;
    play_prices(rt, &mut prices)
}

fn play_prices(rt: &HostRuntime, prices: &mut BTreeMap<u64, u64>) -> Result<()> {
    for (item, price) in [(7, 120), (3, 80), (7, 130)] {
        prices::set_price(prices, item, price)?;
    }
    println!(rt; "prices: {prices:?}")?;
    println!(rt; "price of 7: {:?}", prices::price_of(prices, 7))?;
    println!(rt; "price of 5: {}", prices::price_or(prices, 5, 95)?)?;
    println!(rt; "priced below 7: {}", prices::priced_below(prices, 7))?;
    prices::raise(prices);
    println!(rt; "raised: {prices:?}")?;
    println!(rt; "price of 3: {:?}", prices::forget(prices, 3))?;
    Ok(())
}

fn show_changes(rt: &HostRuntime) -> Result<()> {
    let mut tree = change_log::Numbers::with_maximum_node_size(rt.alloc(), 2);
    play_changes(rt, &mut tree)?;
    let mut quotes = change_log::Quotes::with_maximum_node_size(rt.alloc(), 2);
    println!(rt; "quote of 3: {:?}", change_log::quote(&mut quotes, 3, 80)?)?;
    Ok(())
}

fn play_changes(rt: &HostRuntime, tree: &mut change_log::Numbers) -> Result<()> {
    for number in [10, 20, 30] {
        let events = change_log::put(tree, number)?;
        println!(rt; "put {number}: {} events", events.len())?;
    }
    println!(rt; "holds 20: {}", change_log::hold(tree, 20)?)?;
    let events = change_log::take(tree, 10)?;
    println!(rt; "take 10: {} events", events.len())?;
    Ok(())
}

fn show_takeover(rt: &HostRuntime) -> Result<()> {
    let mut tree = change_log::Numbers::with_maximum_node_size(rt.alloc(), 4);
    let mut events = Vec::new(rt.alloc());
    journal::insert(&mut tree, &mut events, 3)?;
    journal::insert(&mut tree, &mut events, 1)?;
    journal::insert(&mut tree, &mut events, 2)?;
    if events.len() >= 3 {
        let order = [1, 0, 0, 2, 1];
        let late = takeover::resume(Vec::new(rt.alloc()), 0, events.as_slice(), &order)?;
        println!(rt; "after 1, 0, 0, 2, 1 a copy awaits {}", late.next())?;
    }
    let mut copy = Replica::new(rt.alloc(), 0);
    for event in events.as_slice() {
        println!(rt; "event {event}")?;
        copy.apply(event)?;
    }
    let mut next = takeover::promote(copy, 4)?;
    for event in change_log::put(&mut next, 4)?.as_slice() {
        println!(rt; "event {event}")?;
    }
    println!(rt; "in all: {}", next.len())?;
    Ok(())
}

fn show_stock(rt: &HostRuntime) -> Result<()> {
    let mut stock = stock::Stock::with_maximum_node_size(rt.alloc(), 4);
    let mut copy = Replica::new(rt.alloc(), 0);
    for (name, count) in [("pears", 3), ("apples", 5), ("plums", 7), ("apples", 6)] {
        let name = Text::copied(rt.alloc(), name)?;
        stock::set_count(&mut stock, &mut copy, name, count)?;
    }
    stock::forget(&mut stock, &mut copy, "plums")?;
    for Pair { key, value } in copy.iter() {
        println!(rt; "{key}: {value}")?;
    }
    Ok(())
}

fn show_wire(rt: &HostRuntime) -> Result<()> {
    let mut prices = wire::Prices::with_maximum_node_size(rt.alloc(), 4);
    let (_, events) = prices.insert_cdc(wire::Side::Sell, -5)?;
    for event in events.as_slice() {
        println!(rt; "sent: {event}")?;
        let read = wire::resent(rt.alloc(), event)?;
        println!(rt; "read: {}", read.is_some())?;
    }
    Ok(())
}
