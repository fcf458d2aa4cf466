//! An order book. A line `sell GOOD PRICE AMOUNT` offers a good. A line `buy GOOD PRICE AMOUNT`
//! takes at most this amount of its cheapest offer up to this price, and prints what it took. At
//! the end the remaining offers are printed. A line that is refused is printed with the reason.
#![tactic(auto)]

ghost use Rattle.std.specs.Prelude.{◌≡◌, ◌+◌};
ghost use Rattle.std.specs.List.{sum};
ghost use Rattle.indexset.specs.Words.{pair_values};

use anyhow::{Context, Result, bail};
use indexset::BTreeMap;
use indexset::base::Text;

/// The amounts by good and price.
type Offers = BTreeMap<(Text, u64), u64>;

fn main(rt: HostRuntime) -> Result<()> {
    let mut offers = BTreeMap::new(rt.alloc())?;
    trade(&rt, &mut offers)
}

fn trade(rt: &HostRuntime, offers: &mut Offers) -> Result<()> {
    for line in rt.lines(rt.alloc()) {
        let line = line?;
        if let Err(why) = obey(rt, offers, line.as_str()) {
            println!(rt; "{line}: {why}")?;
        }
    }
    for ((good, price), amount) in offers.iter() {
        println!(rt; "{good} {price} {amount}")?;
    }
    Ok(())
}

fn obey(rt: &HostRuntime, offers: &mut Offers, line: &str) -> Result<()> {
    let mut words = line.split_whitespace();
    let (verb, good) = (words.next(), words.next());
    let price = words.next().context("no price")?.parse()?;
    let amount = words.next().context("no amount")?.parse()?;
    match (verb, good) {
        (Some("sell"), Some(good)) => sell(rt, offers, good, price, amount),
        (Some("buy"), Some(good)) => buy(rt, offers, good, price, amount),
        _ => bail!("not understood"),
    }
}

fn sell(rt: &HostRuntime, offers: &mut Offers, good: &str, price: u64, amount: u64) -> Result<()> {
    if let Some(offered) = offers.get_mut((good, &price)) {
        *offered = offered.checked_add(amount).context("too much")?;
        return Ok(());
    }
    offers.insert((Text::copied(rt.alloc(), good)?, price), amount)?;
    Ok(())
}

fn buy(rt: &HostRuntime, offers: &mut Offers, good: &str, limit: u64, amount: u64) -> Result<()> {
    let cheapest = offers.range((good, &0)..=(good, &limit)).next();
    let price = cheapest.context("no offer")?.0.1;
    let taken = take(offers, good, price, amount);
    println!(rt; "bought {good} {price} {taken}")?;
    Ok(())
}

/// Takes at most this amount of an offer, and returns how much it took. An empty offer is removed.
fn take(offers: &mut Offers, good: &str, price: u64, amount: u64) -> u64
    ensures { result + sum (pair_values offers.new.pairs) ≡ sum (pair_values offers.old.pairs) }
{
    let _len = offers.len(); // for the proof: the offers are in order
    let offered = offers.get((good, &price)).copied().unwrap_or(0);
    if offered <= amount {
        offers.remove((good, &price));
        return offered;
    }
    let Some(left) = offers.get_mut((good, &price)) else {
        return 0;
    };
    *left = offered - amount;
    amount
}
