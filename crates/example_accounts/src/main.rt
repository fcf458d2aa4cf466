//! Accounts by name. A line `NAME AMOUNT` pays an amount in, and a line `FROM TO AMOUNT` moves it.
//! At the end all balances are printed by name. A line that is refused is printed with the reason.
#![tactic(auto)]

ghost use Rattle.std.specs.Prelude.{◌≡◌};
ghost use Rattle.std.specs.Cmp.Lexicographic.{slice_cmp};
ghost use Rattle.std.specs.List.{sum};
ghost use Rattle.std.specs.Ordering.{nat_cmp};
ghost use Rattle.indexset.specs.Words.{pair_values, set_value};

use anyhow::{Context, Result, bail};
use indexset::BTreeMap;
use indexset::base::Text;

/// The balance of each account.
type Accounts = BTreeMap<Text, u64>;

fn main(rt: HostRuntime) -> Result<()> {
    let mut accounts = BTreeMap::new(rt.alloc())?;
    keep(&rt, &mut accounts)
}

fn keep(rt: &HostRuntime, accounts: &mut Accounts) -> Result<()> {
    for line in rt.lines(rt.alloc()) {
        let line = line?;
        if let Err(why) = obey(rt, accounts, line.as_str()) {
            println!(rt; "{line}: {why}")?;
        }
    }
    for (name, balance) in accounts.iter() {
        println!(rt; "{name} {balance}")?;
    }
    Ok(())
}

fn obey(rt: &HostRuntime, accounts: &mut Accounts, line: &str) -> Result<()> {
    let mut words = line.split_whitespace();
    match (words.next(), words.next(), words.next(), words.next()) {
        (Some(name), Some(amount), None, _) => pay_in(rt, accounts, name, amount.parse()?),
        (Some(from), Some(to), Some(amount), None) => transfer(accounts, from, to, amount.parse()?),
        _ => bail!("not understood"),
    }
}

fn pay_in(rt: &HostRuntime, accounts: &mut Accounts, name: &str, amount: u64) -> Result<()> {
    if let Some(balance) = accounts.get_mut(name) {
        *balance = balance.checked_add(amount).context("too much")?;
        return Ok(());
    }
    accounts.insert(Text::copied(rt.alloc(), name)?, amount)?;
    Ok(())
}

/// Moves an amount from one account to another. The sum of all balances is unchanged.
fn transfer(accounts: &mut Accounts, from: &str, to: &str, amount: u64) -> Result<()>
    ensures { sum (pair_values accounts.new.pairs) ≡ sum (pair_values accounts.old.pairs) }
{
    let balance = *accounts.get(from).context("no account to take from")?;
    let held = *accounts.get(to).context("no account to pay to")?;
    let left = balance.checked_sub(amount).context("not covered")?;
    if to == from {
        return Ok(());
    }
    let raised = held.checked_add(amount).context("too much")?;
    set(accounts, from, left);
    set(accounts, to, raised);
    Ok(())
}

// Writes the balance of an account, if there is one.
fn set(accounts: &mut Accounts, name: &str, balance: u64)
    ensures { accounts.new.pairs
        ≡ set_value (slice_cmp nat_cmp) accounts.old.pairs name.now balance }
{
    if let Some(held) = accounts.get_mut(name) {
        *held = balance;
    }
}
