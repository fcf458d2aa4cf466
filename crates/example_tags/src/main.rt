//! A secondary index: documents by tag. A line `+ TAG NUMBER` adds a document to a tag, and a line
//! `- TAG NUMBER` removes it. A line `? TAG` prints the documents of a tag in insertion order. A
//! line that is refused is printed with the reason.
#![tactic(auto)]

ghost use Rattle.std.specs.Prelude.{◌≡◌, nat_eq, OnOk};
ghost use Rattle.std.specs.Cmp.Lexicographic.{slice_cmp};
ghost use Rattle.std.specs.Ordering.{nat_cmp};
ghost use Rattle.indexset.specs.Words.{concat, pairs_of, without_first};

use anyhow::{Result, bail};
use indexset::base::Text;
use indexset::concurrent::multimap::BTreeMultiMap;

/// The documents by tag.
type Index = BTreeMultiMap<Text, u64>;

fn main(rt: HostRuntime) -> Result<()> {
    let mut index = Index::new(rt.alloc());
    answer_all(&rt, &mut index)
}

fn answer_all(rt: &HostRuntime, index: &mut Index) -> Result<()> {
    for line in rt.lines(rt.alloc()) {
        let line = line?;
        if let Err(why) = answer(rt, index, line.as_str()) {
            println!(rt; "{line}: {why}")?;
        }
    }
    Ok(())
}

fn answer(rt: &HostRuntime, index: &mut Index, line: &str) -> Result<()> {
    let mut words = line.split_whitespace();
    match (words.next(), words.next(), words.next(), words.next()) {
        (Some("+"), Some(tag), Some(document), None) => add(rt, index, tag, document.parse()?),
        (Some("-"), Some(tag), Some(document), None) => remove(index, tag, document.parse()?),
        (Some("?"), Some(tag), None, _) => show(rt, index, tag),
        _ => bail!("not understood"),
    }
}

fn add(rt: &HostRuntime, index: &mut Index, tag: &str, document: u64) -> Result<()> {
    if index
        .insert(Text::copied(rt.alloc(), tag)?, document)?
        .is_some()
    {
        bail!("it was listed");
    }
    Ok(())
}

/// Removes a document from a tag. The other documents of the tag are unchanged.
fn remove(index: &mut Index, tag: &str, document: u64) -> Result<()>
    ensures { OnOk result (pairs_of (slice_cmp nat_cmp) (concat index.new.nodes) tag.now
        ≡ without_first (λ pair. nat_eq pair.value document)
        (pairs_of (slice_cmp nat_cmp) (concat index.old.nodes) tag.now)) }
{
    if index.remove(tag, &document)?.is_none() {
        bail!("it is not listed");
    }
    Ok(())
}

fn show(rt: &HostRuntime, index: &Index, tag: &str) -> Result<()> {
    println!(rt; "{tag} has {}", index.count(tag))?;
    for (_, document) in index.get(tag) {
        println!(rt; "  {document}")?;
    }
    Ok(())
}
