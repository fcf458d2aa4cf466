//! Files that are not journals, and numbers that run out.

use super::support::{lines, opened, shown};
use crate::files::TABLE;
use indexset_journal::{Journal, JournalError};
use sqlite::{Connection, MemStore};
use std::alloc::Global;
use std::test::Fail;

/// Returns a store in memory after these statements.
fn store_after(alloc: Global, statements: &str) -> Result<MemStore, JournalError> {
    let mut conn = Connection::open_in_memory(alloc)?;
    conn.execute_batch(statements)?;
    Ok(conn.into_store())
}

/// Returns the error of opening a store after these statements.
fn refusal(alloc: Global, statements: &str) -> Result<Option<JournalError>, JournalError> {
    let store = store_after(alloc, statements)?;
    Ok(opened(alloc, store).err())
}

/// Returns a journal over a table with these rows.
fn journal_of(
    alloc: Global,
    rows: &str,
) -> Result<(Journal<MemStore>, Vec<Vec<u8>>), JournalError> {
    let mut conn = Connection::open_in_memory(alloc)?;
    conn.execute(TABLE, &[])?;
    conn.execute_batch(rows)?;
    opened(alloc, conn.into_store())
}

#[test]
fn only_a_table_of_lines_opens(rt: HostRuntime) -> Result<(), Fail> {
    let alloc = rt.alloc();
    let others = [
        "",
        "CREATE TABLE a (number INTEGER PRIMARY KEY, line TEXT); CREATE TABLE b (x)",
        "CREATE TABLE a (number INTEGER PRIMARY KEY, line TEXT); CREATE INDEX b ON a (line)",
        "CREATE TABLE a (number INTEGER PRIMARY KEY, line REAL)",
        "CREATE TABLE a (number INTEGER PRIMARY KEY, line TEXT); INSERT INTO a VALUES (1, NULL)",
        "CREATE TABLE a (number INTEGER PRIMARY KEY, line TEXT); INSERT INTO a VALUES (1, x'00')",
        "CREATE TABLE a (number INTEGER PRIMARY KEY, line INT); INSERT INTO a VALUES (1, 1)",
        "CREATE TABLE a (number INTEGER PRIMARY KEY, line TEXT); INSERT INTO a VALUES (-1, 'x')",
        "CREATE TABLE a (number INTEGER PRIMARY KEY, line TEXT, y TEXT); INSERT INTO a VALUES (1, 'x', 'y')",
        "CREATE TABLE a (line TEXT); INSERT INTO a VALUES ('x')",
    ];
    for statements in others {
        assert!(rt; refusal(alloc, statements)? == Some(JournalError::NotLines));
    }
    let said = format!(in alloc; "{}", JournalError::NotLines)?;
    assert!(rt; said.as_str() == "the file holds something other than lines");
    Ok(())
}

#[test]
fn rows_of_other_hands_are_lines(rt: HostRuntime) -> Result<(), Fail> {
    let alloc = rt.alloc();
    let rows = "INSERT INTO kept VALUES (7, 'b'), (3, 'a'), (40, 'c')";
    let (mut journal, found) = journal_of(alloc, rows)?;
    assert!(rt; shown(alloc, found.as_slice())?.as_slice() == b"a b c ".as_slice());
    journal.append(lines(alloc, &["d"])?.as_slice())?;
    let (_again, found) = opened(alloc, journal.into_store())?;
    assert!(rt; shown(alloc, found.as_slice())?.as_slice() == b"a b c d ".as_slice());
    Ok(())
}

#[test]
fn numbers_end_and_begin_again(rt: HostRuntime) -> Result<(), Fail> {
    let alloc = rt.alloc();
    let (mut journal, _found) = journal_of(
        alloc,
        "INSERT INTO kept VALUES (9223372036854775806, 'a')",
    )?;
    let two = lines(alloc, &["b", "c"])?;
    assert!(rt; journal.append(two.as_slice()) == Err(JournalError::Numbers));
    journal.append(lines(alloc, &["d"])?.as_slice())?;
    assert!(rt; journal.append(lines(alloc, &["e"])?.as_slice()) == Err(JournalError::Numbers));
    let (mut journal, found) = opened(alloc, journal.into_store())?;
    assert!(rt; shown(alloc, found.as_slice())?.as_slice() == b"a d ".as_slice());
    journal.replace(found.as_slice())?;
    journal.append(two.as_slice())?;
    let (_again, found) = opened(alloc, journal.into_store())?;
    assert!(rt; shown(alloc, found.as_slice())?.as_slice() == b"a d b c ".as_slice());
    Ok(())
}
