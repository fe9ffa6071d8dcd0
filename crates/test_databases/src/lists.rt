//! Lists of calls as text, and what is replied to them, as text too: a list of Rust's values takes
//! half a second a row to check, and an assertion for each reply takes longer.
//!
//! A line is a call, as `put a #01`. A word of it is its letters; `.` is no bytes, and `#` stands
//! before hexadecimal digits in pairs, which `*` repeats, as in `#07*1499`.

use dbm_file::{Call, Database, Octets, StoreMode, run};
use page_io::PageStore;
use std::alloc::Global;
use std::str::SplitWhitespace;
use std::test::Fail;

/// The bytes of hexadecimal digits, so many times.
fn repeated(alloc: Global, digits: &str, times: usize) -> Result<Vec<u8>, Fail> {
    let once = hex::decode(alloc, digits)?;
    let mut bytes = Vec::new(alloc);
    for _ in 0..times {
        bytes.extend_from_slice(&once)?;
    }
    Ok(bytes)
}

/// The bytes of a word.
fn bytes_of(alloc: Global, word: &str) -> Result<Vec<u8>, Fail> {
    if word == "." {
        return Ok(Vec::new(alloc));
    }
    let Some(spelled) = word.strip_prefix('#') else {
        return Ok(Vec::from_slice(alloc, word.as_bytes())?);
    };
    match spelled.split_once('*') {
        Some((digits, times)) => repeated(alloc, digits, times.parse()?),
        None => repeated(alloc, spelled, 1),
    }
}

/// The bytes of the next word.
fn next_octets(alloc: Global, words: &mut SplitWhitespace) -> Result<Octets, Fail> {
    let word = words.next().ok_or("a further word of a call")?;
    Ok(Octets::from(bytes_of(alloc, word)?))
}

/// The key and the content of the next two words, to be stored.
fn next_store(alloc: Global, words: &mut SplitWhitespace, mode: StoreMode) -> Result<Call, Fail> {
    let key = next_octets(alloc, words)?;
    let content = next_octets(alloc, words)?;
    Ok(Call::Store { key, content, mode })
}

/// The call of the next words.
fn next_call(alloc: Global, words: &mut SplitWhitespace) -> Result<Call, Fail> {
    match words.next().unwrap_or_default() {
        "insert" => next_store(alloc, words, StoreMode::Insert),
        "put" => next_store(alloc, words, StoreMode::Replace),
        "fetch" => Ok(Call::Fetch(next_octets(alloc, words)?)),
        "delete" => Ok(Call::Delete(next_octets(alloc, words)?)),
        "first" => Ok(Call::First),
        "next" => Ok(Call::Next),
        "error" => Ok(Call::Error),
        "clear" => Ok(Call::Clear),
        "upgrade" => Ok(Call::Upgrade),
        _ => Err("the name of a call".into()),
    }
}

/// The call of a line.
fn call_of(alloc: Global, text: &str) -> Result<Call, Fail> {
    let mut words = text.split_whitespace();
    let call = next_call(alloc, &mut words)?;
    match words.next() {
        Some(_) => Err("the end of a call".into()),
        None => Ok(call),
    }
}

/// The calls of some lines, as `run` takes them.
pub fn calls_of(alloc: Global, text: &str) -> Result<Vec<Call>, Fail> {
    let mut calls = Vec::new(alloc);
    for line in text.lines() {
        if !line.trim().is_empty() {
            calls.push(call_of(alloc, line)?)?;
        }
    }
    Ok(calls)
}

/// What a database replies to the calls of some lines.
pub fn replies_to<S: PageStore>(
    alloc: Global,
    db: &mut Database<S>,
    calls: &str,
) -> Result<String, Fail> {
    let replies = run(alloc, db, &calls_of(alloc, calls)?)?;
    Ok(format!(in alloc; "{replies:?}")?)
}
