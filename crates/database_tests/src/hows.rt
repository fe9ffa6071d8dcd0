//! How a database is opened, as text, and tables of openings that are refused: a line is an opening,
//! an arrow and its fault, as `truncate 0 -> BadLimit`.

use dbm_file::{Access, CommitKind, Fault, OpenHow, Version};
use std::alloc::{AllocError, Global};
use std::test::Fail;

/// How a database that is there is opened, with no flag.
pub const PLAIN: OpenHow = OpenHow {
    access: Access::ReadWrite,
    create: false,
    exclusive: false,
    truncate: false,
    limit: 0,
    version: Version::V1,
    commits: CommitKind::Images,
    kept_pages: None,
};

/// How some words say, which are an access, flags and a limit. Without a word it is `PLAIN`.
pub fn how_of(text: &str) -> Result<OpenHow, Fail> {
    let mut how = PLAIN;
    for word in text.split_whitespace() {
        match word {
            "reading" => how.access = Access::ReadOnly,
            "writing" => how.access = Access::WriteOnly,
            "create" => how.create = true,
            "exclusive" => how.exclusive = true,
            "truncate" => how.truncate = true,
            "v2" => how.version = Version::V2,
            "log" => how.commits = CommitKind::Log,
            "plain" => {}
            _ => how.limit = word.parse()?,
        }
    }
    Ok(how)
}

/// What a line of a table has in front of its arrow and behind it. A line without a word is none of
/// the table.
pub fn row_of(line: &str) -> Option<(&str, &str)> {
    if line.trim().is_empty() {
        return None;
    }
    let (before, behind) = line.split_once("->").unwrap_or((line, ""));
    Some((before.trim(), behind.trim()))
}

/// Whether there is a fault, of this name.
pub fn is_fault(alloc: Global, fault: Option<Fault>, name: &str) -> Result<bool, AllocError> {
    let told = format!(in alloc; "{fault:?}")?;
    let wanted = format!(in alloc; "Some({name})")?;
    Ok(told.as_str() == wanted.as_str())
}
