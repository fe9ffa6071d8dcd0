// Calls that give bytes.
ghost use Rattle.std.specs.Prelude.{◌≡◌, ◌≢◌, ◌≤◌, ℕ, pos, take, IfOk, IfSome};
ghost use Rattle.std.specs.Prelude.{length as length_of};
ghost use Rattle.dbm_model.specs.Calls.{Fetch, First, Next, NoRecord};
ghost use Rattle.dbm_file.specs.Calls.{lent_reply};
ghost use Rattle.dbm_file.specs.Passing.{pass_of};
ghost use Rattle.ndbm_calls.specs.Statuses.{status_of, GivesBytes, IsAnswered};

use crate::status::refusal;
use dbm_file::{Database, Fault};
use page_io::PageStore;

/// How many bytes C has room for where a key is given: more than a key can have.
pub const KEY_ROOM: usize = 2048;

/// How many it has room for where a content is given.
pub const CONTENT_ROOM: usize = 65_536;

/// Copies what a call lends to where C wants it, and tells how many bytes it has.
fn give(lent: Result<Option<&[u8]>, Fault>, out: &mut [u8], length: &mut usize) -> i32
    requires { IfOk lent (λ found. IfSome found (λ bytes.
        length_of bytes.now ≤ length_of out.old)) }
    ensures status { result ≡ status_of (lent_reply NoRecord lent.entry) }
    ensures bytes { GivesBytes (lent_reply NoRecord lent.entry) (take length.new out.new) }
    ensures same { result ≢ pos 0 → (out.new ≡ out.old) × (length.new ≡ length.old) }
    ensures short { (most : ℕ)
        → IfOk lent.entry (λ found. IfSome found (λ bytes. length_of bytes.now ≤ most))
        → result ≡ pos 0 → length.new ≤ most }
{
    match lent {
        Ok(Some(bytes)) => {
            out[..bytes.len()].copy_from_slice(bytes);
            *length = bytes.len();
            0
        }
        Ok(None) => 1,
        Err(fault) => refusal(fault),
    }
}

/// Gives the content of a key: 0, or 1 where the key isn't there. The faults are those of
/// `Database::fetch`.
pub fn fetch<S: PageStore>(
    db: &mut Database<S>,
    key: &[u8],
    out: &mut [u8; CONTENT_ROOM],
    length: &mut usize,
) -> i32
    ensures answered { IsAnswered db.old db.new (Fetch key.now) result (take length.new out.new) }
    ensures same { result ≢ pos 0 → (out.new ≡ out.old) × (length.new ≡ length.old) }
    ensures short { result ≡ pos 0 → length.new ≤ 65535 }
    ensures pass { pass_of db.new ≡ pass_of db.old }
{
    give(db.fetch(key), out, length)
}

/// Begins a pass and gives its first key: 0, or 1 where there is none. The faults are those of
/// `Database::firstkey`.
pub fn firstkey<S: PageStore>(
    db: &mut Database<S>,
    out: &mut [u8; KEY_ROOM],
    length: &mut usize,
) -> i32
    ensures answered { IsAnswered db.old db.new First result (take length.new out.new) }
    ensures same { result ≢ pos 0 → (out.new ≡ out.old) × (length.new ≡ length.old) }
    ensures short { result ≡ pos 0 → length.new ≤ 2026 }
{
    give(db.firstkey(), out, length)
}

/// Gives the next key of the pass: 0, or 1 where there is none. The faults are those of
/// `Database::nextkey`.
pub fn nextkey<S: PageStore>(
    db: &mut Database<S>,
    out: &mut [u8; KEY_ROOM],
    length: &mut usize,
) -> i32
    ensures answered { IsAnswered db.old db.new Next result (take length.new out.new) }
    ensures same { result ≢ pos 0 → (out.new ≡ out.old) × (length.new ≡ length.old) }
    ensures short { result ≡ pos 0 → length.new ≤ 2026 }
{
    give(db.nextkey(), out, length)
}
