// On what a handle holds: calls that give bytes.
ghost use Rattle.std.specs.Prelude.{◌≡◌, ◌≢◌, ◌≤◌, pos, take};
ghost use Rattle.dbm_model.specs.Calls.{Fetch, First, Next};
ghost use Rattle.ndbm_c.specs.Held.{OnOpen, Calls, Resumes};

use crate::handle::Open;
use dbm_file::Fault;
use ndbm_calls::{CONTENT_ROOM, KEY_ROOM, refusal};

impl Open {
    /// The content of a key: 0, or 1 where the key isn't there.
    pub(crate) fn fetch(
        &mut self,
        key: &[u8],
        out: &mut [u8; CONTENT_ROOM],
        length: &mut usize,
    ) -> i32
        ensures answered { OnOpen self.old self.new result
            (Calls (Fetch key.now) result (take length.new out.new)) }
        ensures same { result ≢ pos 0 → (out.new ≡ out.old) × (length.new ≡ length.old) }
        ensures short { result ≡ pos 0 → length.new ≤ 65535 }
    {
        match self {
            Open::Database(opened) => ndbm_calls::fetch(&mut opened.db, key, out, length),
            _ => refusal(Fault::Broken),
        }
    }

    /// The first key of a new pass: 0, or 1 where there is none.
    pub(crate) fn firstkey(&mut self, out: &mut [u8; KEY_ROOM], length: &mut usize) -> i32
        ensures answered { OnOpen self.old self.new result
            (Calls First result (take length.new out.new)) }
        ensures same { result ≢ pos 0 → (out.new ≡ out.old) × (length.new ≡ length.old) }
        ensures short { result ≡ pos 0 → length.new ≤ 2026 }
    {
        match self {
            Open::Database(opened) => ndbm_calls::firstkey(&mut opened.db, out, length),
            _ => refusal(Fault::Broken),
        }
    }

    /// The next key of the pass: 0, or 1 where there is none.
    pub(crate) fn nextkey(&mut self, out: &mut [u8; KEY_ROOM], length: &mut usize) -> i32
        ensures answered { OnOpen self.old self.new result
            (Calls Next result (take length.new out.new)) }
        ensures same { result ≢ pos 0 → (out.new ≡ out.old) × (length.new ≡ length.old) }
        ensures short { result ≡ pos 0 → length.new ≤ 2026 }
    {
        match self {
            Open::Database(opened) => ndbm_calls::nextkey(&mut opened.db, out, length),
            _ => refusal(Fault::Broken),
        }
    }

    /// Has the pass stand behind this key: 0.
    pub(crate) fn resume(&mut self, key: &[u8]) -> i32
        ensures answered { OnOpen self.old self.new result
            (Resumes key.now result) }
    {
        match self {
            Open::Database(opened) => {
                opened.db.resume(key);
                0
            },
            _ => refusal(Fault::Broken),
        }
    }
}
