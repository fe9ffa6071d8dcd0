// A new table that is filled from a text.
ghost use Rattle.dbm_lines.specs.Forms.{dump_in};
ghost use Rattle.dbm_engines.specs.Loading.{IsLoad};

use dbm_engines::{LoadStop, load_engine, load_text_engine};
use dbm_file::Database;
use dbm_lines::TextForm;
use dbm_progress::Progress;
use page_io::PageStore;
use std::alloc::Global;
use std::io::BufRead;

/// How many lines may share a commit.
const GROUP: u32 = 10_000;

/// Stores the pair that each line of this form says, as the engines of loads do, in groups.
pub fn fill<S: PageStore, R: BufRead, P: Progress>(
    alloc: Global,
    db: &mut Database<S>,
    reader: &mut R,
    form: TextForm,
    progress: &mut P,
) -> Result<(), LoadStop>
    ensures { IsLoad form (dump_in form) R.remaining reader.old reader.new db.old db.new result }
{
    match form {
        TextForm::Hexadecimal => load_engine(alloc, db, reader, GROUP, progress),
        TextForm::Escaped => load_text_engine(alloc, db, reader, GROUP, progress),
    }
}
