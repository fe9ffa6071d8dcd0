// The engines of loads.
ghost use Rattle.std.specs.Prelude.{◌≡◌, ◌≤◌, Err, OnOk, IfSome, Some, [], length};
ghost use Rattle.dbm_file.specs.Answers.{IsSameDatabase};
ghost use Rattle.dbm_lines.specs.Dumps.{dump_of, text_dump_of};
ghost use Rattle.dbm_lines.specs.Forms.{pair_in, is_passed_in, dump_in};
ghost use Rattle.dbm_engines.specs.LoadEndings.{IsBadFor, TellsWhy};
ghost use Rattle.dbm_engines.specs.LoadRefusals.{StopsByFault};
ghost use Rattle.dbm_engines.specs.Loading.{Loads, LoadsLine, IsLoad};

use crate::batch::Batch;
use crate::grouping::load_groups;
use crate::load_stop::LoadStop;
use crate::storing::store_alone;
use dbm_file::Database;
use dbm_lines::{Buffers, TextForm, read_line};
use dbm_progress::Progress;
use page_io::PageStore;
use std::alloc::Global;
use std::io::BufRead;

/// Stores the pair that each line says, in place of an older one of its key, and stops at the first
/// line that says none, told as `Bad`, or at the first store that is refused, told as `Refused`. A
/// line is `key content`, may have 139,264 bytes without its line feed, and a text 4,294,967,295.
/// `Memory` comes before anything is read; a store that finds none is told as `Refused`. `Read`
/// comes where reading fails or the text is too long. The stores made so far stand.
///
/// So many lines as `group` says may share a commit, as far as they go into 32 MB; of 0 and 1 each
/// line has its own, and takes no memory of its own. A pair for which there is no memory beside
/// the others has a commit of its own. Each line before a bad one, and before a failed reading, is
/// stored.
pub fn load_engine<S: PageStore, R: BufRead, P: Progress>(
    alloc: Global,
    db: &mut Database<S>,
    reader: &mut R,
    group: u32,
    progress: &mut P,
) -> Result<(), LoadStop>
    ensures { IsLoad TextForm.Hexadecimal dump_of R.remaining reader.old reader.new db.old db.new
        result }
{
    load_in_form(alloc, db, reader, TextForm::Hexadecimal, group, progress)
}

/// Stores the pair that each line says as two fields with a tab between them, and otherwise does
/// and fails as `load_engine`. An empty line and one that begins with `#` are passed over. A line
/// may have 266,240 bytes without its line feed, one that is passed over any number. A byte of a
/// field that no backslash begins stands for itself, so a text typed by hand loads.
pub fn load_text_engine<S: PageStore, R: BufRead, P: Progress>(
    alloc: Global,
    db: &mut Database<S>,
    reader: &mut R,
    group: u32,
    progress: &mut P,
) -> Result<(), LoadStop>
    ensures { IsLoad TextForm.Escaped text_dump_of R.remaining reader.old reader.new db.old db.new
        result }
{
    load_in_form(alloc, db, reader, TextForm::Escaped, group, progress)
}

/// Stores the pair that each line of this form says.
fn load_in_form<S: PageStore, R: BufRead, P: Progress>(
    alloc: Global,
    db: &mut Database<S>,
    reader: &mut R,
    form: TextForm,
    group: u32,
    progress: &mut P,
) -> Result<(), LoadStop>
    ensures { IsLoad form (dump_in form) R.remaining reader.old reader.new db.old db.new result }
{
    let Ok(mut buffers) = Buffers::new(alloc, form) else {
        return Err(LoadStop::Memory);
    };
    load_with(alloc, db, reader, &mut buffers, group, progress)
}

/// The engine with its buffers.
fn load_with<S: PageStore, R: BufRead, P: Progress>(
    alloc: Global,
    db: &mut Database<S>,
    reader: &mut R,
    buffers: &mut Buffers,
    group: u32,
    progress: &mut P,
) -> Result<(), LoadStop>
    ensures loads { Loads buffers.old.form result (R.remaining reader.old) db.old db.new }
    ensures why { TellsWhy buffers.old.form result (R.remaining reader.old) }
    ensures read { OnOk result (IfSome (R.remaining reader.old)
        (λ text. R.remaining reader.new ≡ Some [])) }
    ensures size { OnOk result (IfSome (R.remaining reader.old)
        (λ text. length text ≤ 4294967295)) }
    ensures faults { StopsByFault result }
    ensures goes { IsSameDatabase db.old db.new }
    ensures no_memory { result ≡ Err LoadStop.Memory → ⊥ }
{
    if group < 2 {
        return load_lines(db, reader, buffers, progress);
    }
    let mut batch = Batch::new(alloc, group);
    load_groups(db, reader, buffers, &mut batch, progress)
}

/// The same, of lines with a commit each.
fn load_lines<S: PageStore, R: BufRead, P: Progress>(
    db: &mut Database<S>,
    reader: &mut R,
    buffers: &mut Buffers,
    progress: &mut P,
) -> Result<(), LoadStop>
    ensures loads { Loads buffers.old.form result (R.remaining reader.old) db.old db.new }
    ensures why { TellsWhy buffers.old.form result (R.remaining reader.old) }
    ensures read { OnOk result (IfSome (R.remaining reader.old)
        (λ text. R.remaining reader.new ≡ Some [])) }
    ensures size { OnOk result (IfSome (R.remaining reader.old)
        (λ text. length text ≤ 4294967295)) }
    ensures faults { StopsByFault result }
    ensures goes { IsSameDatabase db.old db.new }
    ensures no_memory { result ≡ Err LoadStop.Memory → ⊥ }
{
    let mut left = u32::MAX;
    for number in 1..u64::MAX {
        let read = read_line(reader, buffers, &mut left);
        if !read.map_err(|_| LoadStop::Read)?.is_line() {
            return Ok(());
        }
        load_line(db, buffers, number, progress)?;
    }
    Err(LoadStop::Read)
}

/// Stores the pair that the line says, which has this number, or passes over the line.
fn load_line<S: PageStore, P: Progress>(
    db: &mut Database<S>,
    buffers: &mut Buffers,
    number: u64,
    progress: &mut P,
) -> Result<(), LoadStop>
    ensures line { LoadsLine (is_passed_in buffers.old.form buffers.old.line.items) result
        (pair_in buffers.old.form buffers.old.line.items) number db.old db.new }
    ensures why { IsBadFor buffers.old.form buffers.old.line.items result }
    ensures form { buffers.new.form ≡ buffers.old.form }
    ensures faults { StopsByFault result }
    ensures goes { IsSameDatabase db.old db.new }
    ensures no_memory { result ≡ Err LoadStop.Memory → ⊥ }
{
    if buffers.is_passed_over() {
        return Ok(());
    }
    if !buffers.pair() {
        let why = buffers.why_bad();
        return Err(LoadStop::Bad { line: number, why });
    }
    store_alone(db, number, &buffers.key, &buffers.content, progress)
}
