// The engine of a script.
ghost use Rattle.std.specs.Prelude.{◌≡◌, ◌+◌, ◌≤◌, OnOk, IfOk, IfErr, IfSome, Some, [], length, ◌∷◌};
ghost use Rattle.dbm_fault.specs.Among.{IsErrAmong};
ghost use Rattle.std.specs.Io.KnownBytes.{Appends};
ghost use Rattle.dbm_model.specs.Calls.{Store, Fetch, Delete, First, Next, Error, Clear};
ghost use Rattle.dbm_file.specs.Answers.{IsSameDatabase};
ghost use Rattle.dbm_file.specs.Calls.{mode_of};
ghost use Rattle.dbm_file.specs.Database.{AtEachHandle};
ghost use Rattle.dbm_lines.specs.Bounds.{longest_in};
ghost use Rattle.dbm_lines.specs.Forms.{call_in, script_in};
ghost use Rattle.dbm_lines.specs.Reading.{is_line, ReadsLine, IsCounted};
ghost use Rattle.dbm_engines.specs.Scripts.{MakesFirst, AnswersFirst, AnswersScript, AnswersLine};
ghost use Rattle.dbm_engines.specs.Tellings.{TellsLine, TellsScript};

use crate::replies::{write_fault, write_fetched, write_passed};
use dbm_fault::EngineFault;
use dbm_file::{Database, DeleteReply, StoreMode, StoreReply};
use dbm_lines::{
    Buffers, LineRead, Request, TextForm, read_line, write_absent, write_bad_line, write_deleted,
    write_kept, write_number, write_stored,
};
use page_io::PageStore;
use std::alloc::Global;
use std::io::{self, BufRead, Write};

/// Reads lines of this form to the end, makes the call that each asks for, and writes one line for
/// each: the reply, or `-1 line` where the line asks for no call. A line of words may have 139,264
/// bytes without its line feed, one of fields 266,240, and a text 4,294,967,295. What is written is
/// flushed where the reader's buffer holds no further whole line, since reading on may wait.
/// `Memory` comes before anything is read, `Read` where reading fails or the text is too long, and
/// `Write` where writing fails, also of a call that was made; the calls made so far stand.
pub fn script_engine<S: PageStore, R: BufRead, W: Write>(
    alloc: Global,
    db: &mut Database<S>,
    form: TextForm,
    reader: &mut R,
    writer: &mut W,
) -> Result<(), EngineFault>
    ensures read { OnOk result (IfSome (R.remaining reader.old)
        (λ text. R.remaining reader.new ≡ Some [])) }
    ensures size { OnOk result (IfSome (R.remaining reader.old)
        (λ text. length text ≤ 4294967295)) }
    ensures answer { AtEachHandle db.old (λ h.
        OnOk result (IfSome (R.remaining reader.old)
        (λ text. AnswersScript form (script_in form text) db.old db.new h (W.contents writer.old)
        (W.contents writer.new)))) }

    // Whatever it answers, the calls made are those of the first lines, and they stand. A line that
    // was cut short makes none.
    ensures stands { AtEachHandle db.old
        (λ h. MakesFirst form (R.remaining reader.old) db.old db.new h) }
    ensures cut { AtEachHandle db.old (λ h.
        result ≡ Err EngineFault.Read
        → AnswersFirst form (R.remaining reader.old) db.old db.new h (W.contents writer.old)
        (W.contents writer.new)) }

    // On any device, whatever its bytes: each line that is written tells a reply that the database
    // gave to its own call.
    ensures tells { OnOk result (IfSome (R.remaining reader.old)
        (λ text. TellsScript form (script_in form text) db.old db.new (W.contents writer.old)
        (W.contents writer.new))) }
    ensures goes { IsSameDatabase db.old db.new }
    ensures memory { result ≡ Err EngineFault.Memory
        → (db.new ≡ db.old) × ((reader.new ≡ reader.old) × (writer.new ≡ writer.old)) }
    ensures only { IsErrAmong result
        (EngineFault.Memory ∷ EngineFault.Read ∷ EngineFault.Write ∷ []) }
{
    let Ok(mut buffers) = Buffers::new(alloc, form) else {
        return Err(EngineFault::Memory);
    };
    run_lines(db, reader, writer, &mut buffers)
}

/// The engine with its buffers.
fn run_lines<S: PageStore, R: BufRead, W: Write>(
    db: &mut Database<S>,
    reader: &mut R,
    writer: &mut W,
    buffers: &mut Buffers,
) -> Result<(), EngineFault>
    ensures read { OnOk result (IfSome (R.remaining reader.old)
        (λ text. R.remaining reader.new ≡ Some [])) }
    ensures size { OnOk result (IfSome (R.remaining reader.old)
        (λ text. length text ≤ 4294967295)) }
    ensures answer { AtEachHandle db.old (λ h.
        OnOk result (IfSome (R.remaining reader.old)
        (λ text. AnswersScript buffers.old.form (script_in buffers.old.form text) db.old db.new h
        (W.contents writer.old) (W.contents writer.new)))) }
    ensures stands { AtEachHandle db.old
        (λ h. MakesFirst buffers.old.form (R.remaining reader.old) db.old db.new h) }
    ensures cut { AtEachHandle db.old (λ h.
        result ≡ Err EngineFault.Read
        → AnswersFirst buffers.old.form (R.remaining reader.old) db.old db.new h
        (W.contents writer.old) (W.contents writer.new)) }
    ensures tells { OnOk result (IfSome (R.remaining reader.old)
        (λ text. TellsScript buffers.old.form (script_in buffers.old.form text) db.old db.new
        (W.contents writer.old) (W.contents writer.new))) }
    ensures goes { IsSameDatabase db.old db.new }
    ensures only { IsErrAmong result (EngineFault.Read ∷ EngineFault.Write ∷ []) }
{
    let mut left = u32::MAX;
    for _ in 0..u64::MAX {
        let read = next_line(reader, buffers, &mut left)?;
        if !read.is_line() {
            return Ok(());
        }
        answer_and_flush(db, buffers, writer, read).map_err(|_| EngineFault::Write)?;
    }
    Err(EngineFault::Read)
}

/// Reads the next line, and answers what it found.
fn next_line<R: BufRead>(
    reader: &mut R,
    buffers: &mut Buffers,
    left: &mut u32,
) -> Result<LineRead, EngineFault>
    ensures line { IfOk result (λ read.
        IfSome (R.remaining reader.old)
        (λ text. ReadsLine (longest_in buffers.old.form + 1) text (is_line read)
        buffers.new.line.items (R.remaining reader.new))) }
    ensures counted { OnOk result
        (IsCounted (R.remaining reader.old) left.old (R.remaining reader.new) left.new) }
    ensures form { buffers.new.form ≡ buffers.old.form }
    ensures only { IfErr result (λ e. e ≡ EngineFault.Read) }
{
    read_line(reader, buffers, left).map_err(|_| EngineFault::Read)
}

/// Answers the line, and flushes where reading on may wait.
fn answer_and_flush<S: PageStore, W: Write>(
    db: &mut Database<S>,
    buffers: &mut Buffers,
    writer: &mut W,
    read: LineRead,
) -> io::Result<()>
    ensures line { AtEachHandle db.old (λ h.
        AnswersLine buffers.old.form (call_in buffers.old.form buffers.old.line.items) db.old
        db.new h
        (λ text. OnOk result (Appends (W.contents writer.old) (W.contents writer.new) text))) }
    ensures tells { TellsLine buffers.old.form
        (call_in buffers.old.form buffers.old.line.items) db.old db.new
        (λ text. OnOk result (Appends (W.contents writer.old) (W.contents writer.new) text)) }
    ensures goes { IsSameDatabase db.old db.new }
    ensures form { buffers.new.form ≡ buffers.old.form }
{
    answer_line(db, buffers, writer)?;
    match read {
        LineRead::Followed => Ok(()),
        LineRead::End | LineRead::Last => writer.flush(),
    }
}

/// Makes the call that the line asks for, and writes the line that answers it.
fn answer_line<S: PageStore, W: Write>(
    db: &mut Database<S>,
    buffers: &mut Buffers,
    writer: &mut W,
) -> io::Result<()>
    ensures line { AtEachHandle db.old (λ h.
        AnswersLine buffers.old.form (call_in buffers.old.form buffers.old.line.items) db.old
        db.new h
        (λ text. OnOk result (Appends (W.contents writer.old) (W.contents writer.new) text))) }
    ensures tells { TellsLine buffers.old.form
        (call_in buffers.old.form buffers.old.line.items) db.old db.new
        (λ text. OnOk result (Appends (W.contents writer.old) (W.contents writer.new) text)) }
    ensures goes { IsSameDatabase db.old db.new }
    ensures form { buffers.new.form ≡ buffers.old.form }
{
    let request = buffers.request();
    let form = buffers.form;
    let key = buffers.key.as_slice();
    let content = buffers.content.as_slice();
    match request {
        Request::Store => answer_store(db, key, content, StoreMode::Replace, writer),
        Request::Insert => answer_store(db, key, content, StoreMode::Insert, writer),
        Request::Fetch => answer_fetch(db, form, key, writer),
        Request::Delete => answer_delete(db, key, writer),
        Request::First => answer_first(db, form, writer),
        Request::Next => answer_next(db, form, writer),
        Request::Error => answer_error(db, writer),
        Request::Clear => answer_clear(db, writer),
        Request::Bad => write_bad_line(writer),
    }
}

/// Stores, and writes the reply.
fn answer_store<S: PageStore, W: Write>(
    db: &mut Database<S>,
    key: &[u8],
    content: &[u8],
    mode: StoreMode,
    writer: &mut W,
) -> io::Result<()>
    ensures line { (form : TextForm) → AtEachHandle db.old (λ h.
        AnswersLine form (Some (Store key.now content.now (mode_of mode))) db.old db.new h
        (λ text. OnOk result (Appends (W.contents writer.old) (W.contents writer.new) text))) }
    ensures tells { (form : TextForm)
        → TellsLine form (Some (Store key.now content.now (mode_of mode))) db.old db.new
        (λ text. OnOk result (Appends (W.contents writer.old) (W.contents writer.new) text)) }
    ensures goes { IsSameDatabase db.old db.new }
{
    match db.store(key, content, mode) {
        Ok(StoreReply::Stored) => write_stored(writer),
        Ok(StoreReply::Kept) => write_kept(writer),
        Err(fault) => write_fault(writer, fault),
    }
}

/// Fetches, and writes the reply before the next call ends the content that is lent.
fn answer_fetch<S: PageStore, W: Write>(
    db: &mut Database<S>,
    form: TextForm,
    key: &[u8],
    writer: &mut W,
) -> io::Result<()>
    ensures line { AtEachHandle db.old (λ h.
        AnswersLine form (Some (Fetch key.now)) db.old db.new h
        (λ text. OnOk result (Appends (W.contents writer.old) (W.contents writer.new) text))) }
    ensures tells { TellsLine form (Some (Fetch key.now)) db.old db.new
        (λ text. OnOk result (Appends (W.contents writer.old) (W.contents writer.new) text)) }
    ensures goes { IsSameDatabase db.old db.new }
{
    write_fetched(writer, form, db.fetch(key))
}

/// Deletes, and writes the reply.
fn answer_delete<S: PageStore, W: Write>(
    db: &mut Database<S>,
    key: &[u8],
    writer: &mut W,
) -> io::Result<()>
    ensures line { (form : TextForm) → AtEachHandle db.old (λ h.
        AnswersLine form (Some (Delete key.now)) db.old db.new h
        (λ text. OnOk result (Appends (W.contents writer.old) (W.contents writer.new) text))) }
    ensures tells { (form : TextForm) → TellsLine form (Some (Delete key.now)) db.old db.new
        (λ text. OnOk result (Appends (W.contents writer.old) (W.contents writer.new) text)) }
    ensures goes { IsSameDatabase db.old db.new }
{
    match db.delete(key) {
        Ok(DeleteReply::Deleted) => write_deleted(writer),
        Ok(DeleteReply::Absent) => write_absent(writer),
        Err(fault) => write_fault(writer, fault),
    }
}

/// Begins a pass, and writes the reply before the next call ends the key that is lent.
fn answer_first<S: PageStore, W: Write>(
    db: &mut Database<S>,
    form: TextForm,
    writer: &mut W,
) -> io::Result<()>
    ensures line { AtEachHandle db.old (λ h.
        AnswersLine form (Some First) db.old db.new h
        (λ text. OnOk result (Appends (W.contents writer.old) (W.contents writer.new) text))) }
    ensures tells { TellsLine form (Some First) db.old db.new
        (λ text. OnOk result (Appends (W.contents writer.old) (W.contents writer.new) text)) }
    ensures goes { IsSameDatabase db.old db.new }
{
    write_passed(writer, form, db.firstkey())
}

/// Goes on with a pass, and writes the reply before the next call ends the key that is lent.
fn answer_next<S: PageStore, W: Write>(
    db: &mut Database<S>,
    form: TextForm,
    writer: &mut W,
) -> io::Result<()>
    ensures line { AtEachHandle db.old (λ h.
        AnswersLine form (Some Next) db.old db.new h
        (λ text. OnOk result (Appends (W.contents writer.old) (W.contents writer.new) text))) }
    ensures tells { TellsLine form (Some Next) db.old db.new
        (λ text. OnOk result (Appends (W.contents writer.old) (W.contents writer.new) text)) }
    ensures goes { IsSameDatabase db.old db.new }
{
    write_passed(writer, form, db.nextkey())
}

/// Writes the error number.
fn answer_error<S: PageStore, W: Write>(db: &mut Database<S>, writer: &mut W) -> io::Result<()>
    ensures line { (form : TextForm) → AtEachHandle db.old (λ h.
        AnswersLine form (Some Error) db.old db.new h
        (λ text. OnOk result (Appends (W.contents writer.old) (W.contents writer.new) text))) }
    ensures tells { (form : TextForm) → TellsLine form (Some Error) db.old db.new
        (λ text. OnOk result (Appends (W.contents writer.old) (W.contents writer.new) text)) }
    ensures goes { IsSameDatabase db.old db.new }
{
    write_number(writer, db.error())
}

/// Clears the error number, and writes the reply.
fn answer_clear<S: PageStore, W: Write>(db: &mut Database<S>, writer: &mut W) -> io::Result<()>
    ensures line { (form : TextForm) → AtEachHandle db.old (λ h.
        AnswersLine form (Some Clear) db.old db.new h
        (λ text. OnOk result (Appends (W.contents writer.old) (W.contents writer.new) text))) }
    ensures tells { (form : TextForm) → TellsLine form (Some Clear) db.old db.new
        (λ text. OnOk result (Appends (W.contents writer.old) (W.contents writer.new) text)) }
    ensures goes { IsSameDatabase db.old db.new }
{
    write_number(writer, db.clearerr())
}
