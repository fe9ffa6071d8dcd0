// The engines of dumps and of a list.
ghost use Rattle.std.specs.Prelude.{OnOk, flat_map};
ghost use Rattle.std.specs.Io.KnownBytes.{Appends};
ghost use Rattle.dbm_lines.specs.Dumps.{dump_line, dump_of, listing_of, text_dump_of, text_line, text_listing_of};
ghost use Rattle.dbm_lines.specs.Forms.{line_in, key_line_in, dump_in, listing_in};
ghost use Rattle.dbm_lines.specs.declared.forms.TextForm.TheVariants as form;
ghost use Rattle.dbm_engines.specs.Dumping.{bytes_of_keys, bytes_of_pairs, Dumps, Lists};

use crate::gather::gather_keys;
use crate::pairs::gather_pairs;
use dbm_fault::EngineFault;
use dbm_file::Database;
use dbm_lines::{TextForm, write_bytes, write_escaped, write_key_field, write_word};
use dbm_progress::{Progress, Work};
use page_io::PageStore;
use std::alloc::Global;
use std::collections::{BTreeMap, BTreeSet};
use std::io::{self, Write};

/// Writes each pair as `key content` in a line, in ascending byte order of keys. It reads
/// everything before it writes, by a pass and a fetch of each key behind the step that gave it, and
/// keeps the pairs in memory until it ends. `Db(Damaged)` comes where the pass gives more keys than
/// the file counts pairs, or fewer, or a key that fetch doesn't find. `Db(Memory)` comes where fetch
/// finds none for a content in pages of its own, which a file of version 1 has none of, and `Memory`
/// where the engine finds none. After `Write` some of the text may be out. Each pair that was read
/// or written is a step of `progress`, which is cleared before the first one is written.
pub fn dump_engine<S: PageStore, W: Write, P: Progress>(
    alloc: Global,
    db: &mut Database<S>,
    writer: &mut W,
    progress: &mut P,
) -> Result<(), EngineFault>
    ensures { Dumps dump_of dump_line W.contents writer.old writer.new db.old db.new result }
{
    dump_in_form(alloc, db, writer, TextForm::Hexadecimal, progress)
}

/// Writes each pair as two fields in a line, a tab between them, with escapes, in ascending byte
/// order of keys. A key's first byte is an escape where it is `#`. It reads, keeps in memory, tells
/// its progress and fails as `dump_engine` does.
pub fn dump_text_engine<S: PageStore, W: Write, P: Progress>(
    alloc: Global,
    db: &mut Database<S>,
    writer: &mut W,
    progress: &mut P,
) -> Result<(), EngineFault>
    ensures { Dumps text_dump_of text_line W.contents writer.old writer.new db.old db.new
        result }
{
    dump_in_form(alloc, db, writer, TextForm::Escaped, progress)
}

/// Writes each key as a word in a line, in ascending byte order. It reads all keys before it writes,
/// by a pass, and keeps them in memory until it ends. `Db(Damaged)` comes where the pass gives more
/// keys than the file counts pairs, or fewer. After `Write` some of the text may be out. Each key
/// that was read or written is a step of `progress`, which is cleared before the first one is
/// written.
pub fn list_engine<S: PageStore, W: Write, P: Progress>(
    alloc: Global,
    db: &mut Database<S>,
    writer: &mut W,
    progress: &mut P,
) -> Result<(), EngineFault>
    ensures { Lists listing_of (key_line_in form.Hexadecimal) W.contents writer.old writer.new
        db.old db.new result }
{
    list_in_form(alloc, db, writer, TextForm::Hexadecimal, progress)
}

/// Writes each key as a field in a line, with escapes, in ascending byte order. It reads, keeps in
/// memory, tells its progress and fails as `list_engine` does.
pub fn list_text_engine<S: PageStore, W: Write, P: Progress>(
    alloc: Global,
    db: &mut Database<S>,
    writer: &mut W,
    progress: &mut P,
) -> Result<(), EngineFault>
    ensures { Lists text_listing_of (key_line_in form.Escaped) W.contents writer.old writer.new
        db.old db.new result }
{
    list_in_form(alloc, db, writer, TextForm::Escaped, progress)
}

/// Writes each key in a line of this form.
fn list_in_form<S: PageStore, W: Write, P: Progress>(
    alloc: Global,
    db: &mut Database<S>,
    writer: &mut W,
    form: TextForm,
    progress: &mut P,
) -> Result<(), EngineFault>
    ensures { Lists (listing_in form) (key_line_in form) W.contents writer.old writer.new db.old
        db.new result }
{
    let keys = gather_keys(alloc, db, progress)?;
    progress.clear();
    write_keys(writer, &keys, form, progress).map_err(|_| EngineFault::Write)
}

/// Writes each pair in a line of this form.
fn dump_in_form<S: PageStore, W: Write, P: Progress>(
    alloc: Global,
    db: &mut Database<S>,
    writer: &mut W,
    form: TextForm,
    progress: &mut P,
) -> Result<(), EngineFault>
    ensures { Dumps (dump_in form) (line_in form) W.contents writer.old writer.new db.old db.new
        result }
{
    let pairs = gather_pairs(alloc, db, progress)?;
    progress.clear();
    write_pairs(writer, &pairs, form, progress).map_err(|_| EngineFault::Write)
}

/// Writes the line of each pair.
fn write_pairs<W: Write, P: Progress>(
    writer: &mut W,
    pairs: &BTreeMap<Vec<u8>, Vec<u8>>,
    form: TextForm,
    progress: &mut P,
) -> io::Result<()>
    ensures { OnOk result (Appends (W.contents writer.old) (W.contents writer.new)
        (flat_map (line_in form) (bytes_of_pairs pairs.now))) }
{
    for (key, content) in pairs {
        write_pair(writer, key, content, form)?;
        progress.step(Work::PairsWritten);
    }
    Ok(())
}

/// Writes the line of a pair.
fn write_pair<W: Write>(
    writer: &mut W,
    key: &[u8],
    content: &[u8],
    form: TextForm,
) -> io::Result<()>
    ensures { OnOk result (Appends (W.contents writer.old) (W.contents writer.new)
        (line_in form (key.now, content.now))) }
{
    match form {
        TextForm::Hexadecimal => write_words(writer, key, content),
        TextForm::Escaped => write_fields(writer, key, content),
    }
}

/// Writes the line of a pair as two words.
fn write_words<W: Write>(writer: &mut W, key: &[u8], content: &[u8]) -> io::Result<()>
    ensures { OnOk result (Appends (W.contents writer.old) (W.contents writer.new)
        (dump_line (key.now, content.now))) }
{
    write_word(writer, key)?;
    writer.write_all(b" ")?;
    write_bytes(writer, content)
}

/// Writes the line of a pair as two fields.
fn write_fields<W: Write>(writer: &mut W, key: &[u8], content: &[u8]) -> io::Result<()>
    ensures { OnOk result (Appends (W.contents writer.old) (W.contents writer.new)
        (text_line (key.now, content.now))) }
{
    write_key_field(writer, key)?;
    writer.write_all(b"\t")?;
    write_escaped(writer, content)?;
    writer.write_all(b"\n")
}

/// Writes the line of each key.
fn write_keys<W: Write, P: Progress>(
    writer: &mut W,
    keys: &BTreeSet<Vec<u8>>,
    form: TextForm,
    progress: &mut P,
) -> io::Result<()>
    ensures { OnOk result (Appends (W.contents writer.old) (W.contents writer.new)
        (flat_map (key_line_in form) (bytes_of_keys keys.now))) }
{
    for key in keys {
        write_key(writer, key, form)?;
        progress.step(Work::KeysWritten);
    }
    Ok(())
}

/// Writes the line of a key.
fn write_key<W: Write>(writer: &mut W, key: &[u8], form: TextForm) -> io::Result<()>
    ensures { OnOk result (Appends (W.contents writer.old) (W.contents writer.new)
        (key_line_in form key.now)) }
{
    match form {
        TextForm::Hexadecimal => write_bytes(writer, key),
        TextForm::Escaped => {
            write_escaped(writer, key)?;
            writer.write_all(b"\n")
        }
    }
}
