// The replies of calls that a fault may refuse, as lines.
ghost use Rattle.std.specs.Prelude.{OnOk};
ghost use Rattle.std.specs.Io.KnownBytes.{Appends};
ghost use Rattle.dbm_model.specs.Calls.{NoRecord, End, Refused};
ghost use Rattle.dbm_lines.specs.Lines.{reply_line};
ghost use Rattle.dbm_file.specs.Calls.{lent_reply};
ghost use Rattle.dbm_fault.specs.Faults.{fault_of};
ghost use Rattle.dbm_lines.specs.Forms.{reply_line_in};

use dbm_file::Fault;
use dbm_lines::{TextForm, write_bytes_in, write_end, write_no_record, write_refused};
use std::io::{self, Write};

/// Writes the line of a fetch.
pub fn write_fetched<W: Write>(
    writer: &mut W,
    form: TextForm,
    content: Result<Option<&[u8]>, Fault>,
) -> io::Result<()>
    ensures { OnOk result (Appends (W.contents writer.old) (W.contents writer.new)
        (reply_line_in form (lent_reply NoRecord content.entry))) }
{
    match content {
        Ok(Some(content)) => write_bytes_in(writer, form, content),
        Ok(None) => write_no_record(writer),
        Err(fault) => write_fault(writer, fault),
    }
}

/// Writes the line of a firstkey or a nextkey.
pub fn write_passed<W: Write>(
    writer: &mut W,
    form: TextForm,
    key: Result<Option<&[u8]>, Fault>,
) -> io::Result<()>
    ensures { OnOk result (Appends (W.contents writer.old) (W.contents writer.new)
        (reply_line_in form (lent_reply End key.entry))) }
{
    match key {
        Ok(Some(key)) => write_bytes_in(writer, form, key),
        Ok(None) => write_end(writer),
        Err(fault) => write_fault(writer, fault),
    }
}

/// Writes the line of a call that was refused, which is the same in either form.
pub fn write_fault<W: Write>(writer: &mut W, fault: Fault) -> io::Result<()>
    ensures { OnOk result (Appends (W.contents writer.old) (W.contents writer.new)
        (reply_line (Refused (fault_of fault)))) }
{
    write_refused(writer, fault.number())
}
