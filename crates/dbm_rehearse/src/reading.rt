// The calls of a script.
ghost use Rattle.std.specs.Prelude.{◌≡◌, [], OnOk, IfOk, IfSome, Some, map};
ghost use Rattle.std.specs.Option.{option_map};
ghost use Rattle.std.specs.Io.KnownBytes.{Appends};
ghost use Rattle.dbm_fault.specs.Among.{IsErrAmong};
ghost use Rattle.dbm_model.specs.Calls.{Store};
ghost use Rattle.dbm_lines.specs.Lines.{call_in_line};
ghost use Rattle.dbm_lines.specs.Scripts.{script_of, calls_in};
ghost use Rattle.dbm_file.specs.Calls.{call_of, mode_of};
ghost use Rattle.dbm_rehearse.specs.Lines.{bad_lines, AddsLine};
ghost use Rattle.dbm_rehearse.specs.Faults.{script_faults};

use dbm_fault::EngineFault;
use dbm_file::{Call, Octets, StoreMode};
use dbm_lines::{Buffers, Request, TextForm, read_line, write_bad_line};
use std::alloc::{AllocError, Global};
use std::io::{BufRead, Write};

/// Reads the calls of a script to its end, and writes `-1 line` for each bad line.
pub fn read_calls<R: BufRead, W: Write>(
    alloc: Global,
    reader: &mut R,
    writer: &mut W,
) -> Result<Vec<Call>, EngineFault>
    ensures read { OnOk result (IfSome (R.remaining reader.old)
        (λ text. R.remaining reader.new ≡ Some [])) }
    ensures calls { IfOk result (λ calls. IfSome (R.remaining reader.old)
        (λ text. map call_of calls.items ≡ calls_in (script_of text))) }
    ensures told { OnOk result (IfSome (R.remaining reader.old)
        (λ text. Appends (W.contents writer.old) (W.contents writer.new)
        (bad_lines (script_of text)))) }
    ensures only { IsErrAmong result script_faults }
{
    let mut buffers = Buffers::new(alloc, TextForm::Hexadecimal).map_err(|_| EngineFault::Memory)?;
    let mut calls = Vec::new(alloc);
    let mut left = u32::MAX;
    for _ in 0..u64::MAX {
        let read = read_line(reader, &mut buffers, &mut left);
        if !read.map_err(|_| EngineFault::Read)?.is_line() {
            return Ok(calls);
        }
        keep_call(alloc, &mut buffers, &mut calls, writer)?;
    }
    Err(EngineFault::Read)
}

// Adds the call that the line asks for, or answers the line where it is bad.
fn keep_call<W: Write>(
    alloc: Global,
    buffers: &mut Buffers,
    calls: &mut Vec<Call>,
    writer: &mut W,
) -> Result<(), EngineFault>
    requires { buffers.old.form ≡ TextForm.Hexadecimal }
    ensures line { OnOk result (AddsLine (call_in_line buffers.old.line.items)
        (map call_of calls.old.items) (map call_of calls.new.items)
        (W.contents writer.old) (W.contents writer.new)) }
    ensures form { buffers.new.form ≡ buffers.old.form }
    ensures only { IsErrAmong result script_faults }
{
    match call_in(alloc, buffers) {
        Ok(Some(call)) => calls.push(call).map_err(|_| EngineFault::Memory),
        Ok(None) => write_bad_line(writer).map_err(|_| EngineFault::Write),
        Err(_) => Err(EngineFault::Memory),
    }
}

// The call that the line asks for, if it is no bad line.
fn call_in(alloc: Global, buffers: &mut Buffers) -> Result<Option<Call>, AllocError>
    requires { buffers.old.form ≡ TextForm.Hexadecimal }
    ensures call { IfOk result
        (λ call. option_map call_of call ≡ call_in_line buffers.old.line.items) }
    ensures form { buffers.new.form ≡ buffers.old.form }
{
    match buffers.request() {
        Request::Store => store_of(alloc, buffers, StoreMode::Replace),
        Request::Insert => store_of(alloc, buffers, StoreMode::Insert),
        Request::Fetch => Ok(Some(Call::Fetch(octets(alloc, &buffers.key)?))),
        Request::Delete => Ok(Some(Call::Delete(octets(alloc, &buffers.key)?))),
        Request::First => Ok(Some(Call::First)),
        Request::Next => Ok(Some(Call::Next)),
        Request::Error => Ok(Some(Call::Error)),
        Request::Clear => Ok(Some(Call::Clear)),
        Request::Bad => Ok(None),
    }
}

// The call that stores the pair that the line says.
fn store_of(alloc: Global, buffers: &Buffers, mode: StoreMode) -> Result<Option<Call>, AllocError>
    ensures { IfOk result (λ call. option_map call_of call
        ≡ Some (Store buffers.now.key.items buffers.now.content.items (mode_of mode))) }
{
    let key = octets(alloc, &buffers.key)?;
    let content = octets(alloc, &buffers.content)?;
    Ok(Some(Call::Store { key, content, mode }))
}

// A copy of the bytes.
fn octets(alloc: Global, bytes: &[u8]) -> Result<Octets, AllocError>
    ensures { IfOk result (λ copy. copy ≡ bytes.now) }
{
    Ok(Octets::from(Vec::from_slice(alloc, bytes)?))
}
