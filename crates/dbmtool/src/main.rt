//! The program: its words and its standard streams.
#![tactic(auto)]

use dbm_progress::{Terminal, Terminals};
use dbm_tool::{
    Environment, Exit, Noting, Told, USUAL_WAIT, bad_wait, not_text, out_of_memory, seconds_in,
    tool,
};
use std::env::{self, VarError};
use std::io::{self, BufReader, BufWriter, ErrorKind, IsTerminal, Write};
use std::process::ExitCode;

fn main(rt: HostRuntime) -> ExitCode {
    let mut faults = rt.stderr();
    let verbose = verbose(&rt);
    let exit = match wait(&rt) {
        Ok(wait) => ended(&rt, Environment { verbose, wait }, &mut faults),
        Err(BadWait::Memory) => out_of_memory(Environment { verbose, wait: 0 }, &mut faults),
        Err(BadWait::Text) => bad_wait(&mut faults),
    };
    ExitCode::from(exit.status)
}

/// Why the environment doesn't say how long to wait.
#[derive(Clone, Copy)]
enum BadWait {
    /// There is no memory for the value of `DBMTOOL_WAIT`.
    Memory,
    /// Its value is no number of seconds.
    Text,
}

/// Whether the words of a fault are asked for: by `DBMTOOL_VERBOSE=1`, and by no other value.
fn verbose(rt: &HostRuntime) -> bool {
    match env::var(rt, "DBMTOOL_VERBOSE") {
        Ok(value) => value.as_str() == "1",
        Err(_) => false,
    }
}

/// How many seconds `DBMTOOL_WAIT` says, or the usual ones where there is no such variable.
fn wait(rt: &HostRuntime) -> Result<u32, BadWait> {
    match env::var(rt, "DBMTOOL_WAIT") {
        Ok(value) => seconds_in(value.as_str()).ok_or(BadWait::Text),
        Err(VarError::NotPresent) => Ok(USUAL_WAIT),
        Err(VarError::NotUnicode) => Err(BadWait::Text),
        Err(VarError::OutOfMemory) => Err(BadWait::Memory),
    }
}

/// The program's end in this environment.
fn ended<F: Write>(rt: &HostRuntime, environment: Environment, faults: &mut F) -> Exit {
    match run(rt, environment, faults) {
        Ok(exit) => exit,
        Err(error) if error.kind() == ErrorKind::OutOfMemory => out_of_memory(environment, faults),
        Err(_) => not_text(faults),
    }
}

/// The program's end. The error is `OutOfMemory` where there is no memory for the words or the
/// streams, and another where a word is not UTF-8.
fn run<F: Write>(rt: &HostRuntime, environment: Environment, faults: &mut F) -> io::Result<Exit> {
    let alloc = rt.alloc();
    let mut words: Vec<String> = Vec::new(alloc);
    for word in env::args(rt)?.skip(1) {
        words.push(word)?;
    }
    let mut texts: Vec<&str> = Vec::with_capacity(alloc, words.len())?;
    for word in words.iter() {
        texts.push(word.as_str())?;
    }
    let mut input = BufReader::new(alloc, Noting::new(rt.stdin()))?;
    let mut output = BufWriter::new(alloc, Noting::new(rt.stdout()))?;
    let mut troubles = Told::on(rt.stderr());
    let mut progress = Terminal::new(rt, rt.stderr(), terminals(rt));
    Ok(tool(
        rt,
        alloc,
        environment,
        texts.as_slice(),
        &mut input,
        &mut output,
        faults,
        &mut troubles,
        &mut progress,
    ))
}

/// Which of the standard streams are terminals.
fn terminals(rt: &HostRuntime) -> Terminals {
    Terminals {
        input: rt.stdin().is_terminal(),
        output: rt.stdout().is_terminal(),
        error: rt.stderr().is_terminal(),
    }
}
