//! The program over its words: each command on a file, and the status.
#![tactic(auto)]

mod calls;
mod causes;
mod commands;
mod flaws;
mod host;
mod known;
mod lines;
mod program;
mod rehearsals;
mod replacements;
mod salvages;
mod streams;
mod texts;
mod versions;
mod waiting;

pub use dbm_command_line::{USUAL_WAIT, seconds_in};
pub use dbm_engines::{
    dump_engine, dump_text_engine, list_engine, list_text_engine, load_engine, load_text_engine,
    script_engine,
};
pub use dbm_fault::EngineFault;
pub use program::{Environment, Exit, bad_wait, not_text, out_of_memory, tool};
pub use salvages::Told;
pub use streams::{Failing, Noting};
