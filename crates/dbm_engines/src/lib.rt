//! The engines over lines of text: of scripts, where calls are read, made and answered, one a line,
//! of loads, which store a pair a line, and of dumps and lists.
#![tactic(auto)]

mod batch;
mod dump;
mod gather;
mod grouping;
mod in_memory;
mod keeping;
mod load;
mod load_stop;
mod pairs;
mod replies;
mod script;
mod storing;

pub use dbm_lines::BadLine;
pub use dump::{dump_engine, dump_text_engine, list_engine, list_text_engine};
pub use in_memory::script_in_memory;
pub use load::{load_engine, load_text_engine};
pub use load_stop::{LoadStop, as_engine};
pub use pairs::gather_pairs;
pub use script::script_engine;
pub use storing::{StoreStop, store_pairs};
