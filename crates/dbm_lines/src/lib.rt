//! The texts of the program: words, fields, lines, scripts and dumps with their laws, and the code
//! that reads and writes their lines. A function of an empty body is a law, which its clause says.
#![tactic(auto)]

mod bad_lines;
mod bounds;
mod buffers;
mod digits;
mod fields;
mod forms;
mod line_laws;
mod lines;
mod parsing;
mod replies;
mod splitting;
mod text_laws;

pub use bad_lines::BadLine;
pub use bounds::{LONGEST_LINE, LONGEST_TEXT_LINE};
pub use buffers::Buffers;
pub use fields::{unescape, write_escaped, write_key_field, write_marked};
pub use forms::TextForm;
pub use line_laws::dumps_read_back;
pub use lines::{LineRead, read_line};
pub use parsing::{Request, decode_word};
pub use replies::{
    write_absent, write_bad_line, write_bytes, write_bytes_in, write_deleted, write_end,
    write_kept, write_no_record, write_number, write_refused, write_stored, write_word,
};
pub use text_laws::{
    dump_examples, escape_examples, escapes_read_back, fields_are_printable, key_field_examples,
    key_fields, line_examples, script_example, text_line_examples, word_examples, words_read_back,
};
