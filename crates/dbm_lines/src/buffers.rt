// What an engine that reads lines keeps between them.
ghost use Rattle.std.specs.Prelude.{◌≡◌, ◌<◌, ◌≤◌, IfOk, Some, None, [], vec_capacity, if◌then◌else◌};
ghost use Rattle.dbm_lines.specs.BadLines.{IsBadBy};
ghost use Rattle.dbm_lines.specs.Bounds.{longest_in, longest_part};
ghost use Rattle.dbm_lines.specs.Forms.{call_in, pair_in, is_passed_in};
ghost use Rattle.dbm_lines.specs.Requests.{asked};

use crate::bad_lines::{BadLine, why_bad};
use crate::bounds::{longest_in, longest_part};
use crate::forms::{TextForm, is_passed_in, pair_in_form};
use crate::parsing::{Request, request_of};
use std::alloc::{AllocError, Global};

/// What an engine keeps between the lines of a text, so that no line takes memory.
#[derive(Drop)]
pub struct Buffers {
    /// The form of the lines that there is room for.
    pub form: TextForm,
    /// A line, with room for one byte more than it may have.
    pub line: Vec<u8>,
    /// The key that the line says.
    pub key: Vec<u8>,
    /// The content that the line says.
    pub content: Vec<u8>,
    pub ghost line_room: { longest_in form < vec_capacity line },
    pub ghost key_room: { longest_part form ≤ vec_capacity key },
    pub ghost content_room: { longest_part form ≤ vec_capacity content },
}

impl Buffers {
    /// Takes the memory for lines of this form, and has no line yet.
    pub fn new(alloc: Global, form: TextForm) -> Result<Buffers, AllocError>
        ensures { IfOk result (λ buffers. (buffers.form ≡ form) × (buffers.line.items ≡ [])) }
    {
        Ok(Buffers {
            form,
            line: Vec::with_capacity(alloc, longest_in(form) + 1)?,
            key: Vec::with_capacity(alloc, longest_part(form))?,
            content: Vec::with_capacity(alloc, longest_part(form))?,
        })
    }

    /// What the line asks for in the form. The bytes of its parts are then `key` and `content`.
    pub fn request(&mut self) -> Request
        ensures request { asked result self.new.key.items self.new.content.items
            ≡ call_in self.old.form self.old.line.items }
        ensures form { self.new.form ≡ self.old.form }
    {
        request_of(self.form, &self.line, &mut self.key, &mut self.content)
    }

    /// Whether the line says a pair in the form, which is then `key` and `content`.
    pub fn pair(&mut self) -> bool
        ensures pair { (if result then Some (self.new.key.items, self.new.content.items) else None)
            ≡ pair_in self.old.form self.old.line.items }
        ensures form { self.new.form ≡ self.old.form }
        ensures line { self.new.line.items ≡ self.old.line.items }
    {
        pair_in_form(self.form, &self.line, &mut self.key, &mut self.content)
    }

    /// Whether a load passes over the line in the form.
    pub fn is_passed_over(&self) -> bool
        ensures { result ≡ is_passed_in self.now.form self.now.line.items }
    {
        is_passed_in(self.form, &self.line)
    }

    /// Why the line says no pair in the form.
    pub fn why_bad(&self) -> BadLine
        ensures { pair_in self.now.form self.now.line.items ≡ None
            → IsBadBy self.now.form self.now.line.items result }
    {
        why_bad(self.form, &self.line)
    }
}
