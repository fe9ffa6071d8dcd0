//! The pages of chains and of contents, read one by one. What is wrong with one is told.

ghost use Rattle.std.specs.Prelude.{◌≡◌, ◌⊎◌, ◌↔◌, ◌<◌, ◌≤◌, ℕ, List, length, take as first_part, drop, slice_index, IfOk, OnOk, IsErrOf, IsTrue};
ghost use Rattle.page_model.specs.PageBodies.{filled};
ghost use Rattle.page_model.specs.Pages.{ContentPage, Record};
ghost use Rattle.page_io.specs.Calls.{IsReadingCall};
ghost use Rattle.page_io.specs.Store.{IsKnown};
ghost use Rattle.page_io.specs.Views.{body_at};
ghost use Rattle.page_io.specs.Versions.{model_version};
ghost use Rattle.page_io.specs.declared.store.PageFault.TheVariants.{Damaged};
ghost use Rattle.page_io.specs.BucketPages.{page_records};
ghost use Rattle.bucket_chain.specs.Links.{IsLink, SaysLink};
ghost use Rattle.bucket_chain.specs.WalkAnswers.{IsWalkAnswer};
ghost use Rattle.file_check.specs.Flaws.{IsTold};

use crate::flaws::{Flaw, Rule, Watch};
use bucket_chain::{HEAD, OVERFLOW};
use content_pages::PER_PAGE;
use page_io::{Page, PageFault, PageStore, Version};

/// Whether it is the number of a page of a file that ends before page `end`.
pub fn is_in_file(n: u32, end: u32) -> bool
    ensures { IsTrue result ↔ ((1 ≤ n) × (n < end)) }
{
    n != 0 && n < end
}

/// What is wrong with page `n`, which was read as one of a chain, and is none of this kind.
fn link_flaw(n: u32, kind: u8, page: &Page, end: u32) -> Flaw {
    let rule = if !is_in_file(n, end) {
        Rule::Outside
    } else if page.own() != n || page.kind() != kind {
        if kind == HEAD {
            Rule::Head
        } else {
            Rule::Overflow
        }
    } else if kind == OVERFLOW && page.slots() == 0 {
        Rule::Empty
    } else {
        Rule::Slots
    };
    Flaw { page: n, rule }
}

/// Reads page `n` as `bucket_chain` does.
pub fn read_link<S: PageStore, W: Watch>(
    store: &mut S,
    n: u32,
    kind: u8,
    page: &mut Page,
    version: Version,
    watch: &mut W,
) -> Result<u32, PageFault>
    requires { (kind ≡ 3) ⊎ (kind ≡ 4) }
    ensures reads { IsReadingCall S.PageStore store.old store.new result }
    ensures answer { IsWalkAnswer (S.state store.old) result }
    ensures known { OnOk result ((1 ≤ n) × IsKnown (S.state store.old) n) }
    ensures link { IfOk result (λ next.
        IsLink (model_version version) page.new.bytes n kind next (page_records page.new.bytes)) }
    ensures says { S.honest store.old
        → IfOk result (λ next. SaysLink (model_version version)
        (body_at S.PageStore store.old) n kind next (page_records page.new.bytes)) }
    ensures whole { S.honest store.old → (next : ℕ) (records : List Record) → 1 ≤ n
        → SaysLink (model_version version) (body_at S.PageStore store.old) n kind next records
        → IsErrOf result Damaged → ⊥ }
    ensures told { IsTold (IsErrOf result Damaged) (W.has_told watch.old) (W.has_told watch.new) }
{
    let next = bucket_chain::read_link(store, n, kind, page, version);
    if next == Err(PageFault::Damaged) {
        watch.flaw(link_flaw(n, kind, page, store.end()));
    }
    next
}

/// What is wrong with page `n`, which was read as a part of a content behind page `last`.
fn part_flaw(n: u32, last: u32, end: u32) -> Flaw {
    if n == 0 {
        Flaw {
            page: last,
            rule: Rule::ContentShort,
        }
    } else if n >= end {
        Flaw {
            page: n,
            rule: Rule::Outside,
        }
    } else {
        Flaw {
            page: n,
            rule: Rule::Content,
        }
    }
}

/// Reads page `n` as `content_pages` does. Page `last` is the one of the content before it.
pub fn check_part<S: PageStore, W: Watch>(
    store: &mut S,
    n: u32,
    last: u32,
    long: usize,
    page: &mut Page,
    watch: &mut W,
) -> Result<u32, PageFault>
    requires { long ≤ PER_PAGE }
    ensures reads { IsReadingCall S.PageStore store.old store.new result }
    ensures answer { IsWalkAnswer (S.state store.old) result }
    ensures known { OnOk result ((1 ≤ n) × IsKnown (S.state store.old) n) }
    ensures bytes { OnOk result ((k : ℕ) → slice_index page.new.bytes k < 256) }
    ensures says { S.honest store.old
        → IfOk result (λ next. body_at S.PageStore store.old n
        ≡ ContentPage next (filled (first_part long (drop 16 page.new.bytes)))) }
    ensures whole { S.honest store.old → (next : ℕ) (part : List ℕ) → 1 ≤ n → length part ≡ long
        → body_at S.PageStore store.old n ≡ ContentPage next (filled part)
        → IsErrOf result Damaged → ⊥ }
    ensures told { IsTold (IsErrOf result Damaged) (W.has_told watch.old) (W.has_told watch.new) }
{
    let next = content_pages::check_part(store, n, long, page);
    if next == Err(PageFault::Damaged) {
        watch.flaw(part_flaw(n, last, store.end()));
    }
    next
}
