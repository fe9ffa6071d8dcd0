//! The reads of single pages. What is wrong with one is told.

ghost use Rattle.std.specs.Prelude.{◌≡◌, ◌↔◌, ℕ, None, Some, OnOk, IsErrOf};
ghost use Rattle.page_model.specs.Pages.{FreePage};
ghost use Rattle.page_model.specs.Reading.{body_of};
ghost use Rattle.page_io.specs.Answers.{HasDeviceCause, IsReadAnswer};
ghost use Rattle.page_io.specs.Kept.{KeepsPages};
ghost use Rattle.page_io.specs.Store.{overlaid, page_of};
ghost use Rattle.page_io.specs.declared.store.PageFault.TheVariants.{Damaged};
ghost use Rattle.file_check.specs.Flaws.{IsTold};

use crate::flaws::{Flaw, Rule, Watch};
use page_io::{Page, PageFault, PageStore};

/// Reads page `n` as the store does. The flaw is told where the file has no such page.
pub fn read<S: PageStore, W: Watch>(
    store: &mut S,
    n: u32,
    page: &mut Page,
    flaw: Flaw,
    watch: &mut W,
) -> Result<(), PageFault>
    ensures found { S.honest store.old
        → OnOk result (page.new.bytes
        ≡ overlaid (S.state store.old).staged (page_of (S.committed store.old)) n) }
    ensures answer { IsReadAnswer (S.state store.old) n result }
    ensures state { S.state store.new ≡ S.state store.old }
    ensures kept { S.honest store.old
        → KeepsPages S.committed S.moment S.settled_since S.settles_to store.old store.new }
    ensures honesty { S.honest store.new ↔ S.honest store.old }
    ensures cause { HasDeviceCause (S.faults store.old) (S.faults store.new) result }
    ensures told { IsTold (IsErrOf result Damaged) (W.has_told watch.old) (W.has_told watch.new) }
{
    match store.read(n, page) {
        Ok(_) => Ok(()),
        Err(fault) => {
            if fault == PageFault::Damaged {
                watch.flaw(flaw);
            }
            Err(fault)
        }
    }
}

/// The next free page after page `n`, as `free_pages` reads it.
pub fn read_free<W: Watch>(page: &Page, n: u32, watch: &mut W) -> Option<u32>
    ensures says { (next : ℕ) → (result ≡ Some next) ↔ (body_of n page.now.bytes ≡ FreePage next) }
    ensures told { IsTold (result ≡ None) (W.has_told watch.old) (W.has_told watch.new) }
{
    let next = free_pages::read_free(page, n);
    if next.is_none() {
        watch.flaw(Flaw {
            page: n,
            rule: Rule::Free,
        });
    }
    next
}
