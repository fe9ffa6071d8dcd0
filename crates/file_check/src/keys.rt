//! Whether a chain has a key twice.

ghost use Rattle.std.specs.Prelude.{◌↔◌, IsTrue, OnOk, IsErrOf};
ghost use Rattle.page_model.specs.Chain.{Chain};
ghost use Rattle.page_io.specs.Calls.{IsReadingCall};
ghost use Rattle.page_io.specs.Versions.{model_version};
ghost use Rattle.page_io.specs.Views.{body_at};
ghost use Rattle.page_io.specs.declared.store.PageFault.TheVariants.{Damaged};
ghost use Rattle.page_io.specs.BucketPages.{IsBucketPage, page_records};
ghost use Rattle.bucket_chain.specs.WalkAnswers.{IsWalkAnswer};
ghost use Rattle.file_check.specs.BucketChains.{AreApart, HasNewKeys, AreNewInChain};
ghost use Rattle.file_check.specs.Flaws.{IsTold};

use crate::chain_reading::read_link;
use crate::flaws::{Flaw, Rule, Watch};
use bucket_chain::{HEAD, OVERFLOW};
use page_io::{Page, PageFault, PageStore, Version};
use slot_page::{find, pair_at};

/// Whether no key stands in both pages.
fn are_apart(page: &Page, other: &Page) -> bool
    requires page { IsBucketPage page.now.bytes }
    requires other { IsBucketPage other.now.bytes }
    ensures { IsTrue result
        ↔ AreApart (page_records page.now.bytes) (page_records other.now.bytes) }
{
    for slot in 0..page.slots() as usize {
        let (key, _) = pair_at(page, slot);
        if find(other, key).is_some() {
            return false;
        }
    }
    true
}

/// Looks whether a page of the chain, page `n`, has a key that one of the pages before it has. On
/// an honest device the chain comes to page `n`.
pub fn check_keys<S: PageStore, W: Watch>(
    store: &mut S,
    head: u32,
    n: u32,
    page: &Page,
    version: Version,
    watch: &mut W,
) -> Result<(), PageFault>
    requires { IsBucketPage page.now.bytes }
    ensures reads { IsReadingCall S.PageStore store.old store.new result }
    ensures answer { IsWalkAnswer (S.state store.old) result }
    ensures told { IsTold (IsErrOf result Damaged) (W.has_told watch.old) (W.has_told watch.new) }
    ensures sound { S.honest store.old
        → OnOk result (HasNewKeys (body_at S.PageStore store.old) head n
        (page_records page.now.bytes)) }
    ensures whole { S.honest store.old → (chain : Chain)
        → AreNewInChain (model_version version) (body_at S.PageStore store.old)
        (S.state store.old).end head n (page_records page.now.bytes) chain
        → IsErrOf result Damaged → ⊥ }
{
    let mut other = Page::blank();
    let mut at = head;
    let mut kind = HEAD;
    for _step in 0..store.end() {
        if at == n {
            return Ok(());
        }
        let next = read_link(store, at, kind, &mut other, version, watch)?;
        if next == 0 || !are_apart(page, &other) {
            watch.flaw(Flaw {
                page: n,
                rule: Rule::Key,
            });
            return Err(PageFault::Damaged);
        }
        at = next;
        kind = OVERFLOW;
    }
    watch.flaw(Flaw {
        page: at,
        rule: Rule::Twice,
    });
    Err(PageFault::Damaged)
}
