// Pages in memory by their own numbers.
ghost use Rattle.std.specs.Prelude.{◌≡◌, ◌<◌, ◌≤◌, ◌^◌, true, [], length, OnOk, IfOk};
ghost use Rattle.page_io.specs.Calls.{IsStagingCall};
ghost use Rattle.page_io.specs.Page.{own_number};
ghost use Rattle.page_io.specs.Store.{bytes_of, overlaid, put_page, has_page, are_in_order};
ghost use Rattle.page_group.specs.Numbered.{pages_in, AreNumbered};

use page_io::{Page, PageFault, PageStore, finish};
use std::alloc::{AllocError, Global};
use std::collections::BTreeMap;

/// The pages that commits of a group put in memory. Each is boxed, so that no node of the map moves
/// whole pages about.
#[derive(Drop)]
pub struct ChangedPages {
    pages: BTreeMap<u32, Box<Page>>,
    // The box of a page that another one took the place of.
    spare: Option<Box<Page>>,
    alloc: Global,
    ghost numbered: { AreNumbered pages.entries },
    ghost order: { are_in_order 1 (2 ^ 32) (pages_in pages.entries) ≡ true },
}

// A copy of a page in a box: the spare one, if there is one.
fn boxed(alloc: Global, spare: Option<Box<Page>>, page: &Page) -> Result<Box<Page>, AllocError>
    ensures { IfOk result (λ copy. copy.value ≡ page.now) }
{
    match spare {
        Some(mut spare) => {
            *spare = *page;
            Ok(spare)
        }
        None => Ok(Box::new(alloc, *page)?),
    }
}

impl ChangedPages {
    ghost use Rattle.std.specs.Prelude.{◌↔◌, false, Ok, IfErr};
    ghost use Rattle.sect_dev.specs.Device.{LeavesOnly};
    ghost use Rattle.page_io.specs.Answers.{HasDeviceCause};
    ghost use Rattle.page_io.specs.Store.{IsEither, IsReady, committed_with};
    ghost use Rattle.page_io.specs.Views.{ReadsOnly};
    ghost use Rattle.page_io.specs.declared.store.PageFault.TheVariants.{Device};
    ghost use Rattle.page_group.specs.Changed.{changed_pages, put_all};
    ghost use Rattle.page_group.specs.Staging.{IsStagingAnswer};
    ghost use Rattle.page_group.specs.Whole.{IsWhole};

    /// No page yet.
    pub fn new(alloc: Global) -> ChangedPages
        ensures { changed_pages result ≡ [] }
    {
        ChangedPages {
            pages: BTreeMap::new(alloc),
            spare: None,
            alloc,
        }
    }

    /// How many there are.
    pub fn count(&self) -> usize
        ensures count { result ≡ length (changed_pages self.now) }
        ensures fits { result < 2 ^ 63 }
    {
        self.pages.len()
    }

    /// Whether page n is among them. If it is, the buffer becomes that page, else it is unchanged.
    pub fn find(&self, n: u32, page: &mut Page) -> bool
        ensures found { result ≡ has_page (changed_pages self.now) n }
        ensures page { page.new.bytes ≡ overlaid (changed_pages self.now) (λ _. page.old.bytes) n }
    {
        match self.pages.get(&n) {
            Some(found) => {
                *page = **found;
                true
            }
            None => false,
        }
    }

    // Puts a page in the place of its own number.
    fn put(&mut self, page: &Page) -> Result<(), AllocError>
        requires { 1 ≤ own_number page.now.bytes }
        ensures { OnOk result (changed_pages self.new
            ≡ put_page (changed_pages self.old) page.now.bytes) }
    {
        let one = boxed(self.alloc, self.spare.take(), page)?;
        let replaced = self.pages.insert(page.own(), one)?;
        self.spare = replaced;
        Ok(())
    }

    /// Puts pages in the places of their own numbers. At `Err` some of them may have been put.
    pub fn put_all(&mut self, pages: &[Page]) -> Result<(), AllocError>
        requires { are_in_order 1 (2 ^ 32) (bytes_of pages.now) ≡ true }
        ensures { OnOk result (changed_pages self.new
            ≡ put_all (changed_pages self.old) (bytes_of pages.now)) }
    {
        for page in pages {
            self.put(page)?;
        }
        Ok(())
    }

    /// Stages all pages in a store with none staged, in rising order of their numbers.
    pub fn stage_into<S: PageStore>(&self, store: &mut S) -> Result<(), PageFault>
        requires { (S.state store.old).staged ≡ [] }
        ensures stages { IsStagingCall S.PageStore store.old store.new result }
        ensures answer { IsStagingAnswer S.reserved (S.state store.old) (S.state store.new) result }
        ensures staged { OnOk result ((S.state store.new).staged ≡ changed_pages self.now) }
    {
        for page in self.pages.values() {
            store.stage(page.own(), page)?;
        }
        Ok(())
    }

    /// Commits all pages to a store, in one commit, and answers whether they are. Its file then ends
    /// before page `new_end`. Where they aren't, for want of memory or of room or because there is
    /// none, nothing has changed.
    pub fn commit_into<S: PageStore>(&self, store: &mut S, new_end: u32) -> Result<bool, PageFault>
        requires ready { IsReady (S.state store.old) }
        requires longer { (S.state store.old).end ≤ new_end }
        requires whole { IsWhole (S.state store.old).end (changed_pages self.now) new_end }
        ensures done { result ≡ Ok true → S.state store.new
            ≡ record (S.state store.old) { end = new_end } }
        ensures committed { S.honest store.old → result ≡ Ok true
            → S.committed store.new
            ≡ committed_with (S.committed store.old) (changed_pages self.now) new_end }
        ensures any_moment { S.honest store.old
            → LeavesOnly S.moment S.settled_since store.old store.new
            (IsEither (S.committed store.old)
            (committed_with (S.committed store.old) (changed_pages self.now) new_end)) }
        ensures refused { result ≡ Ok false → ReadsOnly S.PageStore store.old store.new }
        ensures broke { IfErr result (λ e. (e ≡ Device)
            × (S.state store.new ≡ record (S.state store.old) { usable = false })) }
        ensures honesty { S.honest store.new ↔ S.honest store.old }
        ensures cause { HasDeviceCause (S.faults store.old) (S.faults store.new) result }
    {
        if self.stage_into(store).is_err() || !store.is_staged(1) {
            store.unstage();
            return Ok(false);
        }
        match finish(store, Ok(new_end)) {
            Ok(()) => Ok(true),
            Err(fault) if store.is_broken() => Err(fault),
            Err(_) => Ok(false),
        }
    }
}
