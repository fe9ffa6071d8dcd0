// A database over a store of pages.
ghost use Rattle.std.specs.Prelude.{◌≡◌, [], true, is_some, if◌then◌else◌, Err, Some};
ghost use Rattle.dbm_fault.specs.Among.{IsErrAmong};
ghost use Rattle.page_model.specs.Valid.{IsMeta};
ghost use Rattle.seg_table.specs.MetaPages.{model_meta};

use crate::pass::Pass;
use crate::{Fault, Stat};
use bucket_chain::{FoundContent, NearContent, RankedPage};
use content_pages::read_content;
use linear_hash::find_content;
use page_cache::CachedPages;
use page_io::{Page, PageFault, PageStore, Version};
use redo_area::Pager;
use seg_table::Meta;
use std::alloc::Global;

/// An open database over a device of sectors, whose clean pages are kept in memory.
pub type Db<D> = Database<CachedPages<Pager<D>>>;

/// Which buffer a content is in that was found.
#[derive(Clone, Copy)]
pub(crate) enum Found {
    /// That of contents beside their keys.
    Near,
    /// That of contents in pages of their own.
    Far,
}

/// An open database over a store of pages.
#[derive(Drop)]
pub struct Database<S: PageStore> {
    pub(crate) store: S,
    pub(crate) meta: Meta,
    pub(crate) page: Page,
    // The last contents that were fetched: of those beside their keys, and of those in pages of their
    // own.
    pub(crate) near: NearContent,
    pub(crate) far: Vec<u8>,
    pub(crate) error: Option<Fault>,
    pub(crate) pass: Pass,
    // The page that a pass looked at last.
    pub(crate) ranked: RankedPage,
    pub(crate) writable: bool,
    pub(crate) alloc: Global,
    pub(crate) ghost idle: { (S.state store).staged ≡ [] },
    pub(crate) ghost told: { (S.state store).writable ≡ writable },
    pub(crate) ghost valid: { IsMeta (model_meta meta) },
}

impl<S: PageStore> Database<S> {
    ghost use Rattle.std.specs.Prelude.{◌≡◌, ◌≤◌, pos, IsErrOf, IfOk, IfSome, None, length, true};
    ghost use Rattle.std.specs.Borrow.{sem};
    ghost use Rattle.std.specs.FinMap.{get, len};
    ghost use Rattle.dbm_model.specs.Bounds.{V2};
    ghost use Rattle.dbm_model.specs.Calls.{Fetch, Error, Clear, NoRecord, Number};
    ghost use Rattle.dbm_model.specs.Pairs.{Contents};
    ghost use Rattle.dbm_model.specs.Sizes.{home};
    ghost use Rattle.dbm_model.specs.States.{Handle, error_number};
    ghost use Rattle.dbm_model.specs.Steps.{holds_far};
    ghost use Rattle.page_model.specs.Valid.{meta_buckets};
    ghost use Rattle.page_io.specs.Committing.{Holds};
    ghost use Rattle.page_io.specs.Answers.{HasDeviceCause};
    ghost use Rattle.page_io.specs.Versions.{model_version};
    ghost use Rattle.page_io.specs.Views.{body_at};
    ghost use Rattle.page_io.specs.declared.store.PageFault.TheVariants.{Memory, Damaged};
    ghost use Rattle.bucket_chain.specs.WalkAnswers.{IsLoadAnswer};
    ghost use Rattle.dbm_file.specs.Answers.{IsStep};
    ghost use Rattle.dbm_file.specs.Calls.{lent_reply, seen};
    ghost use Rattle.dbm_file.specs.Database.{store_of, meta_kept, page_state, error_of, IsAt, AtEachHandle};
    ghost use Rattle.dbm_file.specs.Ending.{EndsAs};
    ghost use Rattle.dbm_file.specs.Fetching.{IsShort, content_in};
    ghost use Rattle.dbm_file.specs.Lending.{Lends};
    ghost use Rattle.dbm_file.specs.Passing.{pass_of};
    ghost use Rattle.dbm_file.specs.Replies.{fetch_faults};
    ghost use Rattle.dbm_file.specs.Rooms.{longest_content};
    ghost use Rattle.dbm_file.specs.Searches.{Searched, CanFetch, EndsAtContent, EndsAtFar};
    ghost use Rattle.dbm_file.specs.Trying.{IsRead};

    /// The content that the key has (POSIX: `dbm_fetch`). The slice lies in the database, and ends
    /// with the next call. In this order: `Broken`; `Device` or `Damaged` while the key is looked
    /// up; and of a content that lies in pages of its own, which a file of version 1 has none of,
    /// `Memory`, then `Device` or `Damaged` while those pages are read.
    pub fn fetch(&mut self, key: &[u8]) -> Result<Option<&[u8]>, Fault>
        ensures* after { sem 𝓛 (EndsAs S.row S.PageStore self.entry
            (Lends (Fetch key.now) (lent_reply NoRecord) self.old result)) }
        ensures short { IfOk result (λ r. IfSome r (λ content.
            length content.now ≤ longest_content (meta_kept self.old).bounds.version)) }

        // On any file the answer was read from the key's bucket, up to the key or to the end, and
        // from the pages of its content.
        ensures searched { IfOk result (λ found. Searched self.old key.now
            (EndsAtContent (body_at S.PageStore (store_of self.old)) key.now (seen found))) }

        // A damaged page is met only where the search or the content has it.
        ensures readable { CanFetch self.old key.now → IsErrOf result Fault.Damaged → ⊥ }

        // On any file of version 1 it takes no memory, and in version 2 for a content alone that lies
        // in pages of its own.
        ensures memory { IsErrOf result Fault.Memory → (meta_kept self.old).bounds.version ≡ V2 }
        ensures far { IsErrOf result Fault.Memory
            → Searched self.old key.now (EndsAtFar key.now) }
        ensures only { IsErrAmong result fetch_faults }
    {
        if self.store.is_broken() {
            return refuse(&mut self.error, Fault::Broken);
        }
        match self.find(key) {
            Ok(None) => Ok(None),
            Ok(Some(Found::Near)) => Ok(Some(self.near.as_slice())),
            Ok(Some(Found::Far)) => Ok(Some(self.far.as_slice())),
            Err(fault) => refuse(&mut self.error, Fault::from(fault)),
        }
    }

    /// The number of the first fault since the opening or the last clearing, or 0 (POSIX:
    /// `dbm_error`). No device call is made, and a broken database tells it too.
    pub fn error(&self) -> i32
        ensures step { AtEachHandle self.now (λ h.
            IsStep self.now self.now h Error (Number (error_number (error_of self.now)))) }
        ensures number { result ≡ pos (error_number (error_of self.now)) }
    {
        self.error.map_or(0, Fault::number)
    }

    /// Forgets the first fault, and gives 0 (POSIX: `dbm_clearerr`). No device call is made; the
    /// pass goes on, and a broken database stays broken.
    pub fn clearerr(&mut self) -> i32
        ensures step { AtEachHandle self.old (λ h. IsStep self.old self.new h Clear (Number 0)) }
        ensures zero { result ≡ pos 0 }
        ensures clear { error_of self.new ≡ None }
        ensures still { (store_of self.new ≡ store_of self.old)
            × (meta_kept self.new ≡ meta_kept self.old)
            × (pass_of self.new ≡ pass_of self.old) }
    {
        self.error = None;
        0
    }

    /// The numbers of the database. No device call is made; a broken database tells what it told
    /// before.
    pub fn stat(&self) -> Stat
        ensures counts { (h : Handle) → IsAt self.now h → h.state.usable ≡ true
            → (result.pairs ≡ len h.state.map) × (result.limit ≡ h.state.bounds.limit) }

        // It has no more pages than a database of its limit needs.
        ensures bounded { (h : Handle) → IsAt self.now h → h.state.usable ≡ true
            → result.pages ≤ home h.state.bounds }
        ensures shown { result ≡ record {
          pairs = (meta_kept self.now).pairs;
          limit = (meta_kept self.now).bounds.limit;
          buckets = meta_buckets (meta_kept self.now);
          level = (meta_kept self.now).level;
          split = (meta_kept self.now).split;
          pages = (page_state self.now).end;
          free = (meta_kept self.now).free_count;
        } }
    {
        Stat {
            pairs: self.meta.pairs,
            limit: self.meta.limit,
            buckets: self.meta.shape.buckets(),
            level: self.meta.shape.level,
            split: self.meta.shape.split,
            pages: self.store.end(),
            free: self.meta.free_count,
        }
    }

    /// The version of the database's format. No device call is made.
    pub fn version(&self) -> Version
        ensures { model_version result ≡ (meta_kept self.now).bounds.version }
    {
        self.meta.version
    }

    // Looks the key up, and reads its content into the buffer where that lies in pages of its own.
    fn find(&mut self, key: &[u8]) -> Result<Option<Found>, PageFault>
        ensures reads { IsRead self.old self.new }
        ensures cause { HasDeviceCause (S.faults (store_of self.old))
            (S.faults (store_of self.new)) result }
        ensures answer { IsLoadAnswer (page_state self.old) result }
        ensures memory { IsErrOf result Memory → ((meta_kept self.old).bounds.version ≡ V2)
            × Searched self.old key.now (EndsAtFar key.now) }
        ensures held { IfOk result (λ found. IfSome found (IsShort self.new)) }
        ensures searched { IfOk result (λ found. Searched self.old key.now
            (EndsAtContent (body_at S.PageStore (store_of self.old)) key.now
            (content_in self.new found))) }
        ensures readable { CanFetch self.old key.now → IsErrOf result Damaged → ⊥ }
        ensures exact { S.honest (store_of self.old) → (map : Contents)
            → Holds S.PageStore (store_of self.old) (meta_kept self.old) map
            → IfOk result (λ found. content_in self.new found ≡ get map key.now) }
        ensures sparing { S.honest (store_of self.old) → (map : Contents)
            → Holds S.PageStore (store_of self.old) (meta_kept self.old) map
            → IsErrOf result Memory → holds_far key.now (get map key.now) ≡ true }
        ensures whole { S.honest (store_of self.old) → (map : Contents)
            → Holds S.PageStore (store_of self.old) (meta_kept self.old) map
            → IsErrOf result Damaged → ⊥ }
    {
        let found = find_content(
            &mut self.store,
            &self.meta,
            key,
            &mut self.near,
            &mut self.page,
        )?;
        match found {
            None => Ok(None),
            Some(FoundContent::Near) => Ok(Some(Found::Near)),
            Some(FoundContent::Far { first, long }) => {
                read_content(&mut self.store, first, long, &mut self.far)?;
                Ok(Some(Found::Far))
            }
        }
    }
}

/// Refuses a call, and keeps the first fault.
pub(crate) fn refuse<T>(error: &mut Option<Fault>, fault: Fault) -> Result<T, Fault>
    ensures answer { result ≡ Err fault }
    ensures flag { error.new ≡ (if is_some error.old then error.old else Some fault) }
{
    *error = error.or(Some(fault));
    Err(fault)
}
