// A store of pages as the layers above see it.
ghost use Rattle.std.specs.Prelude.{◌≡◌, ◌⊎◌, ◌<◌, ◌≤◌, ◌+◌, ◌^◌, ◌↔◌, ℕ, [], true, false, length, IfErr, OnOk, OnErr, IfOk, IfSome, IsErrOf, IsTrue};
ghost use Rattle.sect_dev.specs.Device.{Moment, LeavesOnly};
ghost use Rattle.page_io.specs.Page.{own_number};
ghost use Rattle.page_io.specs.Store.{Pages, Settled, file_of, StoreState, IsKnown, IsEither, page_of, overlaid, put_page, has_page, are_in_order, committed_with, AllBelow, IsNextOf};
ghost use Rattle.page_io.specs.BucketPages.{IsPageOf};
ghost use Rattle.page_io.specs.Kept.{KeepsPages};
ghost use Rattle.page_io.specs.Answers.{HasDeviceCause, IsReadAnswer, IsStageAnswer, IsCommitAnswer, IsSettleAnswer, IsRefusal};
ghost use Rattle.page_io.specs.Versions.{model_version};
ghost use Rattle.page_io.specs.declared.store.PageFault.TheVariants.{Device};

use crate::{Page, Version};

/// Why a store refused a call.
#[derive(Clone, Copy, Debug, PartialEq, Eq)]
pub enum PageFault {
    /// A growth of memory was refused.
    Memory,
    /// A call of the device below failed.
    Device,
    /// An earlier commit failed half way, or the settling of one. What it left is found by opening
    /// the device again.
    Broken,
    /// The store was opened for reading alone.
    ReadOnly,
    /// The device has no room for the staged pages behind the file.
    NoRoom,
    /// The page is not one of the file's.
    Damaged,
}

/// A page in memory, and the version of which it is known to be a bucket page, if it is known of one.
#[derive(Clone, Copy)]
pub struct LentPage<'a> {
    pub page: &'a Page,
    pub known: Option<Version>,
}

/// Pages that a commit changes whole or not at all, wherever a stop falls.
///
/// Changed pages are staged first. A read gives the staged page, else the committed one; a stop
/// leaves the committed ones alone. Pages are counted from 1, and page 0 is never read or staged.
pub trait PageStore {
    /// What calls change, whatever the device does.
    ghost state: { Self → StoreState };

    /// The committed pages, from page 1 on.
    ghost committed: { Self → Pages };

    /// The device below is honest.
    ghost honest: { Self → Type 0 };

    /// How often the device below has failed.
    ghost faults: { Self → ℕ };

    /// What an image that a stop may leave now settles to.
    ghost settles_to: { Self → Settled → Type 0 };

    /// The moment, and up to which one the device below may go that stops for good.
    ghost moment: { Self → Moment };

    /// What an image that a stop at some moment from that one on may have left settles to.
    ghost settled_since: { Self → ℕ → Settled → Type 0 };

    /// Each committed page stands in its place on the device, and no commit is on its way there.
    ghost at_home: { Self → Type 0 };

    /// How many pages can be staged with no memory taken.
    ghost reserved: { ℕ };

    /// As many as a store changes that splits no bucket.
    ghost reserves: { 5 ≤ reserved };

    /// Gives the staged page n, else the committed one, and the version of which it is known to be
    /// a bucket page, if it is known of one. It is never refused for want of memory. At `Err` the
    /// bytes of `page` are unspecified.
    fn read(&mut self, n: u32, page: &mut Page) -> Result<Option<Version>, PageFault>
        ensures found { honest self.old
            → OnOk result (page.new.bytes
            ≡ overlaid (state self.old).staged (page_of (committed self.old)) n) }
        ensures known { IfOk result (λ known. IfSome known
            (λ version. IsPageOf (model_version version) page.new.bytes)) }
        ensures answer { IsReadAnswer (state self.old) n result }
        ensures state { state self.new ≡ state self.old }
        ensures kept { honest self.old
            → KeepsPages committed moment settled_since settles_to self.old self.new }
        ensures honesty { honest self.new ↔ honest self.old }
        ensures cause { HasDeviceCause (faults self.old) (faults self.new) result };

    /// Is told that page n, which is this one, is a bucket page of the version. A store that keeps
    /// pages may answer so where it is read again.
    fn note(&mut self, n: u32, page: &Page, version: Version)
        requires bucket { IsPageOf (model_version version) page.now.bytes }
        requires read { honest self.old → page.now.bytes
            ≡ overlaid (state self.old).staged (page_of (committed self.old)) n }
        ensures state { state self.new ≡ state self.old }
        ensures kept { honest self.old
            → KeepsPages committed moment settled_since settles_to self.old self.new }
        ensures honesty { honest self.new ↔ honest self.old }
        ensures faults { faults self.new ≡ faults self.old }
    {}

    /// Lends page n where it lies in memory, as a read would give it. A store that keeps no pages
    /// lends none.
    fn lend(&self, n: u32) -> Option<LentPage<'_>>
        ensures found { IfSome result (λ lent. honest self.now → lent.page.now.bytes
            ≡ overlaid (state self.now).staged (page_of (committed self.now)) n) }
        ensures known { IfSome result (λ lent. IfSome lent.known
            (λ version. IsPageOf (model_version version) lent.page.now.bytes)) }
        ensures readable { IfSome result
            (λ lent. ((state self.now).usable ≡ true) × IsKnown (state self.now) n) }
    {
        None
    }

    /// Is told that page n is used. A store that keeps pages keeps it longer than those that were
    /// not used since.
    fn promote(&mut self, n: u32)
        ensures state { state self.new ≡ state self.old }
        ensures kept { honest self.old
            → KeepsPages committed moment settled_since settles_to self.old self.new }
        ensures honesty { honest self.new ↔ honest self.old }
        ensures faults { faults self.new ≡ faults self.old }
    {}

    /// Stages a page in the place of its own number.
    fn stage(&mut self, n: u32, page: &Page) -> Result<(), PageFault>
        requires number { own_number page.now.bytes ≡ n }
        requires some { 1 ≤ n }
        ensures ok { OnOk result (state self.new
            ≡ record (state self.old) {
              staged =
                  put_page (state self.old).staged page.now.bytes;
            }) }
        ensures err { OnErr result (state self.new ≡ state self.old) }
        ensures answer { IsStageAnswer reserved (state self.old) n result }
        ensures kept { honest self.old
            → KeepsPages committed moment settled_since settles_to self.old self.new }
        ensures honesty { honest self.new ↔ honest self.old }
        ensures faults { faults self.new ≡ faults self.old };

    /// Forgets all staged pages.
    fn unstage(&mut self)
        ensures state { state self.new ≡ record (state self.old) { staged = [] } }
        ensures kept { honest self.old
            → KeepsPages committed moment settled_since settles_to self.old self.new }
        ensures honesty { honest self.new ↔ honest self.old }
        ensures faults { faults self.new ≡ faults self.old };

    /// Puts the staged pages in the place of those that they name, whole or not at all; the file
    /// then ends before page `new_end`. It takes no memory. At `Ok` a stop leaves the new pages,
    /// also where some of them still wait for their place on the device.
    fn commit(&mut self, new_end: u32) -> Result<(), PageFault>
        requires some { 0 < length (state self.old).staged }
        requires least { 4 ≤ new_end }
        requires below { AllBelow new_end (state self.old).staged }
        requires grown { (n : ℕ) → (state self.old).end ≤ n → n < new_end
            → has_page (state self.old).staged n ≡ true }

        // Every image of every moment since the call's start settles to the old pages or to the
        // new.
        ensures any_moment { honest self.old → (state self.old).usable ≡ true
            → (state self.old).writable ≡ true → LeavesOnly moment settled_since self.old self.new
            (IsEither (committed self.old)
            (committed_with (committed self.old) (state self.old).staged new_end)) }
        ensures committed { honest self.old
            → OnOk result (committed self.new
            ≡ committed_with (committed self.old) (state self.old).staged new_end) }
        ensures ok { OnOk result (state self.new
            ≡ record (state self.old) { staged = []; end = new_end }) }
        ensures refused { IfErr result (λ e. IsRefusal e → (state self.new ≡ state self.old)
            × (honest self.old → KeepsPages committed moment settled_since settles_to
            self.old self.new)) }
        ensures breaks { IsErrOf result Device
            → state self.new ≡ record (state self.old) { usable = false } }
        ensures answer { IsCommitAnswer (state self.old) new_end result }
        ensures honesty { honest self.new ↔ honest self.old }
        ensures cause { HasDeviceCause (faults self.old) (faults self.new) result };

    /// Brings committed pages that wait to their places on the device. It takes no memory.
    fn settle(&mut self) -> Result<(), PageFault>
        // Every image of every moment since the call's start settles to what one could settle to
        // then, whatever is answered: in a usable store opened for writing to the committed pages.
        ensures any_moment { honest self.old
            → LeavesOnly moment settled_since self.old self.new (settles_to self.old) }
        ensures committed { honest self.old
            → OnOk result (committed self.new ≡ committed self.old) }
        ensures home { honest self.old
            → OnOk result ((state self.old).writable ≡ true → at_home self.new) }
        ensures ok { OnOk result (state self.new ≡ state self.old) }
        ensures breaks { IsErrOf result Device
            → state self.new ≡ record (state self.old) { usable = false } }
        ensures untouched { ((state self.old).usable ≡ false) ⊎ ((state self.old).writable ≡ false)
            → self.new ≡ self.old }
        ensures answer { IsSettleAnswer (state self.old) result }
        ensures honesty { honest self.new ↔ honest self.old }
        ensures cause { HasDeviceCause (faults self.old) (faults self.new) result };

    /// The number behind the last committed page.
    fn end(&self) -> u32
        ensures { result ≡ (state self.now).end };

    /// How many pages the device has room for, page 0 among them.
    fn capacity(&self) -> u32
        ensures { result ≡ (state self.now).capacity };

    /// Whether page n is staged.
    fn is_staged(&self, n: u32) -> bool
        ensures { result ≡ has_page (state self.now).staged n };

    /// The number of the first staged page behind page n.
    fn next_staged(&self, n: u32) -> Option<u32>
        ensures { IsNextOf (state self.now).staged n result };

    /// Whether a commit or its settling has failed on the device. Every later call then answers
    /// Broken.
    fn is_broken(&self) -> bool
        ensures { IsTrue result ↔ ((state self.now).usable ≡ false) };

    /// The committed pages are what a stop may leave.
    ghost committed_may_stay: { (store : Self) → honest store → (state store).usable ≡ true
        → settles_to store (file_of (committed store)) };

    /// In a usable store that was opened for writing a stop leaves them and nothing else.
    ghost only_committed: { (store : Self) (settled : Settled) → honest store
        → (state store).usable ≡ true → (state store).writable ≡ true → settles_to store settled
        → settled ≡ file_of (committed store) };

    /// Since this moment there is no other.
    ghost only_now: { (store : Self) (settled : Settled) → honest store
        → settled_since store (moment store).at settled → settles_to store settled };

    /// This moment is one of those since an earlier one.
    ghost counts_now: { (store : Self) (t : ℕ) (settled : Settled) → honest store
        → t ≤ (moment store).at → settles_to store settled → settled_since store t settled };

    /// The committed pages are those before the end.
    ghost ends: { (store : Self) → length (committed store) + 1 ≡ (state store).end };

    /// A file has three pages at least, and fits its device.
    ghost in_range: { (store : Self)
        → (4 ≤ (state store).end) × ((state store).end ≤ (state store).capacity)
        × ((state store).capacity < 2 ^ 32) };

    /// The staged pages stand in rising order of their own numbers.
    ghost in_order: { (store : Self) → are_in_order 1 (2 ^ 32) (state store).staged ≡ true };
}
