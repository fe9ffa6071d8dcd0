//! Changes of the pairs, each in one commit, and the upgrade.

ghost use Rattle.std.specs.Prelude.{◌≡◌, ◌*◌, ◌≤◌};
ghost use Rattle.dbm_model.specs.Bounds.{in_v2};
ghost use Rattle.dbm_model.specs.Pairs.{is_allowed};
ghost use Rattle.dbm_model.specs.Sizes.{home};
ghost use Rattle.page_io.specs.Versions.{model_version};

use crate::database::{Database, refuse};
use crate::pass::MAX_PAIR;
use crate::{DeleteReply, Fault, StoreMode, StoreReply};
use file_opening::needed_sectors_of;
use linear_hash::{delete_pair, find_pair, store_pair, upgrade};
use page_io::{PageFault, PageStore, Version};

/// The most bytes that the key of a pair may have whose content lies in pages of its own.
const MAX_FAR_KEY: usize = 1023;

/// The most bytes that such a content may have.
const MAX_CONTENT: usize = 65_535;

impl<S: PageStore> Database<S> {
    ghost use Rattle.std.specs.Prelude.{◌≡◌, ◌↔◌, ◌+◌, is_some, IsErrOf, IfOk, OnOk, Err, Ok, true, false};
    ghost use Rattle.std.specs.FinMap.{get};
    ghost use Rattle.dbm_model.specs.Bounds.{V1, V2};
    ghost use Rattle.dbm_model.specs.Calls.{Store, Delete, Upgrade};
    ghost use Rattle.dbm_model.specs.Changes.{bounds_after};
    ghost use Rattle.dbm_model.specs.Pairs.{Contents, is_allowed};
    ghost use Rattle.dbm_fault.specs.Among.{IsErrAmong};
    ghost use Rattle.linear_hash.specs.Tables.{shape_in, shape_for};
    ghost use Rattle.page_io.specs.Committing.{Holds};
    ghost use Rattle.page_io.specs.Answers.{HasDeviceCause};
    ghost use Rattle.page_io.specs.declared.store.PageFault.TheVariants.{Damaged};
    ghost use Rattle.bucket_chain.specs.WalkAnswers.{IsWalkAnswer};
    ghost use Rattle.bucket_chain.specs.Walks.{EndsWithout};
    ghost use Rattle.dbm_file.specs.Answers.{IsStep, IsCallEnded, IsCallEndedWith};
    ghost use Rattle.dbm_file.specs.Calls.{mode_of, store_reply, delete_reply, upgrade_reply};
    ghost use Rattle.dbm_file.specs.Changing.{WasDeleted, WasStored, WasUpgraded, MayNeedMemory, MayUpgrade, IsTooSmall};
    ghost use Rattle.dbm_file.specs.Database.{store_of, meta_kept, page_state, AtEachHandle};
    ghost use Rattle.dbm_file.specs.Passing.{pass_of};
    ghost use Rattle.dbm_file.specs.Replies.{store_faults, delete_faults, upgrade_faults};
    ghost use Rattle.dbm_file.specs.Searches.{Searched, EndsWith, EndsBy};
    ghost use Rattle.dbm_file.specs.Trying.{with_error_of, IsRead, IsStoreEnd, IsDeleteEnd, IsUpgradeEnd};

    /// Stores a pair (POSIX: `dbm_store`), in one commit. In this order: `Broken`; `ReadOnly`;
    /// `TooLong` where key and content together are above 2,026 bytes, but in version 2 with a key
    /// of at most 1,023 bytes and a content of at most 65,535; `Device` or `Damaged` while the key
    /// is looked up; `Kept`; `Full` where the key is new and the limit is reached; then `Device`,
    /// `NoRoom`, `Damaged`, or `Memory` where a bucket is split or one of the two contents lies in
    /// pages of its own, as the work meets them. Where the commit fails by `Device`, the database
    /// is broken, and opening the device again settles whether the pair is there.
    pub fn store(
        &mut self,
        key: &[u8],
        content: &[u8],
        mode: StoreMode,
    ) -> Result<StoreReply, Fault>
        ensures step { AtEachHandle self.old (λ h.
            IsStep self.old self.new h (Store key.now content.now (mode_of mode))
            (store_reply result)) }
        ensures shape { shape_in (meta_kept self.new)
            ≡ shape_for (meta_kept self.new).pairs (shape_in (meta_kept self.old)) }
        ensures read_only { (result ≡ Err Fault.ReadOnly)
            ↔ (((page_state self.old).usable ≡ true) × ((page_state self.old).writable ≡ false)) }
        ensures kept { result ≡ Ok StoreReply.Kept
            → (mode ≡ StoreMode.Insert) × Searched self.old key.now (EndsWith key.now) }

        // On any file the pair was put into its bucket, and one was split where that is due.
        ensures stored { result ≡ Ok StoreReply.Stored
            → WasStored self.old self.new (key.now, content.now) }
        ensures too_long { (result ≡ Err Fault.TooLong)
            ↔ (((page_state self.old).usable ≡ true) × ((page_state self.old).writable ≡ true)
            × (is_allowed (meta_kept self.old).bounds.version (key.now, content.now) ≡ false)) }

        // On any file a store takes memory only where there are eight pairs to a bucket, or the
        // content lies in pages of its own, or in version 2 takes the place of another.
        ensures memory { result ≡ Err Fault.Memory
            → MayNeedMemory (meta_kept self.old) (key.now, content.now) mode }
        ensures keeps { IsCallEnded self.old self.new result }
        ensures pass { pass_of self.new ≡ pass_of self.old }
        ensures only { IsErrAmong result store_faults }
    {
        match self.try_store(key, content, mode) {
            Ok(reply) => Ok(reply),
            Err(fault) => refuse(&mut self.error, fault),
        }
    }

    /// Deletes a key with its content (POSIX: `dbm_delete`), in one commit. In this order:
    /// `Broken`; `ReadOnly`; `Device` or `Damaged` while the key is looked up; `Absent`; then
    /// `Device`, `NoRoom`, `Damaged`, or `Memory` where the content lies in pages of its own, as the
    /// work meets them, `Damaged` also where the file counts no pair. In version 1 it is never
    /// refused for memory.
    pub fn delete(&mut self, key: &[u8]) -> Result<DeleteReply, Fault>
        ensures step { AtEachHandle self.old (λ h.
            IsStep self.old self.new h (Delete key.now) (delete_reply result)) }
        ensures shape { shape_in (meta_kept self.new) ≡ shape_in (meta_kept self.old) }
        ensures read_only { (result ≡ Err Fault.ReadOnly)
            ↔ (((page_state self.old).usable ≡ true) × ((page_state self.old).writable ≡ false)) }
        ensures absent { result ≡ Ok DeleteReply.Absent
            → Searched self.old key.now (EndsWithout key.now) }
        ensures counted { result ≡ Ok DeleteReply.Deleted
            → (meta_kept self.new).pairs + 1 ≡ (meta_kept self.old).pairs }

        // On any file the key was taken out of its bucket.
        ensures deleted { result ≡ Ok DeleteReply.Deleted
            → WasDeleted self.old self.new key.now }
        ensures memory { result ≡ Err Fault.Memory → (meta_kept self.old).bounds.version ≡ V2 }
        ensures keeps { IsCallEnded self.old self.new result }
        ensures pass { pass_of self.new ≡ pass_of self.old }
        ensures only { IsErrAmong result delete_faults }
    {
        match self.try_delete(key) {
            Ok(reply) => Ok(reply),
            Err(fault) => refuse(&mut self.error, fault),
        }
    }

    /// Makes the database one of version 2, in one commit of the meta page alone; its pairs, its
    /// limit and a pass that is on stay. In this order: `Broken`; `ReadOnly`; Ok with no device call
    /// where it is of version 2 already; `TooSmall` where the device has fewer sectors than
    /// `needed_sectors_of` version 2; `NoRoom`; `Device` in the commit, and then the database is
    /// broken, and opening the device again finds it of the one version or the other.
    pub fn upgrade(&mut self) -> Result<(), Fault>
        ensures step { AtEachHandle self.old (λ h.
            IsStep self.old self.new h Upgrade (upgrade_reply result)) }
        ensures read_only { (result ≡ Err Fault.ReadOnly)
            ↔ (((page_state self.old).usable ≡ true) × ((page_state self.old).writable ≡ false)) }
        ensures too_small { (result ≡ Err Fault.TooSmall) ↔ IsTooSmall self.old }

        // Room lacks only where the device has no page behind the file.
        ensures room { result ≡ Err Fault.NoRoom
            → (page_state self.old).capacity ≤ (page_state self.old).end }

        // Of version 2 it is left as it is.
        ensures second { MayUpgrade self.old → (meta_kept self.old).bounds.version ≡ V2
            → OnOk result (self.new ≡ self.old) }

        // On any file of version 1 nothing changes but the version.
        ensures upgraded { OnOk result ((meta_kept self.old).bounds.version ≡ V1
            → WasUpgraded self.old self.new) }
        ensures keeps { IsCallEndedWith
            (bounds_after (meta_kept self.old).bounds Upgrade (upgrade_reply result))
            self.old self.new result }
        ensures pass { pass_of self.new ≡ pass_of self.old }
        ensures only { IsErrAmong result upgrade_faults }
    {
        match self.try_upgrade() {
            Ok(()) => Ok(()),
            Err(fault) => refuse(&mut self.error, fault),
        }
    }

    // `store`, with no look at the error.
    fn try_store(
        &mut self,
        key: &[u8],
        content: &[u8],
        mode: StoreMode,
    ) -> Result<StoreReply, Fault>
        ensures step { AtEachHandle self.old (λ h.
            IsStep self.old (with_error_of self.new result) h
            (Store key.now content.now (mode_of mode)) (store_reply result)) }
        ensures ends { IsStoreEnd self.old self.new (with_error_of self.new result) key.now
            content.now mode result }
        ensures pass { pass_of self.new ≡ pass_of self.old }
    {
        if self.store.is_broken() {
            return Err(Fault::Broken);
        }
        if !self.writable {
            return Err(Fault::ReadOnly);
        }
        if !is_allowed(self.meta.version, key, content) {
            return Err(Fault::TooLong);
        }
        let was_there = self.has(key)?;
        if was_there && mode == StoreMode::Insert {
            return Ok(StoreReply::Kept);
        }
        if !was_there && self.meta.pairs >= self.meta.limit {
            return Err(Fault::Full);
        }
        store_pair(
            self.alloc,
            &mut self.store,
            &mut self.meta,
            key,
            content,
            was_there,
        )?;
        Ok(StoreReply::Stored)
    }

    // `delete`, with no look at the error.
    fn try_delete(&mut self, key: &[u8]) -> Result<DeleteReply, Fault>
        ensures step { AtEachHandle self.old (λ h.
            IsStep self.old (with_error_of self.new result) h (Delete key.now)
            (delete_reply result)) }
        ensures ends { IsDeleteEnd self.old self.new (with_error_of self.new result)
            key.now result }
        ensures pass { pass_of self.new ≡ pass_of self.old }
    {
        if self.store.is_broken() {
            return Err(Fault::Broken);
        }
        if !self.writable {
            return Err(Fault::ReadOnly);
        }
        if !self.has(key)? {
            return Ok(DeleteReply::Absent);
        }
        if self.meta.pairs == 0 {
            return Err(Fault::Damaged);
        }
        delete_pair(&mut self.store, &mut self.meta, key)?;
        Ok(DeleteReply::Deleted)
    }

    // `upgrade`, with no look at the error.
    fn try_upgrade(&mut self) -> Result<(), Fault>
        ensures step { AtEachHandle self.old (λ h.
            IsStep self.old (with_error_of self.new result) h Upgrade (upgrade_reply result)) }
        ensures ends { IsUpgradeEnd self.old self.new (with_error_of self.new result) result }
        ensures pass { pass_of self.new ≡ pass_of self.old }
    {
        if self.store.is_broken() {
            return Err(Fault::Broken);
        }
        if !self.writable {
            return Err(Fault::ReadOnly);
        }
        if self.meta.version == Version::V2 {
            return Ok(());
        }
        if self.store.capacity() < pages_needed(self.meta.limit) {
            return Err(Fault::TooSmall);
        }
        upgrade(&mut self.store, &mut self.meta)?;
        Ok(())
    }

    // Whether the key is there.
    fn has(&mut self, key: &[u8]) -> Result<bool, PageFault>
        ensures reads { IsRead self.old self.new }
        ensures cause { HasDeviceCause (S.faults (store_of self.old))
            (S.faults (store_of self.new)) result }
        ensures answer { IsWalkAnswer (page_state self.old) result }
        ensures searched { IfOk result (λ there. Searched self.old key.now (EndsBy key.now there)) }
        ensures exact { S.honest (store_of self.old) → (map : Contents)
            → Holds S.PageStore (store_of self.old) (meta_kept self.old) map
            → IfOk result (λ there. there ≡ is_some (get map key.now)) }
        ensures whole { S.honest (store_of self.old) → (map : Contents)
            → Holds S.PageStore (store_of self.old) (meta_kept self.old) map
            → IsErrOf result Damaged → ⊥ }
    {
        let place = find_pair(&mut self.store, &self.meta, key, &mut self.page)?;
        Ok(place.is_some())
    }
}

/// Whether a file of this version may have the pair.
fn is_allowed(version: Version, key: &[u8], content: &[u8]) -> bool
    ensures { result ≡ is_allowed (model_version version) (key.now, content.now) }
{
    let is_near = key.len() + content.len() <= MAX_PAIR;
    let is_short = key.len() <= MAX_FAR_KEY && content.len() <= MAX_CONTENT;
    is_near || version == Version::V2 && is_short
}

/// How many pages a device has to have for a database of version 2 of this limit.
fn pages_needed(limit: u32) -> u32
    requires { (1 ≤ limit) × (limit ≤ 1000000) }
    ensures { result ≡ 2 * home (in_v2 limit) }
{
    // The limit of an open database is one.
    needed_sectors_of(Version::V2, limit).unwrap_or(0) / 4
}
