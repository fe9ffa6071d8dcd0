//! Looking a key up.

ghost use Rattle.std.specs.Prelude.{IfOk, IfSome, IsErrOf};
ghost use Rattle.std.specs.FinMap.{get};
ghost use Rattle.page_model.specs.Placement.{contents};
ghost use Rattle.page_model.specs.Valid.{IsMeta};
ghost use Rattle.page_io.specs.Calls.{IsReadingCall};
ghost use Rattle.page_io.specs.Versions.{model_version};
ghost use Rattle.page_io.specs.Views.{body_at};
ghost use Rattle.page_io.specs.declared.store.PageFault.TheVariants.{Damaged};
ghost use Rattle.seg_table.specs.MetaPages.{model_meta};
ghost use Rattle.bucket_chain.specs.WalkAnswers.{IsWalkAnswer};
ghost use Rattle.linear_hash.specs.Tables.{ForEachTable};
ghost use Rattle.bucket_chain.specs.ContentLookups.{IsOfVersion};
ghost use Rattle.linear_hash.specs.Looking.{IsHeld, IsFound, IsFoundContent, IsSearch, CanSearch, EndsAt, EndsAtFound};

use bucket_chain::{FoundContent, NearContent, Place, lookup, lookup_content};
use lin_addr::hash;
use page_io::{Page, PageFault, PageStore};
use seg_table::{Meta, head_of};

/// Where the key's record stands; `page` is then its page. It reads the page of the segment of the
/// key's bucket, and the pages of its chain up to the one with the key, at most as many as the file
/// has. It takes no memory. Damaged is answered where one of these pages is none of a segment, or
/// none of a chain of the file's version; Broken only where the store isn't usable; Device where a
/// read of the device fails.
pub fn find_pair<S: PageStore>(
    store: &mut S,
    meta: &Meta,
    key: &[u8],
    page: &mut Page,
) -> Result<Option<Place>, PageFault>
    requires { IsMeta (model_meta meta.now) }
    ensures reads { IsReadingCall S.PageStore store.old store.new result }
    ensures answer { IsWalkAnswer (S.state store.old) result }
    ensures held { IfOk result (λ place.
        IfSome place (λ at. IsHeld (model_version meta.now.version) key.now page.new.bytes
        at.slot)) }

    // On any file the key's bucket was searched.
    ensures searched { S.honest store.old → IfOk result (λ place.
        IsSearch (body_at S.PageStore store.old) (model_meta meta.now) key.now
        (EndsAt key.now page.new.bytes place)) }
    ensures exact { ForEachTable S.PageStore store.old (model_meta meta.now) (λ p.
        IfOk result (λ place. IsFound (body_at S.PageStore store.old) key.now
        (get (contents p) key.now) page.new.bytes place)) }
    ensures whole { ForEachTable S.PageStore store.old (model_meta meta.now) (λ p.
        IsErrOf result Damaged → ⊥) }

    // Nor is it Damaged where only other pages are than those that it reads.
    ensures readable { S.honest store.old
        → CanSearch (body_at S.PageStore store.old) (model_meta meta.now)
        (S.state store.old).end key.now
        → IsErrOf result Damaged → ⊥ }
{
    let head = head_of(store, meta, meta.shape.bucket(hash(key)), page)?;
    lookup(store, head, key, page, meta.version)
}

/// Where the content of the key is. It is put into `room` where it lies beside the key. The pages
/// of `find_pair` are read, into `page` where the store doesn't lend them, and the same faults are
/// answered.
pub fn find_content<S: PageStore>(
    store: &mut S,
    meta: &Meta,
    key: &[u8],
    room: &mut NearContent,
    page: &mut Page,
) -> Result<Option<FoundContent>, PageFault>
    requires { IsMeta (model_meta meta.now) }
    ensures reads { IsReadingCall S.PageStore store.old store.new result }
    ensures answer { IsWalkAnswer (S.state store.old) result }
    ensures of_version { IfOk result (λ found. IfSome found
        (IsOfVersion (model_version meta.now.version) key.now)) }

    // On any file the key's bucket was searched.
    ensures searched { S.honest store.old → IfOk result (λ found.
        IsSearch (body_at S.PageStore store.old) (model_meta meta.now) key.now
        (EndsAtFound key.now room.new.items found)) }
    ensures exact { ForEachTable S.PageStore store.old (model_meta meta.now) (λ p.
        IfOk result (IsFoundContent (body_at S.PageStore store.old) (get (contents p) key.now)
        room.new.items)) }
    ensures whole { ForEachTable S.PageStore store.old (model_meta meta.now) (λ p.
        IsErrOf result Damaged → ⊥) }

    // Nor is it Damaged where only other pages are than those that it reads.
    ensures readable { S.honest store.old
        → CanSearch (body_at S.PageStore store.old) (model_meta meta.now)
        (S.state store.old).end key.now
        → IsErrOf result Damaged → ⊥ }
{
    let head = head_of(store, meta, meta.shape.bucket(hash(key)), page)?;
    lookup_content(store, head, key, room, page, meta.version)
}
