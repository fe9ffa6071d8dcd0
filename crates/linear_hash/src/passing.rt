//! A pass over all keys, in the order of the ranks of their hashes.

ghost use Rattle.std.specs.Prelude.{option_copied, IfOk, IfSome, IsErrOf};
ghost use Rattle.page_model.specs.Placement.{pairs_of};
ghost use Rattle.page_model.specs.Valid.{IsMeta};
ghost use Rattle.page_io.specs.Calls.{IsReadingCall};
ghost use Rattle.page_io.specs.Views.{body_at};
ghost use Rattle.page_io.specs.declared.store.PageFault.TheVariants.{Damaged};
ghost use Rattle.seg_table.specs.MetaPages.{model_meta};
ghost use Rattle.bucket_chain.specs.WalkAnswers.{IsWalkAnswer};
ghost use Rattle.bucket_chain.specs.Leasts.{pass_behind, IsLeast, IsAheadAt};
ghost use Rattle.linear_hash.specs.Tables.{ForEachTable};
ghost use Rattle.linear_hash.specs.Passing.{IsPassed};

use bucket_chain::{RankedPage, least_behind};
use lin_addr::hash;
use page_io::{Page, PageFault, PageStore};
use seg_table::{Meta, head_of};

/// The slot of the least key behind `last`, in the order of a pass, or of the least of all where
/// that is `None`; `ranked` is then its page. It looks in the bucket of `last` and then in those that
/// follow it, into a segment page and all pages of a chain for each, and reads those into `page` that
/// the store doesn't lend. It takes no memory. The keys of a page are ranked where `ranked` is of
/// other bytes.
/// Damaged is answered where one of these pages is none of a segment, or none of a chain of the
/// file's version; Broken only where the store isn't usable; Device where a read of the device
/// fails.
pub fn next_pair<S: PageStore>(
    store: &mut S,
    meta: &Meta,
    last: Option<&[u8]>,
    page: &mut Page,
    ranked: &mut RankedPage,
) -> Result<Option<usize>, PageFault>
    requires { IsMeta (model_meta meta.now) }
    ensures reads { IsReadingCall S.PageStore store.old store.new result }
    ensures answer { IsWalkAnswer (S.state store.old) result }

    // On any bytes a key is answered that is behind `last`.
    ensures ahead { IfOk result (λ found. IfSome found (λ slot.
        IsAheadAt (pass_behind (option_copied last.entry)) ranked.new slot)) }

    // On any file the buckets were read from that of `last` on, in their order.
    ensures passed { S.honest store.old
        → IfOk result (IsPassed (body_at S.PageStore store.old) (model_meta meta.now)
        (pass_behind (option_copied last.entry)) ranked.new) }

    // On pages that say a good placement it is the least of all keys, and Damaged is never
    // answered.
    ensures exact { ForEachTable S.PageStore store.old (model_meta meta.now) (λ p.
        IfOk result (IsLeast (pairs_of p) (pass_behind (option_copied last.entry))
        ranked.new)) }
    ensures whole { ForEachTable S.PageStore store.old (model_meta meta.now) (λ p.
        IsErrOf result Damaged → ⊥) }
{
    let mut bucket = last.map_or(0, |key| meta.shape.bucket(hash(key)));
    loop {
        let head = head_of(store, meta, bucket, page)?;
        if let Some(slot) = least_behind(store, head, last, page, ranked, meta.version)? {
            return Ok(Some(slot));
        }
        match meta.shape.following(bucket) {
            Some(next) => bucket = next,
            None => return Ok(None),
        }
    }
}
