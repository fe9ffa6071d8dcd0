// Laws of the pages of a placement. What each says stands in `specs/BodyLaws.antt`.
ghost use Rattle.page_model.specs.PageExamples.{NewPages, NinePairPages, FreedPages, OverflowPages, FarPages};
ghost use Rattle.page_model.specs.BodyLaws.{BodiesAreValid, PagesReadExactly, FlatIsContents, OneMap, OneMeaning, PagesHaveOneMeaning, GoodPagesStand, StoredStands, DeletedStands, PutEntryRewrites, PutRewrites, DeleteRewrites, ExtendRewrites, MetaRewrites, RaisedRewrites, BodiesAreOfVersion};

/// What a good placement says of its pages can be spelled.
pub fn bodies_are_valid()
    ensures { BodiesAreValid }
{}

/// Pages are the spelling of a good placement exactly where they are read as it.
pub fn pages_read_exactly()
    ensures { PagesReadExactly }
{}

/// The pairs of all pages, in ascending number of page, are the map.
pub fn flat_is_contents()
    ensures { FlatIsContents }
{}

/// Two placements that the same pages spell have one map.
pub fn one_map()
    ensures { OneMap }
{}

/// What is read of pages stands for one map and one limit.
pub fn one_meaning()
    ensures { OneMeaning }
{}

/// Pages of bytes stand for one map and one limit.
pub fn pages_have_one_meaning()
    ensures { PagesHaveOneMeaning }
{}

/// The spelling of a good placement stands for its map.
pub fn good_pages_stand()
    ensures { GoodPagesStand }
{}

/// After a store, pages stand for the map with the pair.
pub fn stored_stands()
    ensures { StoredStands }
{}

/// After a delete, pages stand for the map without the key.
pub fn deleted_stands()
    ensures { DeletedStands }
{}

/// A record is put by a change of one chain and the free list, and the contents of those that are
/// left stay.
pub fn put_entry_rewrites()
    ensures { PutEntryRewrites }
{}

/// A pair is put by a change of one chain and the free list.
pub fn put_rewrites()
    ensures { PutRewrites }
{}

/// A key is deleted by a change of one chain and the free list.
pub fn delete_rewrites()
    ensures { DeleteRewrites }
{}

/// A bucket is added by a change of two heads, the last segment page and the free list.
pub fn extend_rewrites()
    ensures { ExtendRewrites }
{}

/// Once all other pages say a placement, the meta page alone is left to rewrite.
pub fn meta_rewrites()
    ensures { MetaRewrites }
{}

/// A database goes to version 2 by a change of the meta page alone.
pub fn raised_rewrites()
    ensures { RaisedRewrites }
{}

/// What the pages of a good placement say is of its version.
pub fn bodies_are_of_version()
    ensures { BodiesAreOfVersion }
{}

/// The pages of five files that are worked out by hand, byte by byte.
pub fn page_examples()
    ensures new { NewPages }
    ensures nine_pairs { NinePairPages }
    ensures freed { FreedPages }
    ensures overflow { OverflowPages }
    ensures far { FarPages }
{}
