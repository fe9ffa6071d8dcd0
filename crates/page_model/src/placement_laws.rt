// Laws of placements. What each says stands in `specs/PlacementLaws.antt` and
// `specs/PlacementExamples.antt`.
ghost use Rattle.page_model.specs.PlacementLaws.{GrowingMovesOneBucket, AddressesAreBelow, ReplaceInserts, DeleteRemoves, AbsentDeleteKeeps, SplitKeeps, LooksInOneChain, CountsKeys, PairsAreAllowed, StoreStaysGood, DeleteStaysGood, FreshIsGood, RaisedIsGood, MapHoldsBytes, MapIsAllowed, LevelIsLow, StoreTakesFew, OnceIsPermutation};
ghost use Rattle.page_model.specs.PlacementExamples.{HashExamples, NinePairs, SeventeenPairs, LongPairs, ThickPairs, FullPages, FarPairs};

/// A further bucket takes hashes of the bucket that is split, and of no other.
pub fn growing_moves_one_bucket()
    ensures { GrowingMovesOneBucket }
{}

/// An address is the number of a bucket.
pub fn addresses_are_below()
    ensures { AddressesAreBelow }
{}

/// A pair that replaces its key's goes into the map.
pub fn replace_inserts()
    ensures { ReplaceInserts }
{}

/// A deleted key goes from the map.
pub fn delete_removes()
    ensures { DeleteRemoves }
{}

/// The delete of a key that is not there changes nothing.
pub fn absent_delete_keeps()
    ensures { AbsentDeleteKeeps }
{}

/// A split keeps the map and the number of pairs, and makes one bucket more.
pub fn split_keeps()
    ensures { SplitKeeps }
{}

/// A fetch looks in the chain of the key's bucket alone.
pub fn looks_in_one_chain()
    ensures { LooksInOneChain }
{}

/// There are as many pairs as keys.
pub fn counts_keys()
    ensures { CountsKeys }
{}

/// Each pair is at most 2,026 bytes.
pub fn pairs_are_allowed()
    ensures { PairsAreAllowed }
{}

/// A store leaves a good placement, with the pair in its map.
pub fn store_stays_good()
    ensures { StoreStaysGood }
{}

/// A delete leaves a good placement, with the key gone from its map.
pub fn delete_stays_good()
    ensures { DeleteStaysGood }
{}

/// A new database is good and empty.
pub fn fresh_is_good()
    ensures { FreshIsGood }
{}

/// A good placement is good in version 2, where it has the room of that.
pub fn raised_is_good()
    ensures { RaisedIsGood }
{}

/// Keys and contents of a good placement are bytes.
pub fn map_holds_bytes()
    ensures { MapHoldsBytes }
{}

/// Each pair of the map of a good placement is one that its version allows.
pub fn map_is_allowed()
    ensures { MapIsAllowed }
{}

/// The level of a good placement is at most 16.
pub fn level_is_low()
    ensures { LevelIsLow }
{}

/// A store takes at most a page for each pair and four more.
pub fn store_takes_few()
    ensures { StoreTakesFew }
{}

/// Counted once each, the pages are the numbers from 1 up to the end in some order.
pub fn once_is_permutation()
    ensures { OnceIsPermutation }
{}

/// Hashes and placements that are worked out by hand.
pub fn placement_examples()
    ensures hashes { HashExamples }
    ensures nine_pairs { NinePairs }
    ensures seventeen_pairs { SeventeenPairs }
    ensures long_pairs { LongPairs }
    ensures thick_pairs { ThickPairs }
    ensures full_pages { FullPages }
    ensures far_pairs { FarPairs }
{}
