//! Laws of bucket pages: one list has one spelling, one spelling has one list.

ghost use Rattle.std.specs.Prelude.{◌≡◌, ◌↔◌, ℕ, List};
ghost use Rattle.page_model.specs.Pages.{Record, Bucket, HeadPage, OverflowPage, bucket};
ghost use Rattle.page_model.specs.Spelling.{bucket_spelling};
ghost use Rattle.page_model.specs.Reading.{own_number, kind_of, next_of, bucket_of, body_of};
ghost use Rattle.page_model.specs.Valid.{IsBucket};
ghost use Rattle.page_io.specs.BucketPages.{IsBucketPage, page_records};

/// Under an own number, a kind and a next page a list of records has one spelling: two pages that
/// say these have the same bytes.
pub fn one_spelling()
    ensures { (x y : List ℕ) → IsBucketPage x → IsBucketPage y → own_number x ≡ own_number y
        → kind_of x ≡ kind_of y → next_of x ≡ next_of y → page_records x ≡ page_records y
        → x ≡ y }
{}

/// Two lists have two spellings, also under other own numbers, kinds and next pages.
pub fn one_list()
    ensures { (b c : Bucket) → IsBucket b → IsBucket c
        → bucket_spelling b ≡ bucket_spelling c → b ≡ c }
{}

/// A page reads as a head page or an overflow page exactly where it is a bucket page that says the
/// same.
pub fn reads_as_bucket()
    ensures head { (n next : ℕ) (records : List Record) (bytes : List ℕ)
        → IsBucket (bucket n 3 next records)
        → (body_of n bytes ≡ HeadPage next records)
        ↔ (IsBucketPage bytes × (bucket_of bytes ≡ bucket n 3 next records)) }
    ensures overflow { (n next : ℕ) (records : List Record) (bytes : List ℕ)
        → IsBucket (bucket n 4 next records)
        → (body_of n bytes ≡ OverflowPage next records)
        ↔ (IsBucketPage bytes × (bucket_of bytes ≡ bucket n 4 next records)) }
{}
