//! Whether keys are in their bucket.

ghost use Rattle.std.specs.Prelude.{◌↔◌, IsTrue};
ghost use Rattle.lin_addr.specs.Shapes.{shape_of};
ghost use Rattle.page_io.specs.BucketPages.{IsBucketPage, page_records};
ghost use Rattle.file_check.specs.BucketChains.{AreInBucket};

use lin_addr::{Shape, hash};
use page_io::Page;
use slot_page::pair_at;

/// Whether each key of the page has this bucket.
pub fn are_in_bucket(page: &Page, shape: Shape, bucket: u32) -> bool
    requires { IsBucketPage page.now.bytes }
    ensures { IsTrue result ↔ AreInBucket (shape_of shape) bucket (page_records page.now.bytes) }
{
    for slot in 0..page.slots() as usize {
        let (key, _) = pair_at(page, slot);
        if shape.bucket(hash(key)) != bucket {
            return false;
        }
    }
    true
}
