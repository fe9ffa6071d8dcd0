// A copy of a page, and what is known of it.
ghost use Rattle.std.specs.Prelude.{IfSome};
ghost use Rattle.page_io.specs.BucketPages.{IsPageOf};
ghost use Rattle.page_io.specs.Versions.{model_version};
ghost use Rattle.std.proofs.Props.{props};
ghost use Rattle.page_io.proofs.BucketPages.{IsPageOf-prop};

use page_io::{Page, Version};

/// A copy of a page, with the version of which it is known to be a bucket page, if it is known of
/// one.
#[derive(Clone, Copy)]
pub struct PageCopy {
    pub page: Page,
    pub known: Option<Version>,
    pub ghost is_known: { IfSome known
        (λ version. IsPageOf (model_version version) page.bytes) } by { Prim.hlevel (IsPageOf-prop, props) },
}
