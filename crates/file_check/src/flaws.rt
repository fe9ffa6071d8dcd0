//! What is told of a look at a file.

ghost use Rattle.std.specs.Prelude.{Option, Some};
ghost use Rattle.file_check.specs.declared.flaws.Flaw.{Flaw};

/// A rule of the format that a page of a file breaks.
#[derive(Clone, Copy, Debug, PartialEq, Eq)]
pub enum Rule {
    /// Page 1 is no meta page as the format has it.
    Meta,
    /// The file has more pages than its limit and its version ask for. The page is the first one
    /// that is too many.
    Limit,
    /// The page is none of the file's: it is page 0, or at the file's end or behind it.
    Outside,
    /// The page stands in two places. A page of a chain or of a list in a circle does too.
    Twice,
    /// It is no segment page, or names heads of buckets that don't exist.
    Segment,
    /// It is no head page of a bucket: it has another number or kind.
    Head,
    /// It is no overflow page: it has another number or kind.
    Overflow,
    /// It is an overflow page that has no pair.
    Empty,
    /// Its header or its slots break the format of the file's version.
    Slots,
    /// A pair stands there that is in another bucket than its key's.
    Bucket,
    /// A key stands there that stands on an earlier page of its bucket too.
    Key,
    /// It is no content page, or has other bytes than zeros behind its content.
    Content,
    /// The last page of a content that is too short: it names no next page.
    ContentShort,
    /// The last page of a content names a next page.
    ContentLong,
    /// It is no free page.
    Free,
    /// The free list is longer or shorter than the meta page counts.
    FreeCount,
    /// There are more or fewer pairs than the meta page counts.
    PairCount,
    /// No other page leads to it.
    Unused,
}

/// A page of a file, and the rule that was found to be broken there. Of a count that is wrong it is
/// the meta page, which has the count.
#[derive(Clone, Copy, Debug, PartialEq, Eq)]
pub struct Flaw {
    pub page: u32,
    pub rule: Rule,
}

/// Is told how far a look at a file is, and what is wrong there. Nothing else is known of what it
/// does with that, so the answer is the same whatever it is told to.
pub trait Watch {
    /// This flaw may be the one that it was told last, or none. Of what keeps no flaw it may be any.
    ghost has_told: { Self → Option Flaw → Type 0 };

    /// One more bucket was looked at.
    fn bucket(&mut self)
        ensures { (told : Option Flaw) → has_told self.old told → has_told self.new told };

    /// The file has this flaw, and the look ends.
    fn flaw(&mut self, flaw: Flaw)
        ensures { has_told self.new (Some flaw) };
}

/// Does nothing with it.
#[derive(Clone, Copy, Debug, PartialEq, Eq)]
pub struct Unwatched;

impl Watch for Unwatched {
    ghost has_told = { λ watch told. Unit {0} };

    fn bucket(&mut self) {}

    fn flaw(&mut self, _flaw: Flaw) {}
}
