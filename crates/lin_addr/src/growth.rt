//! How far the buckets have grown.
ghost use Rattle.std.specs.Prelude.{◌≡◌, ◌↔◌, ◌+◌, ◌%◌, ◌^◌, ◌<◌, ◌≤◌, ◌==◌, ◌&&◌, ℕ, IsTrue, IsSome, IfSome, IfNone, if◌then◌else◌};

use crate::rank;

/// So many buckets: `2^level + split`. Buckets below `split`, and those from `2^level` on, have the
/// hashes of one bit more; `split` is the bucket that is split next. There are at most 131,071
/// buckets.
#[derive(Clone, Copy, Debug, PartialEq, Eq)]
pub struct Shape {
    pub level: u32,
    pub split: u32,
    pub ghost low_level: { level ≤ 16 },
    pub ghost split_in: { split < 2 ^ level },
}

// 2 to the power `exponent`.
fn power(exponent: u32) -> u32
    requires { exponent ≤ 17 }
    ensures { result ≡ 2 ^ exponent }
{
    1 << exponent
}

impl Shape {
    ghost use Rattle.std.specs.Int.{bit_at};
    ghost use Rattle.dbm_model.specs.KeyOrder as order;
    ghost use Rattle.page_model.specs.Address as model;
    ghost use Rattle.page_model.specs.Address.{address};
    ghost use Rattle.lin_addr.specs.Intervals.{Precedes, IsFollowing, PrecedesNone};
    ghost use Rattle.lin_addr.specs.Shapes.{shape_of, CanBe, BelongsTo};

    /// One bucket.
    pub fn one_bucket() -> Shape
        ensures { shape_of result ≡ record { level = 0; split = 0 } }
    {
        Shape { level: 0, split: 0 }
    }

    /// The shape of these numbers, or `None` where `level` is above 16 or `split` isn't below
    /// `2^level`.
    pub fn new(level: u32, split: u32) -> Option<Shape>
        ensures found { IfSome result
            (λ shape. shape_of shape ≡ record { level = level; split = split }) }
        ensures only { IsSome result ↔ CanBe level split }
    {
        if level <= 16 && split < power(level) {
            Some(Shape { level, split })
        } else {
            None
        }
    }

    /// How many buckets there are.
    pub fn buckets(&self) -> u32
        ensures { result ≡ model.buckets (shape_of self.now) }
    {
        power(self.level) + self.split
    }

    /// The bucket of a hash.
    pub fn bucket(&self, hash: u32) -> u32
        ensures address { result ≡ address (shape_of self.now) hash }
        ensures below { result < model.buckets (shape_of self.now) }
    {
        let max_bucket = self.buckets() - 1;
        let low_mask = power(self.level) - 1;
        let high_mask = power(self.level + 1) - 1;
        let bucket = hash & high_mask;
        if bucket > max_bucket {
            hash & low_mask
        } else {
            bucket
        }
    }

    // How many low bits of a hash say whether it is one of the bucket's.
    fn width(&self, bucket: u32) -> u32
        requires { bucket < model.buckets (shape_of self.now) }
        ensures low { result ≤ 17 }
        ensures decides { (hash : ℕ) → (address (shape_of self.now) hash ≡ bucket)
            ↔ (hash % 2 ^ result ≡ bucket) }
    {
        if bucket < self.split || bucket >= power(self.level) {
            self.level + 1
        } else {
            self.level
        }
    }

    // The hash of the bucket that has the greatest rank: all bits that do not decide are set.
    fn highest(&self, bucket: u32) -> u32
        requires { bucket < model.buckets (shape_of self.now) }
        ensures there { address (shape_of self.now) result ≡ bucket }
        ensures greatest { (hash : ℕ) → hash < 2 ^ 32 → address (shape_of self.now) hash ≡ bucket
            → order.rank hash ≤ order.rank result }
    {
        bucket | (u32::MAX << self.width(bucket))
    }

    /// The bucket with the least rank above all ranks of this one's hashes, or `None` where this
    /// one has the greatest.
    pub fn following(&self, bucket: u32) -> Option<u32>
        requires { bucket < model.buckets (shape_of self.now) }
        ensures next { IfSome result (λ next. IsFollowing (shape_of self.now) bucket next) }
        ensures last { IfNone result (PrecedesNone (shape_of self.now) bucket) }
    {
        let next = rank(self.highest(bucket)).checked_add(1)?;
        Some(self.bucket(rank(next)))
    }

    /// One bucket more, which takes hashes of bucket `split` alone: those whose bit `level` is set.
    pub fn grown(&self) -> Shape
        requires { model.buckets (shape_of self.now) < 125000 }
        ensures grown { shape_of result ≡ model.grown (shape_of self.now) }
        ensures moves { (hash : ℕ) → address (shape_of result) hash
            ≡ (if address (shape_of self.now) hash == self.now.split && bit_at hash
            self.now.level == 1 then self.now.split + 2 ^ self.now.level
            else address (shape_of self.now) hash) }

        // The interval of the bucket that is split is cut in two: the new bucket has the upper
        // part.
        ensures cuts { Precedes (shape_of result) self.now.split
            (self.now.split + 2 ^ self.now.level) }
    {
        if self.split + 1 == power(self.level) {
            Shape {
                level: self.level + 1,
                split: 0,
            }
        } else {
            Shape {
                level: self.level,
                split: self.split + 1,
            }
        }
    }

    /// Whether a hash of bucket `split` belongs to the new bucket once that bucket is split.
    pub fn split_goes_up(&self, hash: u32) -> bool
        ensures bit { IsTrue result ↔ bit_at hash self.now.level ≡ 1 }
        ensures place { BelongsTo (shape_of self.now) hash result }
    {
        (hash >> self.level) & 1 == 1
    }
}
