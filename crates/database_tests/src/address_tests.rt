//! Buckets of hashes, also where there are more than a database of a test has.

use lin_addr::Shape;
use std::test::Fail;

/// The bucket of a hash, where there are so many buckets.
fn bucket(level: u32, split: u32, hash: u32) -> Option<u32> {
    Some(Shape::new(level, split)?.bucket(hash))
}

#[test]
fn buckets_are_those_worked_out_by_hand(rt: HostRuntime) -> Result<(), Fail> {
    for (level, split, hash, wanted) in [
        (0, 0, 0xe40c292c, 0),
        (2, 1, 0xe40c292c, 4),
        (16, 59_464, 124_999, 124_999),
        (16, 59_464, 125_000, 59_464),
        (3, 2, 13, 5),
        (3, 2, 9, 9),
        (3, 2, 17, 1),
        (3, 0, 15, 7),
    ] {
        assert_eq!(rt;
            bucket(level, split, hash),
            Some(wanted),
            "{level} {split} {hash}"
        );
    }
    Ok(())
}
