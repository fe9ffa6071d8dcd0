//! What a stop leaves.

/// Which of the unsynced writes happened: none, all, and each second one. There are at most 16 of
/// them.
pub const MARKS: [[bool; 16]; 4] = [
    [false; 16],
    [true; 16],
    [
        true, false, true, false, true, false, true, false, true, false, true, false, true, false,
        true, false,
    ],
    [
        false, true, false, true, false, true, false, true, false, true, false, true, false, true,
        false, true,
    ],
];
