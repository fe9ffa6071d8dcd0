// What a group borrows.
ghost use Rattle.std.specs.Prelude.{ℕ, Option, None};

use std::marker::Brand;

/// The loan of a store to a group. No code holds its members: a caller passes `Brand`, and picks
/// them in its proof.
pub trait Loan<S> {
    /// Which reference was lent, by its ghost name.
    ghost name: { ℕ };

    /// The store as it was when it was lent.
    ghost began: { Option S };
}

impl<S> Loan<S> for Brand {
    ghost name = { 0 };

    ghost began = { None };
}
