//! Where the pass of a database stands.
ghost use Rattle.std.specs.Prelude.{◌≡◌, ◌≢◌, ◌⊎◌, ◌↔◌, ◌≤◌, true, IsTrue, length, if◌then◌else◌};
ghost use Rattle.std.specs.Option.{option_map};
ghost use Rattle.dbm_model.specs.States as model;
ghost use Rattle.bucket_chain.specs.Leasts.{pass_behind};
ghost use Rattle.dbm_file.specs.Passing.{model_pass};

use arrayvec::ArrayVec;

/// The most bytes that a key and its content may have together.
pub(crate) const MAX_PAIR: usize = 2026;

/// Where a pass stands.
#[derive(Drop)]
pub(crate) enum Pass {
    /// None was begun since the opening.
    NotBegun,
    /// Before all keys.
    Begun,
    /// Behind this key, which was the last one given.
    Behind(ArrayVec<u8, MAX_PAIR>),
}

impl Pass {
    /// Goes behind this key, whose bytes are kept where those of the last one were.
    pub fn go_behind(&mut self, key: &[u8])
        requires { length key.now ≤ 2026 }
        ensures { model_pass self.new ≡ model.Behind key.now }
    {
        if !matches!(self, Pass::Behind(_)) {
            *self = Pass::Behind(ArrayVec::new());
        }
        if let Pass::Behind(last) = self {
            last.clear();
            last.try_extend_from_slice(key).unwrap();
        }
    }

    /// Whether one was begun.
    pub fn is_begun(&self) -> bool
        ensures { IsTrue result ↔ (model_pass self.now ≢ model.NotBegun) }
    {
        !matches!(self, Pass::NotBegun)
    }

    /// The key behind which a call goes on: none where it `begins` a pass, or none was given yet.
    pub fn last(&self, begins: bool) -> Option<&[u8]>
        ensures { (begins ≡ true) ⊎ (model_pass self.now ≢ model.NotBegun)
            → pass_behind (option_map (λ key. key.now) result)
            ≡ (if begins then model.Begun else model_pass self.now) }
    {
        match self {
            Pass::Behind(last) if !begins => Some(last.as_slice()),
            _ => None,
        }
    }
}
