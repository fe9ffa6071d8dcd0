//! The version of a file's format.

ghost use Rattle.std.specs.Prelude.{◌≡◌, ◌≢◌, IfSome, IfNone};
ghost use Rattle.dbm_model.specs.Bounds.{version_number};
ghost use Rattle.page_io.specs.Versions.{model_version};

/// Version 1 has contents of up to 2,026 bytes, together with their keys. Version 2 also has longer
/// ones, which lie in pages of their own.
#[derive(Clone, Copy, Debug, PartialEq, Eq)]
pub enum Version {
    V1,
    V2,
}

impl Version {
    /// The number by which a meta page tells it.
    pub fn number(self) -> u32
        ensures { result ≡ version_number (model_version self) }
    {
        match self {
            Version::V1 => 1,
            Version::V2 => 2,
        }
    }

    /// The version that a number tells.
    pub fn of_number(number: u32) -> Option<Version>
        ensures told { IfSome result (λ v. version_number (model_version v) ≡ number) }
        ensures none { IfNone result ((number ≢ 1) × (number ≢ 2)) }
    {
        match number {
            1 => Some(Version::V1),
            2 => Some(Version::V2),
            _ => None,
        }
    }
}
