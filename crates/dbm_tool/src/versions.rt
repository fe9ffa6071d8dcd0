// Versions of the file format and of its commits, as the words ask for them.
ghost use Rattle.std.specs.Prelude.{◌≡◌};
ghost use Rattle.page_io.specs.Versions.{model_version};
ghost use Rattle.dbm_tool.specs.Files.{version_of, kind_of};
ghost use Rattle.dbm_tool.specs.Plans.{asked_version};

use dbm_command_line::Commits;
use dbm_file::{CommitKind, Version};

/// The version that the words ask for.
pub fn file_version(asked: dbm_command_line::Version) -> Version
    ensures model { model_version result ≡ asked_version asked }
    ensures file { result ≡ version_of asked }
{
    match asked {
        dbm_command_line::Version::V1 => Version::V1,
        dbm_command_line::Version::V2 => Version::V2,
    }
}

/// The kind of commits that the words ask for.
pub fn commit_kind(asked: Commits) -> CommitKind
    ensures { result ≡ kind_of asked }
{
    match asked {
        Commits::Images => CommitKind::Images,
        Commits::Log => CommitKind::Log,
    }
}
