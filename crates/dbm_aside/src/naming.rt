// The names of a table's file and of the one beside it, and what stands under them.
ghost use Rattle.std.specs.Prelude.{◌≡◌, ◌++◌, IfOk, codes};
ghost use Rattle.std.specs.String.{string_bytes};

use std::alloc::{AllocError, Global};
use std::fs::{File, Metadata};
use std::io::{self, ErrorKind};
use std::os::fd::AsRawFd;
use std::os::unix::fs::MetadataExt;
use std::path::Path;
use std::rt::Files;

/// The file of a table, and the one that is built beside it.
#[derive(Drop)]
pub struct Names {
    pub file: String,
    pub aside: String,
}

/// The paths of the table of this name: `NAME.db`, and `NAME.db.new` in the same folder. No table's
/// own file has a name of the second kind, since each ends with `.db`.
pub fn names_of(alloc: Global, name: &str) -> Result<Names, AllocError>
    ensures file { IfOk result (λ names. string_bytes names.file ≡ name.now ++ codes ".db") }
    ensures aside { IfOk result (λ names. string_bytes names.aside ≡ name.now ++ codes ".db.new") }
{
    let mut file = String::from_str(alloc, name)?;
    file.push_str(".db")?;
    let mut aside = String::from_str(alloc, name)?;
    aside.push_str(".db.new")?;
    Ok(Names { file, aside })
}

/// What stands under a path, a symbolic link itself, if anything does.
pub fn found_at<T: Files<File = File>>(rt: &T, path: &str) -> io::Result<Option<Metadata>> {
    match rt.symlink_metadata(path) {
        Ok(found) => Ok(Some(found)),
        Err(error) if error.kind() == ErrorKind::NotFound => Ok(None),
        Err(error) => Err(error),
    }
}

/// Whether an open file is the one that stands under a path.
pub fn is_under<T: Files<File = File>>(rt: &T, file: &File, path: &str) -> io::Result<bool> {
    let open = file.metadata()?;
    Ok(match found_at(rt, path)? {
        Some(found) => found.dev() == open.dev() && found.ino() == open.ino(),
        None => false,
    })
}

/// Syncs the folder of a file, so that a stop leaves the names in it as they are.
pub fn sync_folder<T: Files<File = File>>(rt: &T, path: &str) -> io::Result<()> {
    let folder = match Path::new(path).parent() {
        Some(parent) if !parent.as_str().is_empty() => parent.as_str(),
        _ => ".",
    };
    File::open(rt, folder)?.sync_all()
}

/// Another handle of a file that has the number of a standard stream: what is meant for a stream
/// that was closed must not land in the file, nor be read from it.
pub fn above_standard(file: File) -> io::Result<File> {
    if file.as_raw_fd() > 2 {
        return Ok(file);
    }
    file.try_clone()
}
