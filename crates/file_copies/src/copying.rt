//! The copy of a file.

use crate::fault::CopyFault;
use crate::names::{file_of_log, folder_of, name_beside};
use crate::pouring::pour;
use std::fs::{Metadata, OpenOptions};
use std::io::ErrorKind;
use std::os::fd::AsRawFd;
use std::os::unix::fs::{MetadataExt, OpenOptionsExt};
use std::{fs, io};

/// The rights of a file that its owner alone may read and write.
const OWNER: u32 = 0o600;

/// Returns the name of a file that belongs to the copy.
fn beside(rt: &HostRuntime, to: &str, ending: &str) -> Result<String, CopyFault> {
    match name_beside(rt.alloc(), to, ending) {
        Ok(name) => Ok(name),
        Err(_) => Err(CopyFault::NoMemory),
    }
}

/// Returns what has this name, also where it is a link that leads nowhere.
fn found_at(rt: &HostRuntime, path: &str) -> Result<Option<Metadata>, CopyFault> {
    match fs::symlink_metadata(rt, path) {
        Ok(found) => Ok(Some(found)),
        Err(error) if error.kind() == ErrorKind::NotFound => Ok(None),
        Err(error) => Err(CopyFault::of_writing(&error)),
    }
}

fn is_same_file(one: &Metadata, other: &Metadata) -> bool {
    one.dev() == other.dev() && one.ino() == other.ino()
}

/// Whether something is the file to copy, or the link by which `from` names it. Where nothing has the name
/// `from`, the answer is no.
fn is_source(rt: &HostRuntime, from: &str, found: &Metadata) -> bool {
    let is_link = match fs::symlink_metadata(rt, from) {
        Ok(named) => is_same_file(&named, found),
        Err(_) => false,
    };
    match fs::metadata(rt, from) {
        Ok(source) => is_link || is_same_file(&source, found),
        Err(_) => is_link,
    }
}

/// Removes the first name of a copy if it still is the copy's. Anything else that has this name stays.
fn take_part(rt: &HostRuntime, copy: &Metadata, part: &str) -> Result<(), CopyFault> {
    match found_at(rt, part)? {
        Some(found) if found.is_file() && is_same_file(copy, &found) => {
            match fs::remove_file(rt, part) {
                Ok(()) => Ok(()),
                Err(_) => Err(CopyFault::LeftPart),
            }
        }
        _ => Ok(()),
    }
}

/// Fails if SQLite would read the copy, by its name, as the log or the journal of a file that is there.
fn test_owner(rt: &HostRuntime, to: &str) -> Result<(), CopyFault> {
    let Some(file) = file_of_log(to) else {
        return Ok(());
    };
    match found_at(rt, file)? {
        Some(found) if !found.is_dir() => Err(CopyFault::IsLog),
        _ => Ok(()),
    }
}

/// Fails where something has the name of the copy. SQLite's files have one name: where a kill left a finished
/// copy with its first name too, this removes the first name.
fn test_name(rt: &HostRuntime, from: &str, to: &str) -> Result<(), CopyFault> {
    let Some(found) = found_at(rt, to)? else {
        return Ok(());
    };
    if is_source(rt, from, &found) {
        return Err(CopyFault::IsSource);
    }
    take_part(rt, &found, beside(rt, to, ".part")?.as_str())?;
    Err(CopyFault::Exists)
}

/// Fails where something has a name that belongs to the copy, with an ending.
fn test_beside(rt: &HostRuntime, from: &str, to: &str) -> Result<(), CopyFault> {
    for (ending, fault) in [
        (".part", CopyFault::PartExists),
        ("-wal", CopyFault::LogExists),
        ("-journal", CopyFault::LogExists),
    ] {
        if let Some(found) = found_at(rt, beside(rt, to, ending)?.as_str())? {
            if is_source(rt, from, &found) {
                return Err(CopyFault::IsSource);
            }
            return Err(fault);
        }
    }
    Ok(())
}

/// Fails where something prevents a copy of a file at a path: something of that name or of the name of the
/// unfinished copy, perhaps the file itself, or a log or a journal of the copy. It also fails where the copy
/// would be the log or the journal of a file, or its folder is missing. Where a kill left a finished copy
/// with its first name too, this removes the first name.
pub fn is_free(rt: &HostRuntime, from: &str, to: &str) -> Result<(), CopyFault> {
    test_owner(rt, to)?;
    test_name(rt, from, to)?;
    test_beside(rt, from, to)?;
    match fs::metadata(rt, folder_of(to)) {
        Ok(folder) if folder.is_dir() => Ok(()),
        Ok(_) => Err(CopyFault::NoFolder),
        Err(error) => Err(CopyFault::of_writing(&error)),
    }
}

/// Makes the file that is to be the copy, under its first name, which must still be free. It gives nobody a
/// right that is not among these, whatever the umask.
fn make_part(rt: &HostRuntime, part: &str, rights: u32) -> Result<fs::File, CopyFault> {
    let made = OpenOptions::new()
        .write(true)
        .create_new(true)
        .mode(rights)
        .open(rt, part);
    match made {
        Ok(file) => Ok(file),
        Err(error) if error.kind() == ErrorKind::AlreadyExists => Err(CopyFault::PartExists),
        Err(error) => Err(CopyFault::of_writing(&error)),
    }
}

/// Writes the bytes of the file into the one that was made, and syncs it to the disk.
fn write_part(source: &mut fs::File, target: &mut fs::File) -> Result<(), CopyFault> {
    pour(source, target)?;
    match target.sync_all() {
        Ok(()) => Ok(()),
        Err(error) => Err(CopyFault::of_writing(&error)),
    }
}

/// Whether the name is still that of the file which was written.
fn is_named(rt: &HostRuntime, written: &Metadata, part: &str) -> Result<bool, CopyFault> {
    match found_at(rt, part)? {
        Some(found) => Ok(is_same_file(written, &found)),
        None => Ok(false),
    }
}

/// Gives the finished copy its name, which must still be free, removes the first one, and syncs both to the
/// disk.
fn give_name(rt: &HostRuntime, written: &Metadata, part: &str, to: &str) -> Result<(), CopyFault> {
    if !is_named(rt, written, part)? {
        return Err(CopyFault::Disturbed);
    }
    match fs::hard_link(rt, part, to) {
        Ok(()) => {}
        Err(error) => return Err(CopyFault::of_naming(&error)),
    }
    let Ok(()) = take_part(rt, written, part) else {
        return Err(CopyFault::LeftPart);
    };
    match sync_folder(rt, folder_of(to)) {
        Ok(()) => Ok(()),
        Err(_) => Err(CopyFault::NotSynced),
    }
}

fn sync_folder(rt: &HostRuntime, folder: &str) -> io::Result<()> {
    fs::open(rt, folder)?.sync_all()
}

/// Fills the file that was made, and gives it the name of the copy.
fn fill_and_name(
    rt: &HostRuntime,
    source: &mut fs::File,
    target: &mut fs::File,
    written: &Metadata,
    part: &str,
    to: &str,
) -> Result<(), CopyFault> {
    // What is meant for a standard stream that was closed must not land in the copy.
    if target.as_raw_fd() <= 2 {
        match target.try_clone() {
            Ok(other) => *target = other,
            Err(error) => return Err(CopyFault::of_writing(&error)),
        }
    }
    write_part(source, target)?;
    give_name(rt, written, part, to)
}

/// Makes a copy under its first name and then gives it its own. Where that fails, removes the first name if
/// it still is the copy's. One that could not be removed is reported and not tried again. Holds the file open
/// until then, so that no other one has its inode.
fn copy_by_part(rt: &HostRuntime, from: &str, part: &str, to: &str) -> Result<(), CopyFault> {
    let Ok(mut source) = fs::open(rt, from) else {
        return Err(CopyFault::ReadFailed);
    };
    let Ok(found) = source.metadata() else {
        return Err(CopyFault::ReadFailed);
    };
    let mut target = make_part(rt, part, found.mode() & OWNER)?;
    let Ok(written) = target.metadata() else {
        return Err(CopyFault::WriteFailed);
    };
    let copied = fill_and_name(rt, &mut source, &mut target, &written, part, to);
    match copied {
        Ok(()) | Err(CopyFault::LeftPart) => copied,
        Err(_) => {
            let _ = take_part(rt, &written, part);
            copied
        }
    }
}

/// Copies a file to a path at which there is none, and no log or journal of one. The bytes go into a new
/// file, whose name is that of the copy with `.part` behind it. Where something has that name, it stays, and
/// nothing is copied. Once the disk has the bytes, the file gets the name of the copy, which fails where that
/// was taken meanwhile. So a kill or a power failure at any moment leaves the copy whole under its name, or
/// nothing there. Only its owner has rights to the copy, and none that the file does not give.
pub fn copy_file(rt: &HostRuntime, from: &str, to: &str) -> Result<(), CopyFault> {
    is_free(rt, from, to)?;
    let part = beside(rt, to, ".part")?;
    copy_by_part(rt, from, part.as_str(), to)
}
