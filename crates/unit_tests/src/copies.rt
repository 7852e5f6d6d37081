//! Copies of files, and what is in the way of one.
use file_copies::{CopyFault, copy_file, is_free};
use std::alloc::AllocError;
use std::fs;
use std::os::unix::fs::{MetadataExt, PermissionsExt, symlink};
use std::test::Fail;

/// Makes a folder with one file, which is read in three pieces.
fn make_file(rt: &HostRuntime, folder: &str) -> Result<(), Fail> {
    let _ = fs::remove_dir_all(rt, folder);
    fs::create_dir(rt, folder)?;
    let mut bytes = vec![in rt.alloc(); 7u8; 40_000]?;
    bytes[39_999] = 8;
    let file = format!(in rt.alloc(); "{folder}/court.db")?;
    fs::write(rt, file.as_str(), bytes.as_slice())?;
    fs::set_permissions(rt, file.as_str(), fs::Permissions::from_mode(0o640))?;
    Ok(())
}

#[test]
fn a_copy_has_the_bytes_one_name_and_no_more_rights(rt: HostRuntime) -> Result<(), Fail> {
    make_file(&rt, "copies_made")?;
    let (file, copy) = ("copies_made/court.db", "copies_made/copy.db");
    assert_eq!(rt; is_free(&rt, file, copy), Ok(()));
    assert_eq!(rt; copy_file(&rt, file, copy), Ok(()));
    assert!(rt; fs::read(&rt, file)? == fs::read(&rt, copy)?);
    let made = fs::metadata(&rt, copy)?;
    assert_eq!(rt; (made.mode() & !0o640 & 0o777, made.nlink()), (0, 1));
    assert!(rt; !fs::exists(&rt, "copies_made/copy.db.part")?);
    Ok(fs::remove_dir_all(&rt, "copies_made")?)
}

/// What a link leads to, and its name.
const LINKS: [(&str, &str); 5] = [
    ("court.db", "link.db"),
    ("court.db", "link.part"),
    (".", "here"),
    ("nothing", "lost.db"),
    ("nothing", "lost.part"),
];

/// Makes a folder with a file and names that are in the way of its copies.
fn make_obstacles(rt: &HostRuntime) -> Result<(), Fail> {
    make_file(rt, "copies_refused")?;
    for name in ["part.part", "log-wal", "undo-journal"] {
        let file = format!(in rt.alloc(); "copies_refused/{name}")?;
        fs::write(rt, file.as_str(), b"other".as_slice())?;
    }
    fs::create_dir(rt, "copies_refused/within")?;
    fs::create_dir(rt, "copies_refused/folder.part")?;
    for (target, name) in LINKS {
        let link = format!(in rt.alloc(); "copies_refused/{name}")?;
        symlink(rt, target, link.as_str())?;
    }
    Ok(())
}

/// A file, a name for its copy, and why it is refused.
type Refusal = (&'static str, &'static str, CopyFault);

const REFUSED: [Refusal; 22] = [
    ("court.db", "court.db", CopyFault::IsSource),
    ("court.db", "within/../court.db", CopyFault::IsSource),
    ("link.db", "court.db", CopyFault::IsSource),
    ("part.part", "part", CopyFault::IsSource),
    ("part.part", "here/part", CopyFault::IsSource),
    ("link.part", "link", CopyFault::IsSource),
    ("log-wal", "log", CopyFault::IsSource),
    ("undo-journal", "undo", CopyFault::IsSource),
    ("court.db", "court.db-wal", CopyFault::IsLog),
    ("court.db", "court.db-shm", CopyFault::IsLog),
    ("court.db", "here/court.db-journal", CopyFault::IsLog),
    ("court.db", "link.db-wal", CopyFault::IsLog),
    ("court.db", "log", CopyFault::LogExists),
    ("court.db", "undo", CopyFault::LogExists),
    ("court.db", "part", CopyFault::PartExists),
    ("court.db", "folder", CopyFault::PartExists),
    ("court.db", "lost", CopyFault::PartExists),
    ("court.db", "part.part", CopyFault::Exists),
    ("court.db", "lost.db", CopyFault::Exists),
    ("court.db", "within", CopyFault::Exists),
    ("court.db", "none/new.db", CopyFault::NoFolder),
    ("court.db", "court.db/new.db", CopyFault::NoFolder),
];

/// Whether `is_free` and `copy_file` both refuse the copy for this reason.
fn is_refused(rt: &HostRuntime, (from, to, fault): Refusal) -> Result<bool, AllocError> {
    let from = format!(in rt.alloc(); "copies_refused/{from}")?;
    let to = format!(in rt.alloc(); "copies_refused/{to}")?;
    let free = is_free(rt, from.as_str(), to.as_str());
    let copied = copy_file(rt, from.as_str(), to.as_str());
    Ok(free == Err(fault) && copied == Err(fault))
}

#[test]
fn what_is_in_the_way_of_a_copy_is_left(rt: HostRuntime) -> Result<(), Fail> {
    make_obstacles(&rt)?;
    let names = fs::read_dir(&rt, "copies_refused")?.count();
    for refusal in REFUSED {
        assert!(rt; is_refused(&rt, refusal)?, "{} {}", refusal.0, refusal.1);
    }
    let missing = copy_file(&rt, "copies_refused/none.db", "copies_refused/new.db");
    assert_eq!(rt; missing, Err(CopyFault::ReadFailed));
    assert_eq!(rt; fs::read_dir(&rt, "copies_refused")?.count(), names);
    assert_eq!(rt; fs::metadata(&rt, "copies_refused/court.db")?.len(), 40_000);
    assert_eq!(rt; fs::metadata(&rt, "copies_refused/part.part")?.len(), 5);
    // The log of no file is no log.
    let log = copy_file(&rt, "copies_refused/court.db", "copies_refused/none.db-wal");
    assert_eq!(rt; log, Ok(()));
    Ok(fs::remove_dir_all(&rt, "copies_refused")?)
}

#[test]
fn the_second_name_of_a_copy_is_taken_away(rt: HostRuntime) -> Result<(), Fail> {
    make_file(&rt, "copies_killed")?;
    let file = "copies_killed/court.db";
    let (copy, part) = ("copies_killed/copy.db", "copies_killed/copy.db.part");
    assert_eq!(rt; copy_file(&rt, file, copy), Ok(()));
    // A kill before the last step leaves the copy two names.
    fs::hard_link(&rt, copy, part)?;
    assert_eq!(rt; is_free(&rt, copy, copy), Err(CopyFault::IsSource));
    assert_eq!(rt; is_free(&rt, part, copy), Err(CopyFault::IsSource));
    assert_eq!(rt; fs::metadata(&rt, copy)?.nlink(), 2);
    assert_eq!(rt; is_free(&rt, file, copy), Err(CopyFault::Exists));
    assert_eq!(rt; fs::metadata(&rt, copy)?.nlink(), 1);
    assert!(rt; !fs::exists(&rt, part)?);
    // Another file of that name is left.
    fs::write(&rt, part, b"half".as_slice())?;
    assert_eq!(rt; copy_file(&rt, file, copy), Err(CopyFault::Exists));
    assert_eq!(rt; fs::metadata(&rt, part)?.len(), 4);
    Ok(fs::remove_dir_all(&rt, "copies_killed")?)
}
