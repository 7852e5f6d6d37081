//! The file of a socket.

use std::fs::{Files, Permissions};
use std::io::ErrorKind;
use std::net::Net;
use std::os::fd::{AsFd, AsRawFd, OwnedFd};
use std::os::unix::fs::{FileTypeExt, MetadataExt, PermissionsExt};
use std::os::unix::net::{SocketAddr, UnixListener, UnixStream};
use std::{fs, io};

/// The rights of a file in which its owner alone may write.
const OWNER: u32 = 0o600;

/// As many connections may wait to be taken as the system allows.
const BACKLOG: i32 = -1;

/// Identifies a file: no two files of a machine share it.
#[derive(Clone, Copy)]
struct FileId {
    device: u64,
    number: u64,
}

/// The file of a socket, which is removed where this is dropped, unless another has its name by then.
pub struct SocketFile<'a> {
    rt: &'a HostRuntime,
    pub(crate) path: &'a str,
    id: FileId,
}

/// The file that has this name.
fn file_at(rt: &HostRuntime, path: &str) -> io::Result<FileId> {
    let found = fs::symlink_metadata(rt, path)?;
    Ok(FileId {
        device: found.dev(),
        number: found.ino(),
    })
}

/// Whether the file still has this name.
fn is_still_at(rt: &HostRuntime, path: &str, id: FileId) -> bool {
    match file_at(rt, path) {
        Ok(found) => found.device == id.device && found.number == id.number,
        Err(_) => false,
    }
}

impl Drop for SocketFile<'_> {
    fn drop(self) {
        let SocketFile { rt, path, id } = self;
        if is_still_at(rt, path, id) {
            let _ = fs::remove_file(rt, path);
        }
    }
}

/// Whether a socket has this name at which nobody listens, as a kill leaves one.
fn is_left(rt: &HostRuntime, path: &str) -> bool {
    let is_socket = match fs::symlink_metadata(rt, path) {
        Ok(found) => found.file_type().is_socket(),
        Err(_) => false,
    };
    is_socket
        && matches!(UnixStream::connect(rt, path), Err(error) if error.kind() == ErrorKind::ConnectionRefused)
}

/// Gives a socket a file of this path, which must be free, or left by a socket at which nobody listens.
fn make_file(rt: &HostRuntime, socket: &OwnedFd, path: &str) -> io::Result<()> {
    let address = SocketAddr::from_pathname(path)?;
    match rt.bind_unix(socket.as_fd(), &address) {
        Err(error) if error.kind() == ErrorKind::AddrInUse && is_left(rt, path) => {
            fs::remove_file(rt, path)?;
            rt.bind_unix(socket.as_fd(), &address)
        }
        made => made,
    }
}

/// Listens at the socket of a file, which is made. Its owner alone may connect, whatever the umask: nobody
/// can before the file has its rights, since nobody listens before.
pub(crate) fn listen_at<'a>(
    rt: &'a HostRuntime,
    path: &'a str,
) -> io::Result<(UnixListener, SocketFile<'a>)> {
    let socket = rt.unix_socket()?;
    make_file(rt, &socket, path)?;
    let id = file_at(rt, path)?;
    let file = SocketFile { rt, path, id };
    fs::set_permissions(rt, path, Permissions::from_mode(OWNER))?;
    if libc::net::listen(socket.as_raw_fd(), BACKLOG) < 0 {
        return Err(ErrorKind::Other.into());
    }
    Ok((UnixListener::from(socket), file))
}
