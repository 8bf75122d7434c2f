//! How a file is opened as a disk.
use std::fs::{File, Files, OpenOptions, TryLockError};
use std::io::{Error, ErrorKind, Result as IoResult};
use std::os::fd::AsRawFd;
use std::os::unix::fs::OpenOptionsExt;

/// Who may read and write a file that is made: its owner alone.
const OWNER: u32 = 0o600;

// Opens the file for reading and writing, if there is one.
fn open_there<R: Files<File = File>>(rt: &R, path: &str) -> IoResult<File> {
    let mut options = OpenOptions::new();
    options.read(true).write(true);
    options.open(rt, path)
}

// Makes an empty file, if there is none.
fn make<R: Files<File = File>>(rt: &R, path: &str) -> IoResult<File> {
    let mut options = OpenOptions::new();
    options.read(true).write(true).create_new(true).mode(OWNER);
    options.open(rt, path)
}

// Makes the names in the file's folder durable.
fn sync_folder<R: Files<File = File>>(rt: &R, path: &str) -> IoResult<()> {
    let folder = match path.rsplit_once('/') {
        Some(("", _)) => "/",
        Some((folder, _)) => folder,
        None => ".",
    };
    let mut options = OpenOptions::new();
    options.read(true);
    options.open(rt, folder)?.sync_all()
}

// Locks the whole file for as long as it is open, unless it is locked.
fn lock(file: &File) -> IoResult<()> {
    match file.try_lock() {
        Ok(()) => Ok(()),
        Err(TryLockError::Error(error)) => Err(error),
        Err(TryLockError::WouldBlock) => Err(Error::new(
            ErrorKind::WouldBlock,
            "the file is open in another process",
        )),
    }
}

/// Opens the file at the path for reading and writing, or makes an empty one, and locks it. What it holds is durable
/// then, and so is the name of an empty file.
///
/// # Errors
/// Where it isn't a regular file, is open as a disk already, or the system refuses.
pub fn open_or_make<R: Files<File = File>>(rt: &R, path: &str) -> IoResult<File> {
    let file = match make(rt, path) {
        Err(error) if error.kind() == ErrorKind::AlreadyExists => open_there(rt, path)?,
        made => made?,
    };
    // A program that was started without standard output would else print into the file.
    if file.as_raw_fd() < 3 {
        return Err(Error::other("standard input, output or error is closed"));
    }
    let metadata = file.metadata()?;
    if !metadata.is_file() {
        return Err(Error::new(ErrorKind::InvalidInput, "it isn't a regular file"));
    }
    lock(&file)?;
    file.sync_all()?;
    // Also where the file was there: whoever made it may have come to its end before its name was durable.
    if metadata.len() == 0 {
        sync_folder(rt, path)?;
    }
    Ok(file)
}
