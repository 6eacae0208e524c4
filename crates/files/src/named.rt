// The files that names lead to.
use std::fs::{File, OpenOptions};
use std::os::unix::fs::FileTypeExt;
use std::{fs, io, str};

// The system's number for bytes that are no text.
const NOT_TEXT: i32 = 84;

// A file's name as std takes it, which is UTF-8 alone: the system's reason for other bytes.
pub(crate) fn path_of(name: &[u8]) -> io::Result<&str> {
    str::from_utf8(name).map_err(|_| io::Error::from_raw_os_error(NOT_TEXT))
}

pub fn open_read(rt: &HostRuntime, name: &[u8]) -> io::Result<File> {
    File::open(rt, path_of(name)?)
}

pub(crate) fn is_pipe(rt: &HostRuntime, name: &[u8]) -> io::Result<bool> {
    let found = fs::metadata(rt, path_of(name)?)?;
    Ok(found.file_type().is_fifo())
}

// For writing and reading; a file that exists is left as it is.
pub(crate) fn open_update(rt: &HostRuntime, name: &[u8]) -> io::Result<File> {
    OpenOptions::new()
        .read(true)
        .write(true)
        .open(rt, path_of(name)?)
}

pub(crate) fn open_append(rt: &HostRuntime, name: &[u8]) -> io::Result<File> {
    OpenOptions::new().append(true).open(rt, path_of(name)?)
}

// A new file, and none where there is one.
pub(crate) fn create(rt: &HostRuntime, path: &str) -> io::Result<File> {
    OpenOptions::new()
        .write(true)
        .create_new(true)
        .open(rt, path)
}
