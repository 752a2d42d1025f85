//! The file of a server, read into memory while no server has it open.

use crate::fault::InspectFault;
use os::RangeLock;
use pres_faults::SavedFault;
use std::fs::File;
use std::io::{ErrorKind, Read};
use std::os::fd::AsRawFd;
use std::{fs, io};

// Where SQLite locks a database file: its pending, reserved and shared bytes.
const LOCK_START: u64 = 1 << 30;

const LOCK_LENGTH: u64 = 512;

/// What a database file and its write-ahead log held.
#[derive(Drop)]
pub struct Copied {
    pub database: Vec<u8>,
    pub log: Vec<u8>,
}

/// The bytes of the file at the path, and of its log. Missing if there is no such file, which is
/// not made; InUse if a server has it open. While they are read, no server opens it.
pub fn copied_from(host: &HostRuntime, path: &str) -> Result<Copied, InspectFault> {
    if !fs::metadata(host, path)?.is_file() {
        return Err(InspectFault::Store(SavedFault::Database));
    }
    let mut file = fs::open(host, path)?;
    lock(&file)?;
    let copied = copied_beside(host, path, &mut file);
    drop(file);
    copied
}

/// Whether there is a file at the path that a server has open.
pub fn is_in_use(host: &HostRuntime, path: &str) -> bool {
    let Ok(file) = fs::open(host, path) else {
        return false;
    };
    let locked = lock(&file);
    drop(file);
    match locked {
        Ok(()) => false,
        Err(error) => error.kind() == ErrorKind::WouldBlock,
    }
}

// Locks the file as a reader of SQLite does, until it is closed.
fn lock(file: &File) -> io::Result<()> {
    if os::try_lock_range(file.as_raw_fd(), RangeLock::Shared, LOCK_START, LOCK_LENGTH) == 0 {
        Ok(())
    } else {
        Err(io::Error::from_raw_os_error(os::errno()))
    }
}

// The bytes of the file that was opened, and of the log beside it. A rollback journal is SQLite's
// alone to play back.
fn copied_beside(host: &HostRuntime, path: &str, file: &mut File) -> Result<Copied, InspectFault> {
    let real = fs::canonicalize(host, path)?;
    let journal = format!(in host.alloc(); "{}-journal", real.as_str())?;
    if bytes_at(host, journal.as_str())?
        .first()
        .is_some_and(|&b| b != 0)
    {
        return Err(InspectFault::Store(SavedFault::Database));
    }
    let log = format!(in host.alloc(); "{}-wal", real.as_str())?;
    let mut database = Vec::new(host.alloc());
    file.read_to_end(&mut database)?;
    Ok(Copied {
        database,
        log: bytes_at(host, log.as_str())?,
    })
}

// The bytes of the file, none if there is no such file.
fn bytes_at(host: &HostRuntime, path: &str) -> io::Result<Vec<u8>> {
    match fs::read(host, path) {
        Err(error) if error.kind() == ErrorKind::NotFound => Ok(Vec::new(host.alloc())),
        read => read,
    }
}
