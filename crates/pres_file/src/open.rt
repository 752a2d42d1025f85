//! The files of a server, opened: an empty database is made where there is none yet.

ghost use Rattle.std.specs.Prelude.{◌≡◌, ◌≤◌, false, IsTrue, IfOk};
ghost use Rattle.sqlite.specs.Held.{state};
ghost use Rattle.sqlite.specs.State.{HasCleanDisk, IsLive, Opens};
ghost use Rattle.sqlite.specs.Steps.{IsFresh};
ghost use Rattle.sqlite.specs.Files.{file_state, image_of, HoldsDatabase, IsEmpty, IsOpened};
ghost use Rattle.sqlite_trees.specs.Tree.{Trees};
ghost use Rattle.sqlite_trees.specs.View.{doubt, IsClean};
ghost use Rattle.sqlite_wal.specs.Files.{image_at};
ghost use Rattle.sqlite_wal.specs.Reads.{AreClean};
ghost use Rattle.pres_file.specs.FileOpening.{Finds};

use pres_faults::SavedFault;
use sqlite::{Alter, Connection, FileFrom, FileStore, Files, Options, Start};
use sqlite_disk::Disk;
use sqlite_pager::Pager;
use sqlite_pool::probe_blank;
use sqlite_std_file::OpenError;
use sqlite_store::Unopened;
use sqlite_wal::{Error, PageSize};
use std::alloc::Global;
use std::hash::{BuildHasher, RandomState};
use std::io::ErrorKind;

// How many bytes a page of a new file has. A commit writes each page that it changes as a whole, and
// one more, which counts it; most batches have a few hundred bytes, so small pages make it cheaper.
const PAGE_SIZE: usize = 1024;

// How many pages the write-ahead log has before they are copied into the database. A copy syncs
// four times, whatever it copies, so it should be rare: a log of small pages has as many bytes as
// SQLite's own default, of 1,000 pages of 4,096.
const LOG_PAGES: usize = 4_000;

/// The database in the file at the path, which is made, with small pages, if there is none yet. A
/// crash leaves none, or the empty one. Files with pages of another size keep them.
///
/// `S` stands for what the files held. No code can read it, so what is said holds whatever they held.
pub fn connect<S: Start>(
    host: &HostRuntime,
    path: &str,
    start: S,
) -> Result<Connection<FileStore<FileFrom<S>>>, SavedFault>
    ensures mode { IfOk result (λ c. c.in_transaction ≡ false) }
    ensures finds { IfOk result (λ c. HasCleanDisk (file_state c)
        → Finds (image_at S.Start) (file_state c)) }
{
    if path == ":memory:" || path.starts_with("file:") {
        return Err(SavedFault::Database);
    }
    let Ok(state) = RandomState::new(host) else {
        return Err(SavedFault::Database);
    };
    let options = Options {
        checkpoint_frames: LOG_PAGES,
        ..Options::new(state.hash_one(&0u8))
    };
    match sqlite_std_file::open(host, path, start) {
        Ok(files) => connect_in(host.alloc(), files, options),
        Err(OpenError::OutOfMemory) => Err(SavedFault::Memory),
        Err(OpenError::Io(error)) if error.kind() == ErrorKind::OutOfMemory => {
            Err(SavedFault::Memory)
        }
        Err(_) => Err(SavedFault::Database),
    }
}

// The same in the files.
fn connect_in<D: Disk + Drop>(
    alloc: Global,
    mut files: Files<D>,
    options: Options,
) -> Result<Connection<FileStore<D>>, SavedFault>
    requires log { IsTrue (D.Disk.is_usable files.log) }
    requires db { IsTrue (D.Disk.is_usable files.db) }
    ensures mode { IfOk result (λ c. c.in_transaction ≡ false) }
    ensures finds { IfOk result (λ c. HasCleanDisk (file_state c)
        → Finds (image_of D.Disk files) (file_state c)) }
{
    let Some(size) = PageSize::new(PAGE_SIZE) else {
        return Err(SavedFault::Database);
    };
    match probe_blank(alloc, &mut files, size, false) {
        Ok(true) => make(alloc, files, size, options),
        Ok(false) => find(alloc, files, options),
        Err(Error::OutOfMemory) => Err(SavedFault::Memory),
        Err(_) => Err(SavedFault::Database),
    }
}

// The database that the files have.
fn find<D: Disk + Drop>(
    alloc: Global,
    files: Files<D>,
    options: Options,
) -> Result<Connection<FileStore<D>>, SavedFault>
    requires log { IsTrue (D.Disk.is_usable files.log) }
    requires db { IsTrue (D.Disk.is_usable files.db) }
    ensures mode { IfOk result (λ c. c.in_transaction ≡ false) }
    ensures clean { IfOk result (λ c. HasCleanDisk (file_state c)
        → AreClean D.Disk files.log files.db) }
    ensures opened { IfOk result (λ c. HasCleanDisk (file_state c) → IsOpened c) }
    ensures holds { IfOk result (λ c. HasCleanDisk (file_state c) → (db : Trees)
        → HoldsDatabase (image_of D.Disk files) db → (file_state c).committed.trees ≡ db) }
{
    match Connection::open_files(alloc, files, options) {
        Ok(connection) => Ok(connection),
        Err((error, left)) => {
            drop(left);
            Err(SavedFault::from(error))
        }
    }
}

// An empty database with pages of this size.
fn make<D: Disk + Drop>(
    alloc: Global,
    files: Files<D>,
    size: PageSize,
    options: Options,
) -> Result<Connection<FileStore<D>>, SavedFault>
    requires log { IsTrue (D.Disk.is_usable files.log) }
    requires db { IsTrue (D.Disk.is_usable files.db) }
    ensures mode { IfOk result (λ c. c.in_transaction ≡ false) }
    ensures clean { IfOk result (λ c. HasCleanDisk (file_state c)
        → AreClean D.Disk files.log files.db) }
    ensures opened { IfOk result (λ c. HasCleanDisk (file_state c) → IsOpened c) }
    ensures empty { IfOk result (λ c. HasCleanDisk (file_state c)
        → IsEmpty (file_state c).committed.trees) }
{
    let pager = Pager::new(alloc, files, size, options)?;
    let unopened = Unopened::new(alloc, pager, &[])?;
    match unopened.create() {
        Ok(store) => connection_over(alloc, store),
        Err((error, left)) => {
            drop(left);
            Err(creation_fault(error))
        }
    }
}

// Why an empty database is not made.
fn creation_fault(error: sqlite_store::OpenError) -> SavedFault {
    match error {
        sqlite_store::OpenError::OutOfMemory => SavedFault::Memory,
        _ => SavedFault::Database,
    }
}

// A connection over the store, which is dropped where it is refused.
fn connection_over<S: Alter + Drop>(alloc: Global, store: S) -> Result<Connection<S>, SavedFault>
    requires fresh { IsClean (S.Store.view store) → IsFresh (S.Store.view store) }
    ensures mode { IfOk result (λ c. c.in_transaction ≡ false) }
    ensures clean { IfOk result (λ c. doubt (S.Store.view store).is_clean
        ≤ doubt (state S.Store c).is_clean) }
    ensures opens { IfOk result (λ c. HasCleanDisk (state S.Store c)
        → Opens (state S.Store c) × IsLive (state S.Store c)) }
    ensures trees { IfOk result (λ c. HasCleanDisk (state S.Store c)
        → (state S.Store c).now.trees ≡ (S.Store.view store).trees) }
{
    match Connection::over(alloc, store) {
        Ok(connection) => Ok(connection),
        Err((error, left)) => {
            drop(left);
            Err(SavedFault::from(error))
        }
    }
}
