//! What copied files hold: the server of their history, its checkpoint, and the batches after that.

ghost use Rattle.std.specs.Prelude.{◌≡◌, ◌<◌, ◌⊎◌, IfErr, IfNone, IfOk, IfSome, IsTrue, OnOk};
ghost use Rattle.sqlite.specs.Files.{image_of as image_in, over_files};
ghost use Rattle.sqlite.specs.Held.{Held, state};
ghost use Rattle.sqlite.specs.State.{HasCleanDisk};
ghost use Rattle.sqlite_pool.specs.Opening.{IsBlankFile};
ghost use Rattle.sqlite_disk.specs.Memory.{memory_bytes, memory_is_usable};
ghost use Rattle.pres_file.specs.FileOpening.{new_page_size};
ghost use Rattle.pres_keeper.specs.Keepers.{Readable, base_sum, whole, IsFirstBad, IsNoLogAfter, IsNoServer, IsUnread};
ghost use Rattle.pres_saved.specs.SqlKeepers.{Serves, readable_in};
ghost use Rattle.pres_server.specs.SumTurns.{FollowAll};
ghost use Rattle.pres_server.specs.Histories.{History, IsSum, LeadsTo};
ghost use Rattle.pres_batch_rows.specs.TableStates.{IsLeft};
ghost use Rattle.pres_inspect.specs.Copies.{image_of, end_of, history_of, HoldsHistory, IsFlaw, IsFoundKeeper, IsFoundOf, IsRefusal, ShowsWhileOpen};

use crate::checkpoint::Checkpoint;
use crate::copied::Copied;
use crate::fault::InspectFault;
use pres_base::Base;
use pres_faults::SavedFault;
use pres_file::{OpenedFile, keeper_for};
use pres_ids::Count;
use pres_saved::SqlKeeper;
use pres_server::{Batch, Replay, ReplayFault, Server};
use sqlite::{Alter, Connection, FileStore, Files, Options};
use sqlite_disk::{Disk, Memory};
use sqlite_pool::probe_blank;
use sqlite_wal::{Error as LogError, PageSize};
use std::alloc::{AllocError, Global};

// How many bytes a page of a server's new file has.
const NEW_PAGE_SIZE: usize = 1024;

/// The server of a history, and the checkpoint at which the history begins, none where no entry comes
/// before it.
#[derive(Drop)]
pub struct FoundServer {
    pub checkpoint: Option<Checkpoint>,
    pub server: Server,
}

/// A history: the base of its checkpoint, none without one, and the batches since.
#[derive(Drop)]
pub struct FoundHistory {
    pub base: Option<Base>,
    pub batches: Vec<Batch>,
}

/// The server of the history that the copied files hold, which is the one that a start makes, and the
/// checkpoint at which the history begins. If they hold none: BadCheckpoint, if what they have of a
/// checkpoint is none; or with the number of the first bad row: Unreadable, if it is no batch;
/// NotLegal, if its batch may not follow those before it. It reads one row at a time.
pub fn found_server(alloc: Global, copied: Copied) -> Result<FoundServer, InspectFault>
    ensures held { IfOk result (IsFoundOf (HoldsHistory (image_of copied))) }
    ensures refused { IfErr result (IsRefusal (image_of copied)) }
{
    match keeper_of(alloc, copied)? {
        Some(keeper) => server_of(alloc, keeper),
        None => Ok(FoundServer {
            checkpoint: None,
            server: Server::new(alloc),
        }),
    }
}

/// The history that the copied files hold, refused in the same way.
pub fn found_history(alloc: Global, copied: Copied) -> Result<FoundHistory, InspectFault>
    ensures held { IfOk result (λ found. HoldsHistory (image_of copied) (history_of found)) }
    ensures leads { IfOk result (λ found. LeadsTo (history_of found) (end_of (history_of found))) }
    ensures refused { IfErr result (IsRefusal (image_of copied)) }
{
    match keeper_of(alloc, copied)? {
        Some(keeper) => history_in(alloc, keeper),
        None => Ok(FoundHistory {
            base: None,
            batches: Vec::new(alloc),
        }),
    }
}

// The keeper over copied files, none if they hold no database yet.
fn keeper_of(
    alloc: Global,
    copied: Copied,
) -> Result<Option<SqlKeeper<FileStore<Memory>>>, InspectFault>
    ensures none { IfOk result
        (λ found. IfNone found (IsBlankFile new_page_size (image_of copied))) }
    ensures found { IfOk result
        (λ found. IfSome found (IsFoundKeeper over_files (image_of copied))) }
    ensures refused { IfErr result (IsRefusal (image_of copied)) }
{
    let log = file_of(alloc, &copied.log)?;
    let db = file_of(alloc, &copied.database)?;
    drop(copied);
    keeper_in(alloc, Files { log, db })
}

// A file in memory that holds the bytes.
fn file_of(alloc: Global, bytes: &[u8]) -> Result<Memory, AllocError>
    ensures bytes { IfOk result (λ file. memory_bytes file ≡ bytes.now) }
    ensures usable { IfOk result (λ file. IsTrue (memory_is_usable file)) }
{
    let mut file = Memory::new(alloc);
    match file.write_at(0, bytes) {
        Ok(()) => Ok(file),
        Err(_) => {
            drop(file);
            Err(AllocError)
        }
    }
}

// The keeper over files that never give a wrong answer, none if they hold no database yet.
fn keeper_in<D: Disk + Drop>(
    alloc: Global,
    mut files: Files<D>,
) -> Result<Option<SqlKeeper<FileStore<D>>>, InspectFault>
    requires honest { (file : D) → IsTrue (D.Disk.is_clean file) }
    requires log { IsTrue (D.Disk.is_usable files.log) }
    requires db { IsTrue (D.Disk.is_usable files.db) }
    ensures none { IfOk result
        (λ found. IfNone found (IsBlankFile new_page_size (image_in D.Disk files))) }
    ensures found { IfOk result (λ found. IfSome found
        (IsFoundKeeper over_files (image_in D.Disk files))) }
    ensures refused { IfErr result (IsRefusal (image_in D.Disk files)) }
{
    if is_blank(alloc, &mut files)? {
        drop(files);
        return Ok(None);
    }
    match Connection::open_files(alloc, files, Options::new(0)) {
        Ok(connection) => {
            let OpenedFile { keeper, is_new: _ } = keeper_for(alloc, connection)?;
            Ok(Some(keeper))
        }
        Err((error, left)) => {
            drop(left);
            Err(InspectFault::from(SavedFault::from(error)))
        }
    }
}

// Whether the files hold no database yet, as a server's new file that was left half made.
fn is_blank<D: Disk>(alloc: Global, files: &mut Files<D>) -> Result<bool, InspectFault>
    requires honest { (file : D) → IsTrue (D.Disk.is_clean file) }
    requires log { IsTrue (D.Disk.is_usable files.old.log) }
    requires db { IsTrue (D.Disk.is_usable files.old.db) }
    ensures blank { IfOk result
        (λ b. IsTrue b → IsBlankFile new_page_size (image_in D.Disk files.old)) }
    ensures image { image_in D.Disk files.new ≡ image_in D.Disk files.old }
    ensures log { IsTrue (D.Disk.is_usable files.new.log) }
    ensures db { IsTrue (D.Disk.is_usable files.new.db) }
    ensures err { IfErr result
        (λ e. (e ≡ InspectFault.Memory) ⊎ (e ≡ InspectFault.Store SavedFault.Database)) }
{
    let Some(size) = PageSize::new(NEW_PAGE_SIZE) else {
        return Err(InspectFault::Store(SavedFault::Database));
    };
    match probe_blank(alloc, files, size, false) {
        Ok(is_blank) => Ok(is_blank),
        Err(LogError::OutOfMemory) => Err(InspectFault::Memory),
        Err(_) => Err(InspectFault::Store(SavedFault::Database)),
    }
}

// The server that the keeper's base and rows make.
fn server_of<S: Alter + Drop>(
    alloc: Global,
    mut keeper: SqlKeeper<S>,
) -> Result<FoundServer, InspectFault>
    requires honest { (c : Held S) → HasCleanDisk (state S.Store c) }
    ensures held { IfOk result (IsFoundOf
        (λ history. Serves S.Store keeper → readable_in S.Store keeper ≡ whole history)) }
    ensures refused { Serves S.Store keeper
        → IfErr result (IsFlaw (readable_in S.Store keeper)) }
{
    match replayed(&mut keeper) {
        Ok(found) => {
            drop(keeper);
            Ok(found)
        }
        Err(fault) => Err(flaw_after(alloc, keeper.into_connection(), fault)),
    }
}

// The same, with the keeper as it was.
fn replayed<S: Alter + Drop>(keeper: &mut SqlKeeper<S>) -> Result<FoundServer, SavedFault>
    requires honest { (c : Held S) → HasCleanDisk (state S.Store c) }
    ensures held { IfOk result (IsFoundOf
        (λ history. Serves S.Store keeper.old → readable_in S.Store keeper.old ≡ whole history)) }
    ensures refused { Serves S.Store keeper.old
        → IfErr result (IsNoServer (readable_in S.Store keeper.old)) }
    ensures left { Serves S.Store keeper.old
        → IsLeft (state S.Store keeper.old.connection) (state S.Store keeper.new.connection) }
{
    let base = keeper.load_base()?;
    let checkpoint = Checkpoint::of(&base);
    let server = keeper.replay_since(base)?;
    Ok(FoundServer { checkpoint, server })
}

// Why no server is made of what the connection shows, by the fault of the keeper that tried.
fn flaw_after<S: Alter + Drop>(
    alloc: Global,
    connection: Connection<S>,
    fault: SavedFault,
) -> InspectFault
    requires honest { (c : Held S) → HasCleanDisk (state S.Store c) }
    ensures { (held : Readable) → ShowsWhileOpen (state S.Store connection) held
        → IsNoServer held fault → IsFlaw held result }
{
    match fault {
        SavedFault::BadRow(row) => flaw_at(alloc, connection, row),
        fault => {
            drop(connection);
            InspectFault::from(fault)
        }
    }
}

// Why this row is bad, which is the first bad one that the connection shows. The tables are opened
// again, which finds them as they were.
fn flaw_at<S: Alter + Drop>(alloc: Global, connection: Connection<S>, row: Count) -> InspectFault
    requires honest { (c : Held S) → HasCleanDisk (state S.Store c) }
    ensures { (held : Readable) → ShowsWhileOpen (state S.Store connection) held
        → IsFirstBad held row → IsFlaw held result }
{
    if !connection.is_autocommit() {
        drop(connection);
        return InspectFault::Store(SavedFault::Database);
    }
    match SqlKeeper::open(alloc, connection) {
        Ok(mut keeper) => {
            let flaw = flaw_of(&mut keeper, row);
            drop(keeper);
            flaw
        }
        Err((fault, connection)) => {
            drop(connection);
            InspectFault::from(fault)
        }
    }
}

// The same over its keeper. A row that is read as a batch is none that may follow.
fn flaw_of<S: Alter + Drop>(keeper: &mut SqlKeeper<S>, row: Count) -> InspectFault
    requires honest { (c : Held S) → HasCleanDisk (state S.Store c) }
    ensures { Serves S.Store keeper.old → IsFirstBad (readable_in S.Store keeper.old) row
        → IsFlaw (readable_in S.Store keeper.old) result }
{
    if row.get() == 0 {
        return InspectFault::BadCheckpoint;
    }
    match keeper.load() {
        Ok(batches) => {
            drop(batches);
            InspectFault::NotLegal(row)
        }
        Err(fault) => flaw_by(fault, row),
    }
}

// What is wrong with the first bad row, by the first that isn't read.
#[tactic(auto, using(crate::proofs::Flaws::unreadable, crate::proofs::Flaws::not_legal_before, crate::proofs::Flaws::no_flaw))]
fn flaw_by(unread: SavedFault, row: Count) -> InspectFault
    requires { 0 < row }
    ensures { (held : Readable) → IsUnread held unread → IsFirstBad held row → IsFlaw held result }
{
    match unread {
        SavedFault::BadRow(unread) => if unread.get() == row.get() {
            InspectFault::Unreadable(row)
        } else {
            InspectFault::NotLegal(row)
        },
        fault => InspectFault::from(fault),
    }
}

// The history of the keeper's base and rows.
fn history_in<S: Alter + Drop>(
    alloc: Global,
    mut keeper: SqlKeeper<S>,
) -> Result<FoundHistory, InspectFault>
    requires honest { (c : Held S) → HasCleanDisk (state S.Store c) }
    ensures held { Serves S.Store keeper → IfOk result
        (λ found. readable_in S.Store keeper ≡ whole (history_of found)) }
    ensures leads { IfOk result (λ found. LeadsTo (history_of found) (end_of (history_of found))) }
    ensures refused { Serves S.Store keeper
        → IfErr result (IsFlaw (readable_in S.Store keeper)) }
{
    match loaded(&mut keeper) {
        Ok(found) => {
            drop(keeper);
            legal_only(alloc, found)
        }
        Err(SavedFault::BadRow(_)) => Err(flaw_in(alloc, keeper.into_connection())),
        Err(fault) => {
            drop(keeper);
            Err(InspectFault::from(fault))
        }
    }
}

// The same, legal or not, with the keeper as it was.
fn loaded<S: Alter + Drop>(keeper: &mut SqlKeeper<S>) -> Result<FoundHistory, SavedFault>
    requires honest { (c : Held S) → HasCleanDisk (state S.Store c) }
    ensures held { Serves S.Store keeper.old → IfOk result
        (λ found. readable_in S.Store keeper.old ≡ whole (history_of found)) }
    ensures base { IfOk result (λ found. IsSum (base_sum found.base)) }
    ensures refused { Serves S.Store keeper.old
        → IfErr result (IsUnread (readable_in S.Store keeper.old)) }
    ensures left { Serves S.Store keeper.old
        → IsLeft (state S.Store keeper.old.connection) (state S.Store keeper.new.connection) }
{
    let base = keeper.load_base()?;
    match keeper.load_since(&base) {
        Ok(batches) => Ok(FoundHistory { base, batches }),
        Err(fault) => {
            drop(base);
            Err(fault)
        }
    }
}

// A history that was read to its end, if each batch may follow those before it.
fn legal_only(alloc: Global, found: FoundHistory) -> Result<FoundHistory, InspectFault>
    requires base { IsSum (base_sum found.base) }
    ensures same { IfOk result (λ legal. legal ≡ found) }
    ensures leads { IfOk result (λ legal. LeadsTo (history_of legal) (end_of (history_of legal))) }
    ensures refused { IfErr result (IsFlaw (whole (history_of found))) }
{
    match follow_all(alloc, &found.base, found.batches.as_slice()) {
        Ok(()) => Ok(found),
        Err(fault) => {
            drop(found);
            Err(refused_batch(fault))
        }
    }
}

// Whether the batches may follow the base, one after another.
fn follow_all(alloc: Global, base: &Option<Base>, batches: &[Batch]) -> Result<(), ReplayFault>
    ensures legal { OnOk result (FollowAll (base_sum base.now) batches.now) }
    ensures refused { IfErr result (IsNoLogAfter (base_sum base.now) batches.now) }
{
    let mut replay = begun(alloc, base)?;
    for batch in batches {
        let Ok(batch) = batch.copy(alloc) else {
            drop(replay);
            return Err(ReplayFault::Memory);
        };
        if let Err(fault) = replay.add(batch) {
            drop(replay);
            return Err(fault);
        }
    }
    drop(replay);
    Ok(())
}

// A replay that begins at the base.
fn begun(alloc: Global, base: &Option<Base>) -> Result<Replay, ReplayFault>
    ensures sum { IfOk result (λ replay. replay ≡ base_sum base.now) }
    ensures refused { IfErr result (λ e. e ≡ ReplayFault.Memory) }
{
    match base {
        None => Ok(Replay::new(alloc)),
        Some(base) => Replay::resume(alloc, base.copy(alloc)?),
    }
}

// What is wrong with a history whose batches are refused in this way.
fn refused_batch(fault: ReplayFault) -> InspectFault
    ensures { (history : History) → IsNoLogAfter history.base history.log fault
        → IsFlaw (whole history) result }
{
    match fault {
        ReplayFault::Memory => InspectFault::Memory,
        ReplayFault::NotLegal(number) => InspectFault::NotLegal(Count::up_to(number)),
    }
}

// What is wrong with the rows of a connection, one of which is no batch. The tables are opened again.
fn flaw_in<S: Alter + Drop>(alloc: Global, connection: Connection<S>) -> InspectFault
    requires honest { (c : Held S) → HasCleanDisk (state S.Store c) }
    ensures { (held : Readable) → ShowsWhileOpen (state S.Store connection) held
        → IsFlaw held result }
{
    if !connection.is_autocommit() {
        drop(connection);
        return InspectFault::Store(SavedFault::Database);
    }
    match SqlKeeper::open(alloc, connection) {
        Ok(keeper) => match server_of(alloc, keeper) {
            Ok(found) => {
                drop(found);
                InspectFault::Store(SavedFault::Database)
            }
            Err(flaw) => flaw,
        },
        Err((fault, connection)) => {
            drop(connection);
            InspectFault::from(fault)
        }
    }
}
