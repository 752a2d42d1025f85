//! A law of what an opening finds.

ghost use Rattle.pres_file.specs.FileOpening.{FindsWhatWasLeft};

use sqlite_disk::Disk;

/// What can be read of what an opening finds after a crash is one of what the crash may leave to be
/// read. So what outlasts a crash is found: what is read goes on from it.
///
/// `D` is the disk of the run before, and `E` the disk of the opening.
pub fn finds_what_a_crash_left<D: Disk, E: Disk>()
    ensures { (kept : _) (left : _) (opened : _)
        → FindsWhatWasLeft D.Disk E.Disk kept left opened }
{}
