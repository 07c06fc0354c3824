ghost use Rattle.std.specs.Prelude.{List, ℕ, IfErr};
ghost use Rattle.named_files.specs.Folders.{IsIndexDenied, IsMakingDenied};
ghost use Rattle.named_files.specs.Host.{host_meaning};

use crate::{Denial, Folder};
use disk_model::FileDisk;
use outside_io::{StdSink, StdSource};
use std::fs::{self, File, OpenOptions, TryLockError};
use std::io::{self, ErrorKind};
use std::os::unix::fs::{FileExt, MetadataExt};

/// The letters that an index begins with.
const INDEX_LETTERS: &[u8; 8] = b"MTREEIDX";

/// The system's number for a write through a handle that was opened to read (EBADF). An index is opened so where it must not be
/// written.
const BAD_HANDLE: i32 = 9;

/// The system's number for a missing permission (EACCES).
const NO_PERMISSION: i32 = 13;

/// The real files. No contract can say what a file holds, that a name belongs to one file, or what another process does. So nothing
/// is told about what is opened. Of two names that the program accepts as two files it is told that they are not equal.
///
/// An index is locked by the system's advisory lock on its file: shared where it is read, exclusive where it is written. The system
/// releases the lock when the file is closed, and also when the process is killed.
#[derive(Drop)]
pub struct HostFolder<'a> {
    rt: &'a HostRuntime,
}

impl<'a> HostFolder<'a> {
    pub fn new(rt: &'a HostRuntime) -> HostFolder<'a> {
        HostFolder { rt }
    }

    // Opens an existing index, for writing too where `writes` is true. An index that must not be written can still be read.
    fn open(&self, name: &str, writes: bool) -> io::Result<File> {
        if !writes {
            return File::open(self.rt, name);
        }
        let mut options = OpenOptions::new();
        options.read(true).write(true);
        match options.open(self.rt, name) {
            Err(error) if may_read_alone(error.kind()) => File::open(self.rt, name),
            opened => opened,
        }
    }

    // Opens an index for writing, and makes its file where there is none.
    fn make(&self, name: &str) -> io::Result<File> {
        let mut options = OpenOptions::new();
        options.read(true).write(true).create(true);
        options.open(self.rt, name)
    }

    // Makes a file of logs anew and empty. A plain file is checked first, through the handle that empties it.
    fn empty(&self, name: &str) -> Result<File, Denial<io::Error>>
        ensures { IfErr result (IsMakingDenied host_meaning name.now) }
    {
        let mut options = OpenOptions::new();
        options.write(true).create(true);
        if !is_plain_file(self.rt, name) {
            return options
                .truncate(true)
                .open(self.rt, name)
                .map_err(Denial::System);
        }
        let file = options
            .read(true)
            .open(self.rt, name)
            .map_err(Denial::System)?;
        if begins_as_index(&file).map_err(Denial::System)? {
            return Err(Denial::IsIndex);
        }
        file.set_len(0).map_err(Denial::System)?;
        Ok(file)
    }
}

// Returns whether a file that must not be written may still be read.
fn may_read_alone(kind: ErrorKind) -> bool {
    matches!(
        kind,
        ErrorKind::PermissionDenied | ErrorKind::ReadOnlyFilesystem
    )
}

// Returns whether the name is that of a plain file, and not of a pipe or a device.
fn is_plain_file(rt: &HostRuntime, name: &str) -> bool {
    match fs::metadata(rt, name) {
        Ok(found) => found.is_file(),
        Err(_) => false,
    }
}

// Returns whether a file begins with the letters of an index.
fn begins_as_index(file: &File) -> io::Result<bool> {
    let mut front = [0; 8];
    let count = file.read_at(&mut front, 0)?;
    Ok(count == front.len() && front == *INDEX_LETTERS)
}

// Locks an index: alone where it is written, together with other readers where it is read. Does not wait.
fn hold(file: File, writes: bool) -> Result<FileDisk, Denial<io::Error>>
    ensures { IfErr result (λ why. (name : List ℕ) → IsIndexDenied host_meaning name why) }
{
    let held = if writes {
        file.try_lock()
    } else {
        file.try_lock_shared()
    };
    match held {
        Ok(()) => Ok(FileDisk::new(file)),
        Err(TryLockError::WouldBlock) => Err(Denial::InUse),
        Err(TryLockError::Error(error)) => Err(Denial::System(error)),
    }
}

// Locks an index that was opened.
fn hold_opened(opened: io::Result<File>, writes: bool) -> Result<FileDisk, Denial<io::Error>>
    ensures { IfErr result (λ why. (name : List ℕ) → IsIndexDenied host_meaning name why) }
{
    match opened {
        Ok(file) => hold(file, writes),
        Err(error) => Err(Denial::System(error)),
    }
}

impl Folder for HostFolder<'_> {
    type Index = FileDisk;

    type LogIn = StdSource<File>;

    type LogOut = StdSink<File>;

    type Reason = io::Error;

    ghost use Rattle.named_files.specs.Host.{host_meaning};

    ghost meaning = { λ folder. host_meaning };

    fn is_one_file(&self, one: &str, other: &str) -> bool {
        if one == other {
            return true;
        }
        match (fs::metadata(self.rt, one), fs::metadata(self.rt, other)) {
            (Ok(one), Ok(other)) => one.dev() == other.dev() && one.ino() == other.ino(),
            _ => false,
        }
    }

    fn open_index(&self, name: &str, writes: bool) -> Result<FileDisk, Denial<io::Error>> {
        hold_opened(self.open(name, writes), writes)
    }

    fn open_log(&self, name: &str) -> Result<StdSource<File>, Denial<io::Error>> {
        match File::open(self.rt, name) {
            Ok(file) => Ok(StdSource::new(file)),
            Err(error) => Err(Denial::System(error)),
        }
    }

    fn make_index(self, name: &str) -> Result<FileDisk, (Denial<io::Error>, Self)> {
        match hold_opened(self.make(name), true) {
            Ok(index) => Ok(index),
            Err(why) => Err((why, self)),
        }
    }

    fn make_log(self, name: &str) -> Result<StdSink<File>, (Denial<io::Error>, Self)> {
        match self.empty(name) {
            Ok(file) => Ok(StdSink::new(file)),
            Err(why) => Err((why, self)),
        }
    }

    fn last_fault(index: &FileDisk) -> Option<io::Error> {
        match index.last_fault() {
            Some(BAD_HANDLE) => Some(io::Error::from_raw_os_error(NO_PERMISSION)),
            Some(code) => Some(io::Error::from_raw_os_error(code)),
            None => None,
        }
    }
}
