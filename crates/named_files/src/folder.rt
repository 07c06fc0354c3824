ghost use Rattle.std.specs.Prelude.{◌≡◌, IfOk, IfErr, IsTrue, true, false};
ghost use Rattle.named_files.specs.Folders.{IsIndexDenied, IsLogDenied, IsMakingDenied, Meaning};

use crate::Denial;
use disk_model::SharedDisk;
use outside_io::{Sink, Source};

/// A place where files are opened by their names. Making a file consumes the folder, so a folder that still exists has made no file.
pub trait Folder: Drop {
    /// The type of an index file.
    type Index: SharedDisk;
    /// The type of a file of logs to be read.
    type LogIn: Source + Drop;
    /// The type of a file that logs or proofs are written to.
    type LogOut: Sink + Drop;
    /// The system's reason where it refuses a call.
    type Reason: Drop;

    /// What the folder's results mean.
    ghost meaning: { Self → Meaning Self.Index Self.LogIn Self.LogOut };

    /// Returns whether two names name one file.
    fn is_one_file(&self, one: &str, other: &str) -> bool
        ensures one { IsTrue result → (meaning self.now).are_one one.now other.now }
        ensures apart { result ≡ false → (meaning self.now).are_apart one.now other.now };

    /// Opens the index `name`, for writing too where `writes` is true, and locks it against other processes.
    fn open_index(&self, name: &str, writes: bool) -> Result<Self::Index, Denial<Self::Reason>>
        ensures opened { IfOk result ((meaning self.now).is_index name.now writes) }
        ensures held { IfOk result ((meaning self.now).is_held name.now writes) }
        ensures denied { IfErr result (IsIndexDenied (meaning self.now) name.now) };

    /// Opens the file of logs `name`.
    fn open_log(&self, name: &str) -> Result<Self::LogIn, Denial<Self::Reason>>
        ensures opened { IfOk result ((meaning self.now).is_log_in name.now) }
        ensures denied { IfErr result (IsLogDenied (meaning self.now) name.now) };

    /// Opens the index `name` for writing, and locks it. Makes its file where there is none. Gives the folder back where no file was
    /// made.
    fn make_index(self, name: &str) -> Result<Self::Index, (Denial<Self::Reason>, Self)>
        ensures opened { IfOk result ((meaning self).is_made name.now) }
        ensures held { IfOk result ((meaning self).is_held name.now true) }
        ensures denied { IfErr result (λ e. IsIndexDenied (meaning self) name.now e.0) }
        ensures given_back { IfErr result (λ e. e.1 ≡ self) };

    /// Makes the file `name` anew, and empty, unless it begins as an index. Gives the folder back where no file was made or emptied.
    fn make_log(self, name: &str) -> Result<Self::LogOut, (Denial<Self::Reason>, Self)>
        ensures opened { IfOk result ((meaning self).is_log_out name.now) }
        ensures denied { IfErr result (λ e. IsMakingDenied (meaning self) name.now e.0) }
        ensures given_back { IfErr result (λ e. e.1 ≡ self) };

    /// Returns the system's reason for the index's last fault, if it gave one.
    fn last_fault(index: &Self::Index) -> Option<Self::Reason>;
}
