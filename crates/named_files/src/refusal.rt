/// Why a file was not opened.
#[derive(Drop)]
pub enum Denial<Reason> {
    /// The system refused, for this reason.
    System(Reason),
    /// Another process writes the index; or the job writes it, and another process has it open.
    InUse,
    /// The file begins as an index, and would be emptied.
    IsIndex,
}

/// Why the files of a job were not opened.
#[derive(Drop)]
pub enum Refusal<Name, Reason> {
    /// The file of this name was not opened.
    Denied { name: Name, why: Denial<Reason> },
    /// The job makes the file `made`, and `read` names the same file.
    OneFile { made: Name, read: Name },
}
