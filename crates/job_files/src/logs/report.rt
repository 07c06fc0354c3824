/// What is said of an accepted log.
#[derive(Clone, Copy, PartialEq, Eq)]
pub enum Report {
    /// The log is accepted. No file is audited.
    Verdicts,
    /// The log is complete, with the query and its answers. Each file is audited before.
    Answers,
}
