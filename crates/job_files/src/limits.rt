// The limits of a job's input.

/// The most bytes in a script.
pub const MOST_INPUT: u64 = 1 << 26;

/// The most bytes of logs.
pub const MOST_LOGS: u64 = 1 << 30;

/// The most pages of an index that a job takes whole, into memory or under a seal: 1 GiB.
pub const MOST_WHOLE_PAGES: u32 = 262_144;
