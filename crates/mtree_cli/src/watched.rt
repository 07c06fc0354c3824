use outside_io::{Failed, Sink};

/// What is known at the end of the replies that passed a sink. A reply is one put; the line of a fault is no reply.
#[derive(Clone, Copy)]
pub struct Replies {
    /// The number of replies.
    pub count: u64,
    /// The number of replies that refuse their command.
    pub refused: u64,
    /// The first of these refusals.
    pub first: Option<FirstRefusal>,
    records: u64,
}

/// The first reply that refuses a command.
#[derive(Clone, Copy)]
pub struct FirstRefusal {
    /// The number of the command's record in the script, from 1.
    pub record: u64,
    line: [u8; 40],
    length: usize,
}

impl FirstRefusal {
    /// Returns the reply, without the end of its line.
    pub fn text(&self) -> &str {
        match self.line.get(..self.length) {
            Some(line) => str::from_utf8(line).unwrap_or("refused"),
            None => "refused",
        }
    }
}

// Keeps the front of a reply, up to the end of its first line.
fn first_line(record: u64, reply: &[u8]) -> FirstRefusal {
    let mut line = [0; 40];
    let mut length = 0;
    for byte in reply {
        if *byte == b'\n' || length == line.len() {
            break;
        }
        line[length] = *byte;
        length += 1;
    }
    FirstRefusal {
        record,
        line,
        length,
    }
}

// Returns the number of rows that a load took, from its reply `loaded N`; 0 for any other reply.
fn loaded_rows(reply: &[u8]) -> u64 {
    let Some(digits) = reply.strip_prefix(b"loaded ") else {
        return 0;
    };
    let mut rows = 0u64;
    for byte in digits {
        if !byte.is_ascii_digit() {
            break;
        }
        rows = rows
            .saturating_mul(10)
            .saturating_add(u64::from(*byte - b'0'));
    }
    rows
}

impl Replies {
    /// Returns the counts before the first reply.
    pub fn none() -> Self {
        Replies {
            count: 0,
            refused: 0,
            first: None,
            records: 0,
        }
    }

    // Counts one reply. Up to the first refusal a command is one record, and a load has one more for each of its rows.
    fn note(&mut self, reply: &[u8]) {
        if reply.starts_with(b"fault ") {
            return;
        }
        self.count = self.count.saturating_add(1);
        self.records = self.records.saturating_add(1);
        if reply.starts_with(b"refused ") {
            self.refused = self.refused.saturating_add(1);
            if self.first.is_none() {
                self.first = Some(first_line(self.records, reply));
            }
        }
        self.records = self.records.saturating_add(loaded_rows(reply));
    }
}

/// A sink that watches the replies that it passes on.
#[derive(Drop)]
pub struct Watched<K: Sink + Drop> {
    inner: K,
    /// What was counted.
    pub replies: Replies,
}

impl<K: Sink + Drop> Watched<K> {
    /// Returns a sink that has passed nothing yet.
    pub fn new(inner: K) -> Self {
        Watched {
            inner,
            replies: Replies::none(),
        }
    }
}

impl<K: Sink + Drop> Sink for Watched<K> {
    ghost state = { λ s. K.state s.inner };

    ghost puts = { λ s. K.puts s.inner };

    fn put(&mut self, bytes: &[u8]) -> Result<(), Failed> {
        self.replies.note(bytes);
        self.inner.put(bytes)
    }
}
