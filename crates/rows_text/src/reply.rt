use crate::Refusal;
use metric_laws::Listed;
use scan_model::{Hit, Pair};

/// The answer to a command.
#[derive(Drop)]
pub enum Reply {
    /// The id of the object that was added.
    Id(u32),

    /// How many objects were loaded.
    Loaded(u32),

    /// The hits of a query, and the tag of each.
    Hits {
        hits: Listed<Hit>,
        tags: Listed<u64>,
    },

    /// The pairs of a join.
    Pairs(Listed<Pair>),

    /// The number of objects.
    Count(u32),

    /// Why the command was refused.
    Refused(Refusal),

    /// The number of the cursor that was opened.
    Cursor(u32),

    /// The next hits of a cursor, and the tag of each.
    Next {
        hits: Listed<Hit>,
        tags: Listed<u64>,
    },

    /// The number of the cursor that was closed.
    Closed(u32),
}
