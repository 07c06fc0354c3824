use crate::Refusal;
use metric_laws::{Listed, Point, Rows};

/// One command of a script.
#[derive(Drop)]
pub enum Command {
    /// Adds an object whose tag is its id.
    Insert(Point),

    /// Fills the empty list with objects whose tags are their ids.
    Load(Rows),

    /// Asks for every object within `r` of `q`.
    Range { r: u64, q: Point },

    /// Asks for the `k` objects nearest to `q`.
    Nearest { k: u64, q: Point },

    /// Asks for the number of objects.
    Count,

    /// A record that is no command, and why.
    Bad(Refusal),

    /// Adds an object with a tag.
    TagInsert { tag: u64, p: Point },

    /// Fills the empty list with objects and their tags, one tag a row.
    TagLoad { tags: Listed<u64>, rows: Rows },

    /// Opens a cursor over all objects, from the one nearest to the point on.
    Cursor(Point),

    /// Asks a cursor for its next `n` hits.
    Next { cursor: u32, n: u64 },

    /// Closes a cursor.
    Close(u32),
}
