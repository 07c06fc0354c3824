/// Why a record or a command is refused.
#[derive(Clone, Copy, Debug, PartialEq, Eq)]
pub enum Refusal {
    /// The first field names no command, or the command has another number of fields.
    Command,

    /// The point has another number of coordinates than the space.
    Dimension,

    /// A field is no number, or is above its limit.
    Number,

    /// A count is 0.
    Count,

    /// Fewer records follow a load than it announces.
    Short,

    /// The record with this number (from 0) of a load is no point.
    Row(u32),

    /// A load finds objects.
    NotEmpty,

    /// The list has no room for the objects.
    Full,

    /// The index has reached its last generation.
    Worn,

    /// The file has no room for the pages.
    NoRoom,

    /// The command would change what is only read.
    ReadOnly,

    /// No cursor with the number is open.
    NoCursor,

    /// As many cursors are open as may be.
    Cursors,

    /// A point is not in the space.
    Unfit,
}
