//! Rows that are given as numbers, to be loaded or inserted.

ghost use Rattle.std.specs.Prelude.{◌≡◌, ◌≤◌, ◌<◌, ◌*◌, ◌^◌, IsTrue, [], ◌∷◌, All, length, IfOk};
ghost use Rattle.std.specs.Option.{ForSome};
ghost use Rattle.metric_laws.specs.Rows.{rows_of};
ghost use Rattle.rows_text.specs.Readable.{IsReadable};
ghost use Rattle.session_run.specs.GivenRows.{insert_at, inserts_of, load_of, tags_if};

use crate::requests::Requests;
use metric_laws::{Listed, Point, Rows};
use rows_text::{Command, Refusal};
use std::alloc::{AllocError, Global};

/// Rows of one number of coordinates, with their tags or without.
#[derive(Drop)]
pub struct GivenRows {
    width: usize,
    rows: Rows,
    tags: Option<Listed<u64>>,
    ghost as_wide: { rows.dimension ≡ width },
    ghost wide: { All (λ p. length p ≡ width) rows.points },
    ghost few: { length rows.points < 2 ^ 32 },
    ghost each: { ForSome tags (λ ts. length ts ≡ length rows.points) },
}

/// Rows that are loaded into an empty index, all or none.
#[derive(Drop)]
pub struct RowsToLoad(pub GivenRows);

/// Rows that are inserted, one after another.
#[derive(Drop)]
pub struct RowsToInsert(pub GivenRows);

// Copies `count` rows of `width` numbers, which stand one after another.
fn rows_from(alloc: Global, cells: &[u32], width: usize, count: usize) -> Result<Rows, AllocError>
    requires whole { length cells.now ≡ count * width }
    ensures { IfOk result (λ rows. rows ≡ record { dimension = width; points = rows_of width count cells.now }) }
{
    let mut rows = Rows::new(alloc, width);
    for i in 0..count {
        rows.push(&cells[i * width..i * width + width])?;
    }
    Ok(rows)
}

// Copies the tags of rows that have tags.
fn tags_from(alloc: Global, tagged: bool, tags: &[u64]) -> Result<Option<Listed<u64>>, AllocError>
    ensures { IfOk result (λ copied. copied ≡ tags_if tagged tags.now) }
{
    if !tagged {
        return Ok(None);
    }
    Ok(Some(Listed::new(Vec::from_slice(alloc, tags)?)))
}

impl GivenRows {
    /// Makes a copy of `count` rows of `width` numbers, which stand one after another in `cells`. Where they are `tagged`, row i has
    /// tag i of `tags`.
    pub fn new(
        alloc: Global,
        cells: &[u32],
        width: usize,
        count: usize,
        tagged: bool,
        tags: &[u64],
    ) -> Result<Self, AllocError>
        requires whole { length cells.now ≡ count * width }
        requires few { count < 2 ^ 32 }
        requires each { IsTrue tagged → length tags.now ≡ count }
        ensures rows { IfOk result (λ given. given.rows ≡ record { dimension = width; points = rows_of width count cells.now }) }
        ensures tags { IfOk result (λ given. given.tags ≡ tags_if tagged tags.now) }
    {
        let rows = rows_from(alloc, cells, width, count)?;
        let tags = tags_from(alloc, tagged, tags)?;
        Ok(GivenRows { width, rows, tags })
    }

    // Returns the insert of row `i`, over points of `dimension` coordinates.
    fn insert_at(&self, alloc: Global, dimension: usize, i: usize) -> Result<Command, AllocError>
        requires { i < length self.now.rows.points }
        ensures command { IfOk result (λ command. command ≡ insert_at self.now.rows self.now.tags dimension i) }
        ensures readable { IfOk result (IsReadable dimension) }
    {
        if self.width != dimension {
            return Ok(Command::Bad(Refusal::Dimension));
        }
        let p = Point::new(alloc, self.rows.point(i))?;
        match &self.tags {
            None => Ok(Command::Insert(p)),
            Some(tags) => Ok(Command::TagInsert {
                tag: tags.as_slice()[i],
                p,
            }),
        }
    }
}

// Returns the load of all rows, over points of `dimension` coordinates.
fn load_of(given: GivenRows, dimension: usize) -> Command
    ensures command { result ∷ [] ≡ load_of given.rows given.tags dimension }
    ensures readable { IsReadable dimension result }
{
    let GivenRows { width, rows, tags } = given;
    if width != dimension {
        return Command::Bad(Refusal::Dimension);
    }
    if rows.is_empty() {
        return Command::Bad(Refusal::Count);
    }
    match tags {
        None => Command::Load(rows),
        Some(tags) => Command::TagLoad { tags, rows },
    }
}

impl Requests for RowsToLoad {
    ghost commands = { λ r dimension. load_of r.0.rows r.0.tags dimension };

    fn read(self, alloc: Global, dimension: usize) -> Result<Vec<Command>, AllocError> {
        let RowsToLoad(given) = self;
        let command = load_of(given, dimension);
        Ok(vec![in alloc; command]?)
    }
}

impl Requests for RowsToInsert {
    ghost commands = { λ r dimension. inserts_of r.0.rows r.0.tags dimension };

    fn read(self, alloc: Global, dimension: usize) -> Result<Vec<Command>, AllocError> {
        let given = &self.0;
        let mut commands = Vec::with_capacity(alloc, given.rows.len())?;
        for i in 0..given.rows.len() {
            commands.push(given.insert_at(alloc, dimension, i)?)?;
        }
        Ok(commands)
    }
}
