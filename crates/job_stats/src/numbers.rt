// The numbers of a tree, level by level.
ghost use Rattle.std.specs.Prelude.{◌≡◌, map, IfOk};
ghost use Rattle.std.specs.List.{filter_map};
ghost use Rattle.job_stats.specs.Numbers.{AreLevels, AreNumbersOf, IsSpread, on_level};

use std::alloc::{AllocError, Global};
use tree_outline::ShapeLine;

/// The least, the middle and the greatest of some numbers. Of two in the middle it is the lower.
#[derive(Clone, Copy)]
pub struct Spread {
    pub least: u64,
    pub middle: u64,
    pub most: u64,
}

/// The numbers of a level of a tree.
#[derive(Clone, Copy)]
pub struct LevelNumbers {
    /// The level: 0 for the leaves.
    pub level: u32,
    /// The number of its nodes.
    pub nodes: u64,
    /// The spread of the numbers of their entries.
    pub entries: Option<Spread>,
    /// The spread of the covering radii of their regions. The root has none.
    pub radii: Option<Spread>,
}

// Sorts `numbers` and returns their spread. Of no numbers there is none.
fn spread_of(numbers: &mut Vec<u64>) -> Option<Spread>
    ensures { IsSpread numbers.old.items result }
{
    numbers.sort_unstable();
    let last = numbers.len().checked_sub(1)?;
    Some(Spread {
        least: numbers[0],
        middle: numbers[last / 2],
        most: numbers[last],
    })
}

// Returns the numbers of the entries of the nodes on a level.
fn entries_on(alloc: Global, lines: &[ShapeLine], level: u32) -> Result<Vec<u64>, AllocError>
    ensures { IfOk result (λ entries. entries.items ≡ map (λ line. line.entries) (on_level level lines.now)) }
{
    lines
        .iter()
        .filter(|line| u32::from(line.level) == level)
        .map(|line| u64::from(line.entries))
        .collect(alloc)
}

// Returns the radii of the regions of the nodes on a level.
fn radii_on(alloc: Global, lines: &[ShapeLine], level: u32) -> Result<Vec<u64>, AllocError>
    ensures { IfOk result (λ radii. radii.items ≡ filter_map (λ line. line.radius) (on_level level lines.now)) }
{
    lines
        .iter()
        .filter(|line| u32::from(line.level) == level)
        .filter_map(|line| line.radius)
        .collect(alloc)
}

// Returns the numbers of a level.
fn level_of(alloc: Global, lines: &[ShapeLine], level: u32) -> Result<LevelNumbers, AllocError>
    ensures { IfOk result (AreNumbersOf lines.now level) }
{
    let mut entries = entries_on(alloc, lines, level)?;
    let mut radii = radii_on(alloc, lines, level)?;
    let nodes = entries.len() as u64;
    Ok(LevelNumbers {
        level,
        nodes,
        entries: spread_of(&mut entries),
        radii: spread_of(&mut radii),
    })
}

/// Returns the numbers of each level, from `height` down to the leaves.
pub fn levels_of(
    alloc: Global,
    lines: &[ShapeLine],
    height: u32,
) -> Result<Vec<LevelNumbers>, AllocError>
    ensures { IfOk result (λ levels. AreLevels lines.now height levels.items) }
{
    let mut levels = Vec::new(alloc);
    for above in 0..height {
        let inner = level_of(alloc, lines, height - above)?;
        levels.push(inner)?;
    }
    let leaves = level_of(alloc, lines, 0)?;
    levels.push(leaves)?;
    Ok(levels)
}
