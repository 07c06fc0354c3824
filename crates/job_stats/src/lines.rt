// The text of `stats`.
ghost use Rattle.std.specs.Prelude.{◌≡◌, ◌++◌, flat_map, OnOk, IfOk};
ghost use Rattle.rows_text.specs.Texts.{counted};
ghost use Rattle.job_files.specs.Lines.{or_dash};
ghost use Rattle.job_stats.specs.Jobs.{head_text, level_text, named, pages_text, spread_text, stats_text, tree_text};

use crate::names::{metric_word, promote_word, split_word};
use crate::numbers::{LevelNumbers, Spread};
use fault_lines::push_numbered;
use node_page::Head;
use std::alloc::{AllocError, Global};
use tree_shape::Live;

// The pages of the head and of the two slots.
const HEAD_PAGES: u64 = 3;

// The bytes of a page.
const PAGE_BYTES: u64 = 4096;

// Appends a line of a word and a name.
fn push_named(word: &[u8], name: &[u8], out: &mut Vec<u8>) -> Result<(), AllocError>
    ensures { OnOk result (out.new.items ≡ out.old.items ++ named word.now name.now) }
{
    out.extend_from_slice(word)?;
    out.extend_from_slice(name)?;
    out.extend_from_slice(b"\n")
}

// Appends a line of a word and a number.
fn push_counted(word: &[u8], n: u64, out: &mut Vec<u8>) -> Result<(), AllocError>
    ensures { OnOk result (out.new.items ≡ out.old.items ++ counted word.now n) }
{
    push_numbered(word, n, out)?;
    out.extend_from_slice(b"\n")
}

// Appends a spread, or a dash where there is none.
fn push_spread(spread: Option<Spread>, out: &mut Vec<u8>) -> Result<(), AllocError>
    ensures { OnOk result (out.new.items ≡ out.old.items ++ or_dash spread_text spread) }
{
    match spread {
        Some(spread) => {
            push_numbered(b"", spread.least, out)?;
            push_numbered(b" ", spread.middle, out)?;
            push_numbered(b" ", spread.most, out)
        }
        None => out.extend_from_slice(b"-"),
    }
}

fn push_level(numbers: &LevelNumbers, out: &mut Vec<u8>) -> Result<(), AllocError>
    ensures { OnOk result (out.new.items ≡ out.old.items ++ level_text numbers.now) }
{
    push_numbered(b"level ", u64::from(numbers.level), out)?;
    push_numbered(b" nodes ", numbers.nodes, out)?;
    out.extend_from_slice(b" entries ")?;
    push_spread(numbers.entries, out)?;
    out.extend_from_slice(b" radius ")?;
    push_spread(numbers.radii, out)?;
    out.extend_from_slice(b"\n")
}

fn push_levels(levels: &[LevelNumbers], out: &mut Vec<u8>) -> Result<(), AllocError>
    ensures { OnOk result (out.new.items ≡ out.old.items ++ flat_map level_text levels.now) }
{
    for numbers in levels {
        push_level(numbers, out)?;
    }
    Ok(())
}

fn push_head(head: &Head, out: &mut Vec<u8>) -> Result<(), AllocError>
    ensures { OnOk result (out.new.items ≡ out.old.items ++ head_text head.now) }
{
    push_named(b"metric ", metric_word(head.kind), out)?;
    push_counted(b"dim ", u64::from(head.dim), out)?;
    push_named(b"promote ", promote_word(head.promote), out)?;
    push_named(b"split ", split_word(head.split), out)?;
    push_counted(b"max ", u64::from(head.limit), out)
}

fn push_tree(live: &Live, nodes: u32, out: &mut Vec<u8>) -> Result<(), AllocError>
    ensures { OnOk result (out.new.items ≡ out.old.items ++ tree_text live.now nodes) }
{
    push_counted(b"generation ", live.generation, out)?;
    push_counted(b"objects ", u64::from(live.count), out)?;
    push_counted(b"height ", u64::from(live.height), out)?;
    push_counted(b"nodes ", u64::from(nodes), out)
}

// Appends the lines of a file's pages, where its tree has `nodes` nodes.
fn push_pages(pages: u32, nodes: u32, out: &mut Vec<u8>) -> Result<(), AllocError>
    ensures { OnOk result (out.new.items ≡ out.old.items ++ pages_text pages nodes) }
{
    let pages = u64::from(pages);
    let taken = HEAD_PAGES + u64::from(nodes);
    push_counted(b"pages ", pages, out)?;
    push_counted(b"free ", pages.saturating_sub(taken), out)?;
    push_counted(b"bytes ", PAGE_BYTES * pages, out)
}

/// Returns the lines of a head, of its tree of `nodes` nodes, of the file's pages, and of the tree's levels.
pub fn stats_text(
    alloc: Global,
    head: &Head,
    live: &Live,
    nodes: u32,
    levels: &[LevelNumbers],
) -> Result<Vec<u8>, AllocError>
    ensures { IfOk result (λ text. text.items ≡ stats_text head.now live.now nodes levels.now) }
{
    let mut text = Vec::new(alloc);
    push_head(head, &mut text)?;
    push_tree(live, nodes, &mut text)?;
    push_pages(live.pages, nodes, &mut text)?;
    push_levels(levels, &mut text)?;
    Ok(text)
}
