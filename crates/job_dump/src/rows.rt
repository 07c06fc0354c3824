// The lines of objects.
ghost use Rattle.std.specs.Prelude.{◌≡◌, ◌++◌, codes, OnOk};
ghost use Rattle.tree_shape.specs.Entries.{leaf_of};
ghost use Rattle.rows_text.specs.Texts.{coordinates_text, counted};
ghost use Rattle.job_dump.specs.Scripts.{row_line};

use fault_lines::push_numbered;
use std::alloc::AllocError;
use tree_shape::LeafRef;

// Appends each coordinate after a comma.
fn push_coordinates(point: &[u32], out: &mut Vec<u8>) -> Result<(), AllocError>
    ensures { OnOk result (out.new.items ≡ out.old.items ++ coordinates_text point.now) }
{
    for x in point {
        push_numbered(b",", u64::from(*x), out)?;
    }
    Ok(())
}

/// Appends the line of an object: its tag and its coordinates.
pub fn push_row(entry: LeafRef, out: &mut Vec<u8>) -> Result<(), AllocError>
    ensures { OnOk result (out.new.items ≡ out.old.items ++ row_line ((leaf_of entry.entry).tag, (leaf_of entry.entry).point)) }
{
    push_numbered(b"", entry.tag, out)?;
    push_coordinates(entry.point, out)?;
    out.extend_from_slice(b"\n")
}

/// Appends the head of a script of `count` objects.
pub fn push_head(count: u32, out: &mut Vec<u8>) -> Result<(), AllocError>
    ensures { OnOk result (out.new.items ≡ out.old.items ++ counted (codes "tload,") count) }
{
    push_numbered(b"tload,", u64::from(count), out)?;
    out.extend_from_slice(b"\n")
}
