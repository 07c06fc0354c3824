// The lines of a tree's shape.
ghost use Rattle.std.specs.Prelude.{◌≡◌, ◌++◌, decimal, length, flat_map, OnOk, IfOk};
ghost use Rattle.std.specs.Option.{option_copied};
ghost use Rattle.rows_text.specs.Texts.{coordinates_text};
ghost use Rattle.job_files.specs.Lines.{node_text, or_dash, point_text, shape_text};

use fault_lines::push_numbered;
use metric_laws::Point;
use std::alloc::{AllocError, Global};
use tree_outline::{Shape, ShapeLine};

// Appends each coordinate after a comma.
fn push_after_commas(point: &[u32], out: &mut Vec<u8>) -> Result<(), AllocError>
    ensures { OnOk result (out.new.items ≡ out.old.items ++ coordinates_text point.now) }
{
    for x in point {
        push_numbered(b",", u64::from(*x), out)?;
    }
    Ok(())
}

// Appends a point's coordinates, joined by commas.
fn push_point(point: &[u32], out: &mut Vec<u8>) -> Result<(), AllocError>
    ensures { OnOk result (out.new.items ≡ out.old.items ++ point_text point.now) }
{
    let Some((first, rest)) = point.split_first() else {
        return Ok(());
    };
    push_numbered(b"", u64::from(*first), out)?;
    push_after_commas(rest, out)
}

// Appends the centre of a node's region; the root has none.
fn push_centre(centre: Option<&Point>, out: &mut Vec<u8>) -> Result<(), AllocError>
    ensures { OnOk result (out.new.items ≡ out.old.items ++ or_dash point_text (option_copied centre.entry)) }
{
    match centre {
        Some(point) => push_point(point.as_slice(), out),
        None => out.extend_from_slice(b"-"),
    }
}

// Appends the covering radius of a node's region; the root has none.
fn push_radius(radius: Option<u64>, out: &mut Vec<u8>) -> Result<(), AllocError>
    ensures { OnOk result (out.new.items ≡ out.old.items ++ or_dash decimal radius) }
{
    match radius {
        Some(radius) => push_numbered(b"", radius, out),
        None => out.extend_from_slice(b"-"),
    }
}

fn push_node(line: &ShapeLine, out: &mut Vec<u8>) -> Result<(), AllocError>
    ensures { OnOk result (out.new.items ≡ out.old.items ++ node_text line.now) }
{
    push_numbered(b"", u64::from(line.level), out)?;
    push_numbered(b" ", u64::from(line.entries), out)?;
    out.extend_from_slice(b" ")?;
    push_centre(line.centre.as_ref(), out)?;
    out.extend_from_slice(b" ")?;
    push_radius(line.radius, out)?;
    out.extend_from_slice(b"\n")
}

fn push_nodes(lines: &[ShapeLine], out: &mut Vec<u8>) -> Result<(), AllocError>
    ensures { OnOk result (out.new.items ≡ out.old.items ++ flat_map node_text lines.now) }
{
    for line in lines {
        push_node(line, out)?;
    }
    Ok(())
}

/// Returns the lines of a tree.
pub fn shape_text(alloc: Global, shape: &Shape) -> Result<Vec<u8>, AllocError>
    requires { shape.now.nodes ≡ length shape.now.lines }
    ensures { IfOk result (λ text. text.items ≡ shape_text shape.now.height shape.now.objects shape.now.lines) }
{
    let mut text = Vec::new(alloc);
    push_numbered(b"height ", u64::from(shape.height), &mut text)?;
    push_numbered(b"\nobjects ", u64::from(shape.objects), &mut text)?;
    push_numbered(b"\nnodes ", u64::from(shape.nodes), &mut text)?;
    text.extend_from_slice(b"\n")?;
    push_nodes(shape.lines.as_slice(), &mut text)?;
    Ok(text)
}
