// The writing of a script.
ghost use Rattle.std.specs.Prelude.{◌≡◌, ◌≤◌, ◌<◌, ◌++◌, ◌^◌, ℕ, List, [], Some, IsTrue, IfErr, IfSome, IfNone, OnOk, OnErr, length, slice_get};
ghost use Rattle.std.specs.Io.KnownBytes.{Appends};
ghost use Rattle.outside_io.specs.Bytes.{AppendsPrefix};
ghost use Rattle.outside_io.specs.Causes.{HasCause as HasSinkCause};
ghost use Rattle.outside_io.specs.Sinks.{SinkState};
ghost use Rattle.tree_shape.specs.declared.entry.LeafEntry.{LeafEntry as TheEntry};
ghost use Rattle.tree_shape.specs.declared.live.Live.{Live as TheLive};
ghost use Rattle.tree_shape.specs.Entries.{leaf_of};
ghost use Rattle.tree_shape.specs.Tree.{leaf_entries};
ghost use Rattle.page_store.specs.Reading.{nodes_of};
ghost use Rattle.page_store.specs.Shelf.{HoldsSame};
ghost use Rattle.job_dump.specs.Causes.{HasStop, PutsScript};
ghost use Rattle.job_dump.specs.Places.{ArePlaces};
ghost use Rattle.job_dump.specs.Scripts.{row_line};
ghost use Rattle.job_dump.specs.Writing.{HasReadCause, IsRowOf, IsWriting};

use crate::fault::{DumpFault, DumpStop};
use crate::places::{Places, places_of};
use crate::rows::{push_head, push_row};
use outside_io::{Failed, Sink};
use page_store::Pages;
use std::alloc::Global;
use tree_shape::{LeafRef, Live, Node};

// A text is put once it has this many bytes.
const PIECE: usize = 1 << 16;

// Returns entry `number` of a leaf, if it is there and has this id.
fn entry_of(node: &Node, number: usize, id: u32) -> Option<LeafRef<'_>>
    ensures some { IfSome result (λ entry. ((leaf_of entry).id ≡ id)
        × (slice_get (leaf_entries (Some node.now)) number ≡ Some (leaf_of entry))) }
    ensures none { IfNone result ((entry : TheEntry) → slice_get (leaf_entries (Some node.now)) number ≡ Some entry → ¬ (entry.id ≡ id)) }
{
    let Node::Leaf(entries) = node else {
        return None;
    };
    if number >= entries.len() {
        return None;
    }
    let entry = entries.at(number);
    if entry.id == id { Some(entry) } else { None }
}

// Appends the line of the object `id`, which is read at its place.
fn push_object<P: Pages>(
    alloc: Global,
    pages: &mut P,
    places: &Places,
    id: u32,
    text: &mut Vec<u8>,
) -> Result<(), DumpFault>
    requires { id < length places.now }
    ensures same { HoldsSame (P.shelf pages.old) (P.shelf pages.new) }
    ensures keeps { P.keeps pages.old pages.new }
    ensures row { OnOk result ((row : ℕ × List ℕ) × (text.new.items ≡ text.old.items ++ row_line row)
        × ((live : TheLive) → id < live.count → IsRowOf (P.shelf pages.old) live places.now id row)) }
    ensures cause { IfErr result (λ fault. (live : TheLive) → id < live.count →
        HasReadCause live places.now (P.shelf pages.old) (P.shelf pages.new) fault) }
{
    let (page, number) = places.of(id);
    let node = pages.node(alloc, page, None)?;
    let Some(entry) = entry_of(node.as_ref(), number, id) else {
        return Err(DumpFault::Id(id));
    };
    Ok(push_row(entry, text)?)
}

// Puts the text and empties it. Where the output fails, the text stays.
fn put_text<K: Sink>(text: &mut Vec<u8>, out: &mut K) -> Result<(), Failed>
    ensures done { OnOk result (Appends (K.state out.old).written (K.state out.new).written text.old.items) }
    ensures empty { OnOk result (text.new.items ≡ []) }
    ensures cut { OnErr result (AppendsPrefix (K.state out.old).written (K.state out.new).written text.old.items) }
    ensures cause { HasSinkCause (K.state out.old).faults (K.state out.new).faults result }
{
    out.put(text.as_slice())?;
    text.clear();
    Ok(())
}

// Puts the text once it is long, and empties it.
fn put_long<K: Sink>(text: &mut Vec<u8>, out: &mut K) -> Result<(), Failed>
    ensures done { OnOk result ((old : SinkState) (count : ℕ) (front : List (ℕ × List ℕ)) →
        IsWriting old (K.state out.old) text.old.items count front → IsWriting old (K.state out.new) text.new.items count front) }
    ensures cut { OnErr result (AppendsPrefix (K.state out.old).written (K.state out.new).written text.old.items) }
    ensures cause { HasSinkCause (K.state out.old).faults (K.state out.new).faults result }
{
    if text.len() < PIECE {
        return Ok(());
    }
    put_text(text, out)
}

// Writes the script of objects that stand at their places.
fn write_rows<P: Pages, K: Sink>(
    alloc: Global,
    pages: &mut P,
    live: &Live,
    places: &Places,
    out: &mut K,
) -> Result<(), DumpStop>
    requires some { 1 ≤ live.now.count }
    requires long { length places.now ≡ live.now.count }
    requires are { IsTrue (P.shelf pages.old).is_known → ArePlaces (nodes_of (P.shelf pages.old).read) live.now places.now }
    ensures same { HoldsSame (P.shelf pages.old) (P.shelf pages.new) }
    ensures keeps { P.keeps pages.old pages.new }
    ensures done { OnOk result (PutsScript (P.shelf pages.old) live.now (K.state out.old).written (K.state out.new).written) }
    ensures stop { IfErr result (HasStop live.now (P.shelf pages.old) (P.shelf pages.new) (K.state out.old) (K.state out.new)) }
    ensures later { (K.state out.old).faults ≤ (K.state out.new).faults }
{
    let mut text = Vec::new(alloc);
    push_head(live.count, &mut text)?;
    for id in 0..live.count {
        push_object(alloc, pages, places, id, &mut text)?;
        put_long(&mut text, out)?;
    }
    Ok(put_text(&mut text, out)?)
}

/// Writes the objects of a tree as a script that makes them again. Memory is taken for a number an object and a few pages.
pub fn dump_pages<P: Pages, K: Sink>(
    alloc: Global,
    pages: &mut P,
    live: &Live,
    out: &mut K,
) -> Result<(), DumpStop>
    requires pages { (P.shelf pages.old).pages ≤ 2 ^ 24 }
    ensures same { HoldsSame (P.shelf pages.old) (P.shelf pages.new) }
    ensures keeps { P.keeps pages.old pages.new }
    ensures done { OnOk result (PutsScript (P.shelf pages.old) live.now (K.state out.old).written (K.state out.new).written) }
    ensures stop { IfErr result (HasStop live.now (P.shelf pages.old) (P.shelf pages.new) (K.state out.old) (K.state out.new)) }
    ensures later { (K.state out.old).faults ≤ (K.state out.new).faults }
{
    let places = places_of(alloc, pages, live)?;
    if live.count == 0 {
        return Ok(());
    }
    write_rows(alloc, pages, live, &places, out)
}
