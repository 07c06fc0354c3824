//! Numbers, and faults of pages and of heads, as words of a line.
#![tactic(auto)]

ghost use Rattle.std.specs.Prelude.{◌≡◌, ◌++◌, OnOk};
ghost use Rattle.fault_lines.specs.Lines.{head_fault_name, node_fault_name, numbered, page_fault_text};

use itoa::Buffer;
use node_page::{HeadFault, NodeFault};
use page_store::PageFault;
use std::alloc::AllocError;

/// Appends a word and a number.
pub fn push_numbered(word: &[u8], n: u64, out: &mut Vec<u8>) -> Result<(), AllocError>
    ensures { OnOk result (out.new.items ≡ out.old.items ++ numbered word.now n) }
{
    out.extend_from_slice(word)?;
    let mut buffer = Buffer::new();
    out.extend_from_slice(buffer.format(n).as_bytes())
}

fn node_fault_name(fault: NodeFault) -> &'static [u8]
    ensures { result.now ≡ node_fault_name fault }
{
    match fault {
        NodeFault::Kind => b"kind",
        NodeFault::Count => b"count",
        NodeFault::Distance => b"distance",
        NodeFault::Tail => b"tail",
    }
}

/// Returns the word for why a page is no head.
pub fn head_fault_name(fault: HeadFault) -> &'static [u8]
    ensures { result.now ≡ head_fault_name fault }
{
    match fault {
        HeadFault::Magic => b"magic",
        HeadFault::Version => b"version",
        HeadFault::Space => b"space",
        HeadFault::Policy => b"policy",
        HeadFault::Limit => b"limit",
        HeadFault::Tail => b"tail",
    }
}

/// Appends why a page gave no node.
pub fn push_page_fault(fault: PageFault, out: &mut Vec<u8>) -> Result<(), AllocError>
    ensures { OnOk result (out.new.items ≡ out.old.items ++ page_fault_text fault) }
{
    match fault {
        PageFault::Bad(page, fault) => {
            push_numbered(b"bad ", u64::from(page), out)?;
            out.extend_from_slice(b" ")?;
            out.extend_from_slice(node_fault_name(fault))
        }
        PageFault::Outside(page) => push_numbered(b"outside ", u64::from(page), out),
        PageFault::Repeats(page) => push_numbered(b"repeats ", u64::from(page), out),
        PageFault::Level(page) => push_numbered(b"level ", u64::from(page), out),
        PageFault::Disk => out.extend_from_slice(b"disk"),
        PageFault::Memory => out.extend_from_slice(b"memory"),
    }
}
