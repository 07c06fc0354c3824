//! Laws of the spellings of heads, slots and nodes, and of the files that open.

ghost use Rattle.node_page.specs.Laws.{FaultIsNoHead, FaultIsNoNode, OneHeadPage, OneSlotPage, OneNodePage, FaultIsNotOpen, OneLiveSlot};

/// A page has no fault exactly where it spells a head.
pub fn fault_is_no_head()
    ensures { FaultIsNoHead }
{}

/// A head has one page.
pub fn one_head_page()
    ensures { OneHeadPage }
{}

/// An open slot has one page, and the pages of a closed one differ in the gate alone.
pub fn one_slot_page()
    ensures { OneSlotPage }
{}

/// A page of each version has no fault exactly where it spells a node over points of `dim` coordinates.
pub fn fault_is_no_node()
    ensures { FaultIsNoNode }
{}

/// A node has one page by each version.
pub fn one_node_page()
    ensures { OneNodePage }
{}

/// The bytes of a file have no fault exactly where they open to some head and some live slot.
pub fn fault_is_not_open()
    ensures { FaultIsNotOpen }
{}

/// The bytes of a file open to one head and one live slot.
pub fn one_live_slot()
    ensures { OneLiveSlot }
{}
