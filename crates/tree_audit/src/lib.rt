//! The auditor: checks whether a whole tree is sound, and if not, returns its first fault in a fixed order.
#![tactic(auto)]

mod auditing;
mod faults;
pub mod laws;
mod met;
mod parts;
mod walking;

pub use auditing::{Audited, audit};
pub use faults::AuditFault;
pub use parts::{Part, audit_part, join_parts};
