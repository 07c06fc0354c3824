ghost use Rattle.std.specs.Prelude.{◌≡◌, ◌⊎◌, ◌≤◌, length, replicate, option_copied, IfOk, Ok, None};
ghost use Rattle.page_cache.specs.Lines.{held_node, holding, line_of, node_on_line};

use page_store::SharedNode;
use std::alloc::{AllocError, Global};
use std::marker::Model;

/// The lines of a direct-mapped cache of nodes. A page has the line whose number is the page's, modulo the number of lines.
/// Contracts see the lines.
#[derive(Drop)]
pub struct Lines {
    lines: Vec<Option<(u32, SharedNode)>>,
}

impl Model for Lines {
    ghost use Rattle.std.specs.Prelude.{◌≤◌, length};
    ghost use Rattle.page_cache.specs.Lines.{Lines as TheLines};

    ghost Value = { TheLines };

    ghost view = { λ l. l.lines.items };

    ghost invariant = { λ l. 1 ≤ length l.lines.items };
}

// Returns the node that a line holds for page `page`, if it does.
fn node_on_line(line: &Option<(u32, SharedNode)>, page: u32) -> Option<&SharedNode>
    ensures { option_copied result ≡ node_on_line page line.now }
{
    match line {
        Some((held, node)) if *held == page => Some(node),
        _ => None,
    }
}

impl Lines {
    // Makes `count` lines, at least 1, that hold nothing.
    pub(crate) fn new(alloc: Global, count: usize) -> Result<Self, AllocError>
        requires { 1 ≤ count }
        ensures { IfOk result (λ lines. lines ≡ replicate count None) }
    {
        let mut lines = Vec::with_capacity(alloc, count)?;
        for _ in 0..count {
            lines.push(None)?;
        }
        Ok(Lines { lines })
    }

    // Returns the number of the line of page `page`.
    fn line_of(&self, page: u32) -> usize
        ensures { result ≡ line_of self.now page }
    {
        page as usize % self.lines.len()
    }

    // Returns the node that is held for page `page`, if it is.
    pub(crate) fn share_of(&self, page: u32) -> Result<Option<SharedNode>, AllocError>
        ensures found { IfOk result (λ node. node ≡ held_node self.now page) }
        ensures unheld { held_node self.now page ≡ None → result ≡ Ok None }
    {
        match node_on_line(&self.lines[self.line_of(page)], page) {
            Some(node) => Ok(Some(node.share()?)),
            None => Ok(None),
        }
    }

    // Holds a page's node on its line, unless its holders can't be counted.
    pub(crate) fn hold(&mut self, page: u32, node: &SharedNode)
        ensures { (self.new ≡ holding self.old page node.now) ⊎ (self.new ≡ self.old) }
    {
        let line = self.line_of(page);
        if let Ok(shared) = node.share() {
            self.lines[line] = Some((page, shared));
        }
    }
}
