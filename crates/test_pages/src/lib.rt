//! Tests of pages: nodes, new pages, caches, the live root and free pages.
#![tactic(auto)]

#[cfg(test)]
mod caches;
#[cfg(test)]
mod free_lists;
#[cfg(test)]
mod nodes;
#[cfg(test)]
mod pages;
#[cfg(test)]
mod roots;
#[cfg(test)]
mod settling;
#[cfg(test)]
mod shapes;
