//! A search along edges, deep before wide, without recursion.
ghost use Rattle.std.specs.Prelude.{◌≡◌, ◌<◌, ◌≤◌, length, All, IfOk, OnOk};
ghost use Rattle.vod_components.specs.Search.{IsSearch};

use std::alloc::{AllocError, Global};
use vod_fanout::FanOut;

/// A search: what it found, and where it stands.
#[derive(Drop)]
pub struct Search {
    /// How many nodes were found before each; `UNFOUND` for one that wasn't.
    pub found: Vec<u32>,
    /// The tree of each node: how many trees were begun before.
    pub trees: Vec<u32>,
    /// The node that each tree begins with.
    pub firsts: Vec<u32>,
    /// The nodes in the order in which the search left them.
    pub left: Vec<u32>,
    // How many edges of each node were followed.
    followed: Vec<u32>,
    // The nodes from a tree's first to the one where the search stands.
    path: Vec<u32>,
    // How many nodes were found.
    count: u32,
    // The tree that is searched.
    tree: u32,
}

const UNFOUND: u32 = u32::MAX;

/// Searches from each of these nodes in turn that wasn't found from one before.
pub fn search_all(
    alloc: Global,
    count: u32,
    table: &FanOut,
    starts: &[u32],
) -> Result<Search, AllocError>
    requires size { length table.now ≡ count }
    requires inside { All (λ ps. All (λ p. p < count) ps) table.now }
    requires starts { All (λ p. p < count) starts.now }
    ensures { IfOk result (IsSearch count) }
{
    let mut search = Search::new(alloc, count)?;
    for start in starts {
        search.begin(*start)?;
        search.grow(table)?;
    }
    Ok(search)
}

impl Search {
    // A search that has found nothing.
    fn new(alloc: Global, count: u32) -> Result<Search, AllocError>
        ensures { IfOk result (IsSearch count) }
    {
        let count = count as usize;
        Ok(Search {
            found: vec![in alloc; UNFOUND; count]?,
            trees: vec![in alloc; 0; count]?,
            firsts: Vec::new(alloc),
            left: Vec::new(alloc),
            followed: vec![in alloc; 0; count]?,
            path: Vec::new(alloc),
            count: 0,
            tree: 0,
        })
    }

    // Begins a tree with a node, unless that was found.
    fn begin(&mut self, node: u32) -> Result<(), AllocError>
        requires node { node < length self.old.found.items }
        requires search { IsSearch (length self.old.found.items) self.old }
        ensures size { OnOk result (length self.new.found.items ≡ length self.old.found.items) }
        ensures search { OnOk result (IsSearch (length self.new.found.items) self.new) }
    {
        if self.found[node as usize] != UNFOUND {
            return Ok(());
        }
        self.tree = u32::try_from(self.firsts.len()).unwrap_or(u32::MAX);
        self.firsts.push(node)?;
        self.find(node)
    }

    // Goes on until the tree has no more.
    fn grow(&mut self, table: &FanOut) -> Result<(), AllocError>
        requires size { length table.now ≡ length self.old.found.items }
        requires inside { All (λ ps. All (λ p. p < length table.now) ps) table.now }
        requires search { IsSearch (length self.old.found.items) self.old }
        ensures size { OnOk result (length self.new.found.items ≡ length self.old.found.items) }
        ensures search { OnOk result (IsSearch (length self.new.found.items) self.new) }
    {
        for _ in 0..u64::MAX {
            let Some(node) = self.path.pop() else {
                return Ok(());
            };
            self.follow(node, table.of(node))?;
        }
        Ok(())
    }

    // Follows the next edge of the node where the search stands, or leaves the node where none is left.
    fn follow(&mut self, node: u32, next: &[u32]) -> Result<(), AllocError>
        requires node { node < length self.old.found.items }
        requires inside { All (λ p. p < length self.old.found.items) next.now }
        requires search { IsSearch (length self.old.found.items) self.old }
        ensures size { OnOk result (length self.new.found.items ≡ length self.old.found.items) }
        ensures search { OnOk result (IsSearch (length self.new.found.items) self.new) }
    {
        let at = self.followed[node as usize];
        match next.get(at as usize) {
            Some(other) => {
                self.followed[node as usize] = at.saturating_add(1);
                self.path.push(node)?;
                self.find(*other)
            }
            None => {
                self.left.push(node)?;
                Ok(())
            }
        }
    }

    // Goes to a node, unless it was found.
    fn find(&mut self, node: u32) -> Result<(), AllocError>
        requires node { node < length self.old.found.items }
        requires search { IsSearch (length self.old.found.items) self.old }
        ensures size { OnOk result (length self.new.found.items ≡ length self.old.found.items) }
        ensures search { OnOk result (IsSearch (length self.new.found.items) self.new) }
    {
        if self.found[node as usize] != UNFOUND {
            return Ok(());
        }
        self.found[node as usize] = self.count;
        self.trees[node as usize] = self.tree;
        self.count = self.count.saturating_add(1);
        self.path.push(node)?;
        Ok(())
    }
}
