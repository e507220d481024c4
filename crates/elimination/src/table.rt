//! The decomposition table: the wiring of a rung, node by node.
ghost use Rattle.std.specs.Prelude.{◌≡◌, ℕ, ◌+◌, ◌<◌, true, [], length};
ghost use Rattle.rows.specs.Rows.{parts_of};
ghost use Rattle.elimination.specs.Trees.{lower, tree_at, formed, Under};

use rows::Row;

/// A link by its number, or two parts by their positions in the table.
// Parts are positions and not owned boxes, since memory is fixed and there is no heap.
#[derive(Clone, Copy)]
pub enum Node {
    Link(u8),
    Series(u8, u8),
    Parallel(u8, u8),
}

impl Default for Node {
    ghost use Rattle.elimination.specs.declared.table.Node.TheVariants.{Link};

    ghost is_default = { λ node. node ≡ Link 0 };

    /// Link 0.
    fn default() -> Node {
        Node::Link(0)
    }
}

/// Room for the nodes of a rung of 64 links. The parts of a node stand at lower positions.
#[derive(Clone, Copy)]
pub struct Table {
    pub nodes: Row<Node, 127>,
    ghost falls: { lower 0 (parts_of nodes) ≡ true },
}

impl Table {
    /// An empty table.
    pub fn new() -> Table
        ensures { parts_of result.nodes ≡ [] }
    {
        Table { nodes: Row::new() }
    }

    /// The node at a position, whose parts stand at lower positions; past the end it is link 0.
    pub fn node(&self, at: u8) -> Node
        ensures tree { tree_at (parts_of self.now.nodes) at ≡ formed (tree_at (parts_of self.now.nodes)) result }
        ensures below { Under at result }
    {
        self.nodes
            .get(at as usize)
            .copied()
            .unwrap_or(Node::Link(0))
    }

    /// Puts a node whose parts stand in the table at its end, and gives its position.
    pub(crate) fn push(&mut self, node: Node) -> u8
        requires room { length (parts_of self.old.nodes) < 127 }
        requires falls { Under (length (parts_of self.old.nodes)) node }
        ensures value { result ≡ length (parts_of self.old.nodes) }
        ensures len { length (parts_of self.new.nodes) ≡ length (parts_of self.old.nodes) + 1 }
        ensures tree { tree_at (parts_of self.new.nodes) (length (parts_of self.old.nodes)) ≡ formed (tree_at (parts_of self.old.nodes)) node }
        ensures same { (i : ℕ) → i < length (parts_of self.old.nodes) → tree_at (parts_of self.new.nodes) i ≡ tree_at (parts_of self.old.nodes) i }
    {
        let at = self.nodes.len() as u8;
        let _ = self.nodes.push(node);
        at
    }
}
