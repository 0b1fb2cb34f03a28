//! A graph of nodes that need other nodes, a step of the graph's order, and the reasons why there
//! is no order.

use pb_data::{Items, Text};
use std::alloc::{AllocError, AllocFailed};

/// A node of the graph.
#[derive(Drop)]
pub struct Node {
    /// The key of the node. No two nodes have the same key.
    pub key: Text,
    /// The numbers of the nodes that this node needs.
    pub needs: Items<usize>,
}

/// A node at its position in an order.
#[derive(Drop)]
pub struct Step {
    /// The number of the node.
    pub node: usize,
    /// Its key.
    pub key: Text,
    /// The level: 0 if the node needs no nodes. Otherwise the level is one more than the greatest
    /// level of the nodes that it needs.
    pub level: usize,
    /// The nodes that this node needs, as ascending indices into the order.
    pub needs: Items<usize>,
    /// All nodes that this node reaches, as ascending indices into the order.
    pub reaches: Items<usize>,
}

/// Why there is no order.
#[derive(Debug, Drop)]
pub enum OrderFault {
    /// Out of memory.
    OutOfMemory,
    /// These nodes reach themselves. The nodes are sorted by the bytes of their keys.
    Circle(Items<usize>),
    /// There are more nodes than allowed.
    TooMany,
}

impl From<AllocError> for OrderFault {
    ghost use Rattle.std.specs.Prelude.{◌≡◌};
    ghost use Rattle.pb_graph.specs.declared.graph.OrderFault.TheVariants.{OutOfMemory};

    ghost from_gives = { λ _ e. e ≡ OutOfMemory };

    fn from(_: AllocError) -> Self {
        OrderFault::OutOfMemory
    }
}

impl<T: Drop> From<AllocFailed<T>> for OrderFault {
    ghost use Rattle.std.specs.Prelude.{◌≡◌};
    ghost use Rattle.pb_graph.specs.declared.graph.OrderFault.TheVariants.{OutOfMemory};

    ghost from_gives = { λ _ e. e ≡ OutOfMemory };

    fn from(_: AllocFailed<T>) -> Self {
        OrderFault::OutOfMemory
    }
}
