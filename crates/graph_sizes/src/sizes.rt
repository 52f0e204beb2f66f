// How large graphs are.

use icr_graph::Graph;
use ir_ids::{BlockId, ContId, Id};
use std::fmt;

/// How many forms there are, and how many nodes, blocks and continuations their graphs have.
#[derive(Clone, Copy)]
pub struct Sizes {
    forms: u64,
    nodes: u64,
    blocks: u64,
    conts: u64,
}

impl Sizes {
    /// Those of no form.
    pub fn none() -> Self {
        Sizes {
            forms: 0,
            nodes: 0,
            blocks: 0,
            conts: 0,
        }
    }

    /// Those of these forms and others together.
    pub fn and(self, other: Sizes) -> Self {
        Sizes {
            forms: self.forms.saturating_add(other.forms),
            nodes: self.nodes.saturating_add(other.nodes),
            blocks: self.blocks.saturating_add(other.blocks),
            conts: self.conts.saturating_add(other.conts),
        }
    }
}

impl fmt::Display for Sizes {
    fn fmt<W: fmt::Write>(&self, f: &mut fmt::Formatter<W>) -> fmt::Result {
        let Sizes {
            forms,
            nodes,
            blocks,
            conts,
        } = self;
        write!(
            f,
            "forms {forms}, nodes {nodes}, blocks {blocks}, continuations {conts}"
        )
    }
}

/// How many continuations a new graph has: their numbers begin at 0, without a gap.
fn conts_of(graph: &Graph) -> u64 {
    for number in 0..usize::MAX {
        if graph.cont(ContId::of(number)).is_none() {
            return number as u64;
        }
    }
    u64::MAX
}

/// The sizes of a new graph, with the blocks numbered as the continuations.
pub fn sizes_of(graph: &Graph) -> Sizes {
    let mut sizes = Sizes {
        forms: 1,
        nodes: 0,
        blocks: 0,
        conts: conts_of(graph),
    };
    for number in 0..usize::MAX {
        let Some(block) = graph.block(BlockId::of(number)) else {
            break;
        };
        sizes.blocks = sizes.blocks.saturating_add(1);
        sizes.nodes = sizes.nodes.saturating_add(block.nodes.len() as u64);
    }
    sizes
}
