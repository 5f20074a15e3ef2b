// The cuts that are tried of a file: every place of a small one, places around the edges of blocks, and places that noise chooses. Rests on
// the rest of this crate and on test_tools.
use crate::Made;
use test_tools::{Cuts, below, noise};

// A way to cut a file: once, at every place; in three around the edges of blocks; or where noise chooses.
#[derive(Clone, Copy, PartialEq)]
pub enum Way {
    Everywhere,
    AroundEdges,
    ByNoise,
}

// So many bytes past the beginning of a block, less 3.
fn near_edge(made: Made, block: usize, past: usize) -> usize {
    let at = made
        .start
        .wrapping_add(512 * (block % 40))
        .wrapping_add(past);
    at.saturating_sub(3)
}

// Two places within 3 bytes of the edges of blocks, by a number.
fn edge_cuts(made: Made, k: usize) -> Cuts {
    let edges = made.blocks % 40 + 1;
    Cuts {
        first: near_edge(made, k / 49 % edges, k % 7),
        second: near_edge(made, k / 49 / edges % edges, k / 7 % 7),
        step: 0,
    }
}

// Two places of the file and a step that noise chooses, apart from the noise that made it.
fn any_cuts(made: Made, number: u64, k: usize) -> Cuts {
    let most = made.long.wrapping_add(1) as u64;
    let seed = 555555 * (number % 1000000);
    let a = noise(noise(seed.wrapping_add(k as u64)));
    let b = noise(a);
    let c = noise(b);
    Cuts {
        first: below(a, most) as usize,
        second: below(b, most) as usize,
        step: (1 + below(c, 3000) % 3000) as usize,
    }
}

// The cut of a number.
pub fn cuts_by(way: Way, made: Made, number: u64, k: usize) -> Cuts {
    match way {
        Way::Everywhere => Cuts {
            first: k,
            second: k,
            step: 0,
        },
        Way::AroundEdges => edge_cuts(made, k),
        Way::ByNoise => any_cuts(made, number, k),
    }
}

// Whether a cut is tried: around edges, only if there are three pieces.
pub fn is_tried(way: Way, cuts: Cuts) -> bool {
    way != Way::AroundEdges || cuts.first < cuts.second
}

// How many pairs of places there are around the edges of so many blocks, with 7 places an edge; none are tried of a larger file.
fn edge_pairs(blocks: usize) -> usize {
    match blocks {
        1 => 196,
        2 => 441,
        3 => 784,
        _ => 0,
    }
}

// How many cuts: every place of a small file that has packets; all pairs of places around its edges; or four that noise chooses.
pub fn times_by(way: Way, made: Made, packets: u64) -> usize {
    let pairs = edge_pairs(made.blocks);
    let is_small = pairs != 0 && 12 <= packets;
    match way {
        Way::Everywhere if is_small => made.long.wrapping_add(1),
        Way::AroundEdges if is_small => pairs,
        Way::ByNoise => 4,
        _ => 0,
    }
}
