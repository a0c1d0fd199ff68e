// The source's pairing heap in at most 96 cells. A cell stands for a list, whose head is a branch's link.
// Words and text stay two parameters: crate memory says why.
#![tactic(auto)]

ghost use Rattle.std.specs.Prelude.{◌≡◌, ℕ, ◌≤◌, ◌<◌, get_or, set};
ghost use Rattle.source.specs.Limits.{heaviest_list};
ghost use Rattle.source.specs.Heap.{EmptyHeap, heap_from_list};
ghost use Rattle.merge_heads.specs.Compare.{heads, beginnings, Head, Heads, cell_cmp};
ghost use Rattle.merge_heap.specs.Cells.{children, nexts, Root, Rep, AnyHeap, AnyForest, Merges, Inserts, Pairs, Pops, first_cells};

use merge_heads::{CELLS, Cell};

// No cell, in a link. The links are numbers of one byte, the heap's own memory: 192 bytes, where an Option of each is 384.
const NO_CELL: u8 = memory::HEAVIEST as u8;

// A cell's first child and its next sibling, 96 for none.
#[derive(Clone, Copy)]
pub struct Links {
    pub child: u8,
    pub next: u8,
}

// A heap: the links of each cell, and its root, which is 96 where it is empty.
#[derive(Clone, Copy)]
pub struct Heap {
    pub links: [Links; CELLS],
    pub root: usize,
}

impl Heap {
    // The empty heap. Links of a cell that is in no heap are not read; as zeros they are cleared with what stands beside the heap, in place.
    pub fn new() -> Heap
        ensures { Rep 0 (children result.links) (nexts result.links) result.root EmptyHeap }
    {
        Heap {
            links: [Links { child: 0, next: 0 }; CELLS],
            root: CELLS,
        }
    }

    // Puts the heap of root `w` before the children of `v`.
    fn link(&mut self, v: usize, w: usize) -> usize
        requires { (v < heaviest_list) × (w < heaviest_list) }
        ensures links { (result ≡ v) × (children self.new.links ≡ set (children self.old.links) v w)
            × (nexts self.new.links ≡ set (nexts self.old.links) w (get_or (children self.old.links) v 0)) }
        ensures root_stays { self.new.root ≡ self.old.root }
    {
        self.links[w].next = self.links[v].child;
        self.links[v].child = w as u8;
        v
    }

    // heap_merge, of the roots `a` and `b`.
    pub fn merge(
        &mut self,
        words: &[u32],
        text: &[u8],
        cells: &[Cell; CELLS],
        a: usize,
        b: usize,
    ) -> usize
        requires root { Root words.now text.now (heads cells.now) (beginnings cells.now) a }
        requires root_2 { Root words.now text.now (heads cells.now) (beginnings cells.now) b }
        ensures merges { (n : ℕ) → n ≤ heaviest_list → Merges (cell_cmp words.now text.now (heads cells.now)) n
            (children self.old.links) (nexts self.old.links) (children self.new.links)
            (nexts self.new.links) result a b }
        ensures root_stays { self.new.root ≡ self.old.root }
    {
        if a == CELLS {
            return b;
        }
        if b == CELLS {
            return a;
        }
        if merge_heads::cell_cmp(words, text, cells, a, b).is_lt() {
            self.link(a, b)
        } else {
            self.link(b, a)
        }
    }

    // heap_insert, of the cell `v`.
    pub fn insert(&mut self, words: &[u32], text: &[u8], cells: &[Cell; CELLS], v: usize)
        requires root { Root words.now text.now (heads cells.now) (beginnings cells.now) self.old.root }
        requires head { Head words.now text.now (heads cells.now) (beginnings cells.now) v }
        ensures { (n : ℕ) → n ≤ heaviest_list → v < n → Inserts (cell_cmp words.now text.now (heads cells.now)) n
            (children self.old.links) (nexts self.old.links) (children self.new.links)
            (nexts self.new.links) self.new.root self.old.root v }
    {
        self.links[v].child = NO_CELL;
        self.root = self.merge(words, text, cells, v, self.root);
    }

    // heap_merge_pairs, of the heaps of root `i` and of its next siblings: each two are merged, and what comes of them
    // is put before what came of the ones before, by `next`; then all is merged, the last one first. The loops go by links that they change.
    pub fn merge_pairs(
        &mut self,
        words: &[u32],
        text: &[u8],
        cells: &[Cell; CELLS],
        i: usize,
    ) -> usize
        requires { AnyForest words.now text.now (heads cells.now) (beginnings cells.now)
            (children self.old.links) (nexts self.old.links) i }
        ensures pairs { (n : ℕ) → n ≤ heaviest_list → Pairs (cell_cmp words.now text.now (heads cells.now)) n
            (children self.old.links) (nexts self.old.links) (children self.new.links) (nexts self.new.links) result i }
        ensures root_stays { self.new.root ≡ self.old.root }
    {
        let mut stack = CELLS;
        let mut at = i;
        while at != CELLS {
            let k = usize::from(self.links[at].next);
            if k == CELLS {
                self.links[at].next = stack as u8;
                stack = at;
                at = CELLS;
            } else {
                let rest = usize::from(self.links[k].next);
                let m = self.merge(words, text, cells, at, k);
                self.links[m].next = stack as u8;
                stack = m;
                at = rest;
            }
        }
        let mut r = CELLS;
        while stack != CELLS {
            let below = usize::from(self.links[stack].next);
            r = self.merge(words, text, cells, stack, r);
            stack = below;
        }
        r
    }

    // heap_pop: the least cell.
    pub fn pop(&mut self, words: &[u32], text: &[u8], cells: &[Cell; CELLS]) -> Option<usize>
        requires { AnyHeap words.now text.now (heads cells.now) (beginnings cells.now)
            (children self.old.links) (nexts self.old.links) self.old.root }
        ensures { (n : ℕ) → n ≤ heaviest_list → Pops (cell_cmp words.now text.now (heads cells.now)) n
            (children self.old.links) (nexts self.old.links) (children self.new.links) (nexts self.new.links)
            self.old.root self.new.root result }
    {
        if self.root == CELLS {
            return None;
        }
        let least = self.root;
        self.root = self.merge_pairs(words, text, cells, usize::from(self.links[least].child));
        Some(least)
    }

    // heap_from_list, of the cells below `n`, the first one first. It is made in place, whatever was here.
    pub fn fill(&mut self, words: &[u32], text: &[u8], cells: &[Cell; CELLS], n: usize)
        requires { Heads words.now text.now (heads cells.now) (beginnings cells.now) n }
        ensures { Rep n (children self.new.links) (nexts self.new.links) self.new.root
            (heap_from_list (cell_cmp words.now text.now (heads cells.now)) (first_cells n)) }
    {
        self.root = CELLS;
        for v in 0..n {
            self.insert(words, text, cells, v);
        }
    }
}
