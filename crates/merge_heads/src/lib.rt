// The lists of a merge, at most 96: each has a cell, with a tree, its label and its head, a branch's link. How two cells compare.
// Words and text stay two parameters: crate memory says why.
#![tactic(auto)]

ghost use Rattle.std.specs.Prelude.{◌≡◌, ◌<◌, pos, ◌-ℤ◌};
ghost use Rattle.source.specs.Limits.{heaviest_list};
ghost use Rattle.source.specs.Text.{string_compare};
ghost use Rattle.text.specs.Text.{ordering};
ghost use Rattle.memory.specs.Layout.{key_at};
ghost use Rattle.memory.specs.Read.{TextIn};
ghost use Rattle.merge_heads.specs.Compare.{heads, beginnings, Head, HeadSet, cell_cmp};

use std::cmp::Ordering;

// How many lists a merge takes, and so how many cells there are. As a cell it is none.
pub const CELLS: usize = memory::HEAVIEST as usize;

// A list of a merge: a tree and its label, the branch at hand and the beginning of that one's key.
#[derive(Clone, Copy)]
pub struct Cell {
    pub root: u32,
    pub label: u32,
    pub head: u32,
    pub beginning: u64,
}

// A cell without a list.
pub const EMPTY: Cell = Cell {
    root: 0,
    label: 0,
    head: 0,
    beginning: 0,
};

// Gives a cell the head `branch`, with the beginning of its key.
pub fn set_head(words: &[u32], text: &[u8], cells: &mut [Cell; CELLS], cell: usize, branch: u32)
    requires text_in { TextIn words.now text.now branch }
    requires cell_lt_heaviest_list { cell < heaviest_list }
    ensures { HeadSet words.now text.now cells.old cells.new cell branch }
{
    cells[cell] = Cell {
        head: branch,
        beginning: text::beginning(memory_access::key_of(words, text, branch)),
        ..cells[cell]
    };
}

// How the keys of two branches compare.
fn compare_keys(words: &[u32], text: &[u8], x: u32, y: u32) -> Ordering
    requires text_in { TextIn words.now text.now x }
    requires text_in_2 { TextIn words.now text.now y }
    ensures { ordering result ≡ string_compare (key_at words.now text.now x) (key_at words.now text.now y) }
{
    text::string_compare(
        memory_access::key_of(words, text, x),
        memory_access::key_of(words, text, y),
    )
    .order
}

// The signed difference of two cells' priorities, which are their places.
#[tactic(auto, using(crate::proofs::Compare::difference_fits))]
fn difference(a: usize, b: usize) -> i32
    requires { (a < heaviest_list) × (b < heaviest_list) }
    ensures { result ≡ pos a -ℤ pos b }
{
    a as i32 - b as i32
}

// The comparator of merge_increasing_lists_rev: by the keys of the heads, then by priority, which is a cell's place: the first holder comes first.
// The keys are read only where their beginnings are the same.
pub fn cell_cmp(words: &[u32], text: &[u8], cells: &[Cell; CELLS], a: usize, b: usize) -> Ordering
    requires head { Head words.now text.now (heads cells.now) (beginnings cells.now) a }
    requires head_2 { Head words.now text.now (heads cells.now) (beginnings cells.now) b }
    ensures { ordering result ≡ cell_cmp words.now text.now (heads cells.now) a b }
{
    match cells[a].beginning.cmp(&cells[b].beginning) {
        Ordering::Equal => {
            let place = difference(a, b).cmp(&0);
            compare_keys(words, text, cells[a].head, cells[b].head).then(place)
        }
        unequal => unequal,
    }
}
