// The branches of a list of collections that begin with a prefix, ascending, one of each key, the first holder's.
// Each comes with the collection that has its outermost label, 0 for none.
// Words and text stay two parameters: crate memory says why.
#![tactic(auto)]

ghost use Rattle.std.specs.Prelude.{◌≡◌, ◌<◌, ◌≤◌, ◌*◌, length};
ghost use Rattle.source.specs.Limits.{record_words};
ghost use Rattle.source.specs.Shared.{same};
ghost use Rattle.memory.specs.Layout.{key_at};
ghost use Rattle.find_tree.specs.Tree.{AnyTree};
ghost use Rattle.find_list.specs.Names.{AnyList};
ghost use Rattle.merge.specs.Single.{Single};
ghost use Rattle.merge_heads.specs.Compare.{labels};
ghost use Rattle.merge.specs.Stream.{state_of, CellsStand, TakesAll, Begins, Stands, Steps, CellLabel, last_after};

use merge_collect::LabelledList;
use merge_heads::{CELLS, Cell};
use merge_heap::Heap;

// A branch that is given, the collection of its outermost label, 0 for none, and the cell that it is of.
#[derive(Clone, Copy)]
pub struct Given {
    pub branch: u32,
    pub label: u32,
    pub cell: usize,
}

// A merge: its cells, how many have a tree, the heap of those that have a branch left, and the last branch given.
#[derive(Clone, Copy)]
pub struct Merge {
    pub cells: [Cell; CELLS],
    pub n: usize,
    pub heap: Heap,
    pub last: Option<u32>,
}

// The root of the only tree of a list, none where it is not one tree.
pub fn single(words: &[u32], list: u32) -> Option<u32>
    requires { list * record_words ≤ length words.now }
    ensures { Single words.now list result }
{
    if list == 0
        || memory_access::sort_of(words, list) == memory::IMPORTED
        || 0 < memory_access::rest_of(words, list)
    {
        return None;
    }
    Some(memory_access::own_of(words, list))
}

// Whether two branches have the same key.
fn same_key(words: &[u32], text: &[u8], a: u32, b: u32) -> bool
    requires a_nonzero { (0 < a) × AnyTree words.now text.now a }
    requires b_nonzero { (0 < b) × AnyTree words.now text.now b }
    ensures { result ≡ same (key_at words.now text.now a) (key_at words.now text.now b) }
{
    memory_access::key_of(words, text, a) == memory_access::key_of(words, text, b)
}

impl Merge {
    // Cells without a list.
    pub fn new() -> Merge
        ensures { result.n ≡ 0 }
    {
        Merge {
            cells: [merge_heads::EMPTY; CELLS],
            n: 0,
            heap: Heap::new(),
            last: None,
        }
    }

    // The merge of a list: one cell for each tree that has a match. It is made in place: a function that returns it copies its 2500 bytes twice,
    // which takes 44 ns of a listing's 300 for a namespace.
    pub fn start(&mut self, words: &[u32], text: &[u8], prefix: &[u8], list: u32)
        requires { AnyList words.now text.now list }
        ensures { Begins words.now text.now prefix.now list self.new }
    {
        let whole = LabelledList {
            list,
            label: 0,
            at: 0,
        };
        self.n = merge_collect::collect(words, text, prefix, whole, &mut self.cells);
        self.heap.fill(words, text, &self.cells, self.n);
        self.last = None;
    }

    // Takes the least cell out of the heap, and puts it back with its tree's next match, if there is one.
    fn take(&mut self, words: &[u32], text: &[u8], prefix: &[u8]) -> Option<Given>
        requires { CellsStand words.now text.now prefix.now (state_of self.old) }
        ensures { TakesAll words.now text.now prefix.now (state_of self.old) (state_of self.new) result }
    {
        let least = self.heap.pop(words, text, &self.cells)?;
        let cell = self.cells[least];
        match match_next::tree_next(words, text, cell.root, prefix, cell.head) {
            Some(after) => {
                merge_heads::set_head(words, text, &mut self.cells, least, after);
                self.heap.insert(words, text, &self.cells, least);
            }
            None => self.cells[least].root = 0,
        }
        Some(Given {
            branch: cell.head,
            label: cell.label,
            cell: least,
        })
    }

    // The next branch: of the branches with a key the first that the heap gives.
    pub fn next(&mut self, words: &[u32], text: &[u8], prefix: &[u8]) -> Option<Given>
        requires { Stands words.now text.now prefix.now (state_of self.old) }
        ensures gives { Steps words.now text.now prefix.now (state_of self.old) result (state_of self.new) }
        ensures label_is { CellLabel (labels self.old.cells) result }
        ensures n_stays { self.new.n ≡ self.old.n }
        ensures labels_stay { labels self.new.cells ≡ labels self.old.cells }
        ensures last_is { self.new.last ≡ last_after self.old.last result }
    {
        while let Some(given) = self.take(words, text, prefix) {
            let again = match self.last {
                Some(last) => same_key(words, text, given.branch, last),
                None => false,
            };
            if !again {
                self.last = Some(given.branch);
                return Some(given);
            }
        }
        // At the end the cells and their labels stay.
        None
    }
}
