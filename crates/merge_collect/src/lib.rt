// The trees of a list of collections that have a match, in flattened order, one to a cell of a merge.
// Words and text stay two parameters: crate memory says why.
#![tactic(auto)]

ghost use Rattle.std.specs.Prelude.{◌+◌, ◌≤◌};
ghost use Rattle.source.specs.Limits.{heaviest_list};
ghost use Rattle.memory.specs.Stored.{weight_in};
ghost use Rattle.find_list.specs.Names.{AnyList};
ghost use Rattle.merge_collect.specs.Lists.{Collects};

use merge_heads::{CELLS, Cell};

// A list, the collection of the outermost label above it, and the cell of its first tree. Both links are words of the memory, where 0 is none.
#[derive(Clone, Copy)]
pub struct LabelledList {
    pub list: u32,
    pub label: u32,
    pub at: usize,
}

// The trees of a list that have a match, in flattened order, each with its first match and its outermost label.
// The answer is the cell after them. The calls go no deeper than the weight of the list.
pub fn collect(
    words: &[u32],
    text: &[u8],
    prefix: &[u8],
    part: LabelledList,
    cells: &mut [Cell; CELLS],
) -> usize
    requires any_list { AnyList words.now text.now part.list }
    requires list_bound { part.at + weight_in words.now part.list ≤ heaviest_list }
    ensures upper_bound { result ≤ part.at + weight_in words.now part.list }
    ensures collected { Collects words.now text.now prefix.now part.list part.label part.at result cells.old cells.new }
{
    if part.list == 0 {
        return part.at;
    }
    let own = memory_access::own_of(words, part.list);
    let rest = LabelledList {
        list: memory_access::rest_of(words, part.list),
        ..part
    };
    if memory_access::sort_of(words, part.list) == memory::IMPORTED {
        let imported = LabelledList {
            list: own,
            label: if part.label == 0 {
                part.list
            } else {
                part.label
            },
            at: part.at,
        };
        let mid = collect(words, text, prefix, imported, cells);
        let after = LabelledList { at: mid, ..rest };
        return collect(words, text, prefix, after, cells);
    }
    let Some(first) = match_next::tree_first(words, text, own, prefix) else {
        return collect(words, text, prefix, rest, cells);
    };
    cells[part.at].root = own;
    cells[part.at].label = part.label;
    merge_heads::set_head(words, text, cells, part.at, first);
    let after = LabelledList {
        at: part.at + 1,
        ..rest
    };
    collect(words, text, prefix, after, cells)
}
