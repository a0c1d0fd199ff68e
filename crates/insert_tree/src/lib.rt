// Insertion into a tree, in place of a branch with the same key: the branches on the way down are copied.
// The way down is noted in the records that the copies take; the way up puts each copy where its note stood.
// Words and text stay two parameters: crate memory says why.
#![tactic(auto)]

ghost use Rattle.std.specs.Prelude.{◌+◌, ◌*◌, ◌≤◌, length};
ghost use Rattle.source.specs.Limits.{most_used, record_words};
ghost use Rattle.find_tree.specs.Tree.{AnyTree, Builds};
ghost use Rattle.insert_tree.specs.Insert.{NotePut, Marked, AnyInsertion, Inserts};

use std::cmp::Ordering;

// Notes a branch and a side in record number `at`.
fn put_note(words: &mut [u32], at: u32, link: u32, side: u32)
    requires { at * record_words + record_words ≤ length words.old }
    ensures { NotePut words.old words.new at link side }
{
    let base = at as usize * memory::ROW;
    words[base] = link;
    words[base + memory::NOTE_SIDE] = side;
}

// Notes the way down to the key: the root in the last of the `count` records after the used ones, each branch before the one above it.
fn note_path(words: &mut [u32], text: &[u8], records: u32, root: u32, count: u32, key: &[u8])
    requires any_tree { AnyTree words.old text.now root }
    requires builds { Builds words.old text.now root key.now count }
    requires root_le_records { (root ≤ records) × ((records + count) * record_words ≤ length words.old)
        × (records + count ≤ most_used) }
    ensures { Marked words.old words.new text.now key.now records root count }
{
    // The links lead down, the records are counted down beside: no range or slice has either.
    let mut at = records + count - 1;
    let mut link = root;
    while 0 < link {
        match find_tree::key_order(words, text, link, key) {
            Ordering::Less => {
                let next = memory_access::left_of(words, link);
                put_note(words, at, link, 0);
                link = next;
                at -= 1;
            }
            Ordering::Equal => {
                put_note(words, at, link, 0);
                return;
            }
            Ordering::Greater => {
                let next = memory_access::right_of(words, link);
                put_note(words, at, link, 1);
                link = next;
                at -= 1;
            }
        }
    }
    put_note(words, at, 0, 0);
}

// Puts the new branch `row` into the tree of `root`, in place of a branch with its key: the branches on the way down are copied, as many as place_of says.
// The new branches are the `count` records after the `records` used ones; the new root is the last.
pub fn btree_insert_replace(
    words: &mut [u32],
    text: &[u8],
    records: u32,
    root: u32,
    count: u32,
    row: [u32; memory::ROW],
) -> u32
    requires { AnyInsertion words.old text.now records root count row }
    ensures { Inserts words.old words.new text.now records root count row result }
{
    let start = row[memory::TEXT_START] as usize;
    let len = row[memory::TEXT_LEN] as usize;
    note_path(words, text, records, root, count, &text[start..start + len]);
    let low = insert_copy::lowest_row(words, records, row);
    memory_access::put_row(words, records, &low);
    let total = records + count;
    for at in records + 1..total {
        let next = insert_copy::raised_row(words, at);
        memory_access::put_row(words, at, &next);
    }
    total
}
