// Lists of collections of the record memory: insertion, the same for both tables and both levels.
// Words and text stay two parameters: crate memory says why.
#![tactic(auto)]

ghost use Rattle.std.specs.Prelude.{◌≡◌, ◌+◌};
ghost use Rattle.insert_list.specs.Insert.{AnyNamesInsertion, NamesInserts};

// Inserts the branch `row` into the first tree of a list, which builds `count` branches, and puts that tree in front of the rest.
// The answer is the new list.
pub fn names_insert(
    words: &mut [u32],
    text: &[u8],
    records: u32,
    list: u32,
    count: u32,
    row: [u32; memory::ROW],
) -> u32
    requires { AnyNamesInsertion words.old text.now records list count row }
    ensures value { result ≡ records + count + 1 }
    ensures names_inserts { NamesInserts words.old words.new text.now records list count row result }
{
    let lead = find_list::lead_of(words, list);
    let tree = insert_tree::btree_insert_replace(words, text, records, lead.tree, count, row);
    insert_record::put_names(
        words,
        records + count,
        row[memory::KIND] + memory::LIST_OF,
        tree,
        lead.rest,
    )
}
