// What a list or a trie is made of, put as one record: a tree in front of a list, a list imported in front of a list, the trie of two lists.
#![tactic(auto)]

ghost use Rattle.std.specs.Prelude.{◌≡◌, ◌+◌, ◌<◌, ◌≤◌};
ghost use Rattle.source.specs.Limits.{heaviest_list, deepest_trie};
ghost use Rattle.memory.specs.Stored.{weight_in, depth_in};
ghost use Rattle.memory.specs.Grown.{put};
ghost use Rattle.insert_record.specs.Made.{Room, collection_over, MadeNames, MadeImported, MadeTrie};

use memory::{Collection, Span, Trie};

// Puts the record of a collection, with the greater depth of its two links. The answer is its link.
fn put_collection(words: &mut [u32], records: u32, kind: u32, c: Collection) -> u32
    requires room { Room words.old records 1 }
    requires own_le_records { (c.own ≤ records) × (c.rest ≤ records) }
    ensures value { result ≡ records + 1 }
    ensures words_value { words.new ≡ put words.old records (collection_over words.old kind c) }
{
    let depth = memory_access::depth_of(words, c.own).max(memory_access::depth_of(words, c.rest));
    let row = memory_access::make::collection_row(kind, c, depth);
    memory_access::put_row(words, records, &row);
    records + 1
}

// Puts the tree `own` in front of the list `rest`. The answer is the new list.
pub fn put_names(words: &mut [u32], records: u32, kind: u32, own: u32, rest: u32) -> u32
    requires room { Room words.old records 1 }
    requires own_le_records { (own ≤ records) × (rest ≤ records) × (weight_in words.old rest < heaviest_list) }
    ensures value { result ≡ records + 1 }
    ensures made_names { MadeNames words.old words.new records kind own rest result }
{
    let weight = memory_access::weight_of(words, rest) + 1;
    let c = Collection {
        imported: false,
        label: Span { start: 0, len: 0 },
        own,
        rest,
        weight,
    };
    put_collection(words, records, kind, c)
}

// Puts the list `inner`, imported under a label, in front of `list`. The answer is the new list.
pub fn imported(
    words: &mut [u32],
    records: u32,
    kind: u32,
    label: Span,
    inner: u32,
    list: u32,
) -> u32
    requires room { Room words.old records 1 }
    requires inner_le_records { (inner ≤ records) × (list ≤ records)
        × (weight_in words.old inner + weight_in words.old list < heaviest_list) }
    ensures value { result ≡ records + 1 }
    ensures made_imported { MadeImported words.old words.new records kind label.start label.len inner list result }
{
    let weight = memory_access::weight_of(words, inner) + memory_access::weight_of(words, list) + 1;
    let c = Collection {
        imported: true,
        label,
        own: inner,
        rest: list,
        weight,
    };
    put_collection(words, records, kind, c)
}

// Puts the trie of two lists. The answer is its link.
pub fn put_trie(words: &mut [u32], records: u32, kind: u32, bindings: u32, namespaces: u32) -> u32
    requires room { Room words.old records 1 }
    requires namespaces_le_records { (namespaces ≤ records) × (depth_in words.old namespaces ≤ deepest_trie) }
    ensures value { result ≡ records + 1 }
    ensures made_trie { MadeTrie words.old words.new records kind bindings namespaces result }
{
    let t = Trie {
        bindings,
        namespaces,
        depth: memory_access::depth_of(words, namespaces),
    };
    let row = memory_access::make::trie_row(kind, t);
    memory_access::put_row(words, records, &row);
    records + 1
}
