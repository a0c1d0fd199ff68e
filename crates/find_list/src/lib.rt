// Lists of collections of the record memory: find, and the place of a key.
// A list is the link of its first collection; the same functions serve both tables and both levels.
// Words and text stay two parameters: crate memory says why.
#![tactic(auto)]

ghost use Rattle.std.specs.Prelude.{◌*◌, ◌≤◌, ◌<◌, length, IfSome};
ghost use Rattle.std.specs.Option.{unwrap_or};
ghost use Rattle.source.specs.Limits.{record_words};
ghost use Rattle.find_list.specs.Names.{AnyList, Led, Holder, NamesPlaced};

// The tree that a list begins with, 0 for none, and the rest after it: words of the memory, walked on as such.
#[derive(Clone, Copy)]
pub struct Lead {
    pub tree: u32,
    pub rest: u32,
}

pub fn lead_of(words: &[u32], list: u32) -> Lead
    requires { list * record_words ≤ length words.now }
    ensures { Led words.now list result.tree result.rest }
{
    if list == 0 {
        return Lead { tree: 0, rest: 0 };
    }
    let c = memory_access::collection_of(words, list);
    if c.imported {
        return Lead {
            tree: 0,
            rest: list,
        };
    }
    Lead {
        tree: c.own,
        rest: c.rest,
    }
}

// The branch of the first holder of a key. The calls of itself go no deeper than the weight of the list.
pub fn names_find_exact(words: &[u32], text: &[u8], list: u32, key: &[u8]) -> Option<u32>
    requires { AnyList words.now text.now list }
    ensures nonzero { IfSome result (λ link. 0 < link) }
    ensures found { Holder words.now text.now list key.now (unwrap_or result 0) }
{
    let mut link = list;
    // Along links of the memory, where 0 is none: no index.
    while 0 < link {
        let own = memory_access::own_of(words, link);
        let found = if memory_access::sort_of(words, link) == memory::IMPORTED {
            names_find_exact(words, text, own, key)
        } else {
            find_tree::btree_find_exact(words, text, own, key)
        };
        if found.is_some() {
            return found;
        }
        link = memory_access::rest_of(words, link);
    }
    None
}

// The branch of the first holder of a key; how many branches an insertion of the key builds; the weight of the list that it gives.
#[derive(Clone, Copy)]
pub struct NamesPlace {
    pub holder: Option<u32>,
    pub count: u32,
    pub weight: u32,
}

pub fn names_place(words: &[u32], text: &[u8], list: u32, key: &[u8]) -> NamesPlace
    requires { AnyList words.now text.now list }
    ensures { NamesPlaced words.now text.now list key.now result.holder result.count result.weight }
{
    let lead = lead_of(words, list);
    let place = find_tree::place_of(words, text, lead.tree, key);
    let mut holder = place.link;
    if holder.is_none() {
        holder = names_find_exact(words, text, lead.rest, key);
    }
    NamesPlace {
        holder,
        count: place.count,
        weight: memory_access::weight_of(words, lead.rest) + 1,
    }
}
