// The words of new records, as crates/memory/specs/Made.antt has them: all twelve, in the order of the memory format.
ghost use Rattle.std.specs.Prelude.{◌≡◌, ◌≤◌, length};
ghost use Rattle.source.specs.Limits.{record_words};
ghost use Rattle.memory.specs.Made.{binding_row, symbol_row, namespace_row, sided_row, collection_row, trie_row};

use memory::{
    BINDING_KIND, Collection, DEPTH, LEFT, ModSymbol, NAMESPACE_KIND, OF_MODULES, RIGHT, ROW, Span,
    Trie,
};
use source::LidSymbol;

// A branch of names: its key and its item. Its sides are none.
pub fn binding_row(key: Span, item: LidSymbol) -> [u32; ROW]
    ensures { result ≡ binding_row key item }
{
    let kind = item.kind;
    [
        BINDING_KIND,
        key.start,
        key.len,
        0,
        0,
        item.number,
        u32::from(kind),
        0,
        0,
        0,
        0,
        0,
    ]
}

// A branch of modules: its key and its mod symbol.
pub fn symbol_row(key: Span, symbol: ModSymbol) -> [u32; ROW]
    ensures { result ≡ symbol_row key symbol }
{
    match symbol {
        ModSymbol::Module(name, path, loaded) => [
            BINDING_KIND + OF_MODULES,
            key.start,
            key.len,
            0,
            0,
            0,
            name.start,
            name.len,
            path.start,
            path.len,
            u32::from(loaded),
            0,
        ],
        ModSymbol::Namespace(name, loaded) => [
            BINDING_KIND + OF_MODULES,
            key.start,
            key.len,
            0,
            0,
            1,
            name.start,
            name.len,
            0,
            0,
            u32::from(loaded),
            0,
        ],
    }
}

// A branch of namespaces: its key and its trie. `of` is 0, or OF_MODULES.
pub fn namespace_row(of: u32, key: Span, trie: u32) -> [u32; ROW]
    requires { of ≤ 5 }
    ensures { result ≡ namespace_row of key trie }
{
    [
        of + NAMESPACE_KIND,
        key.start,
        key.len,
        0,
        0,
        trie,
        0,
        0,
        0,
        0,
        0,
        0,
    ]
}

// A branch with other sides and another depth.
pub fn with_sides(row: [u32; ROW], left: u32, right: u32, depth: u32) -> [u32; ROW]
    requires { length row ≡ record_words }
    ensures { result ≡ sided_row row left right depth }
{
    let mut new = row;
    new[LEFT] = left;
    new[RIGHT] = right;
    new[DEPTH] = depth;
    new
}

// A collection.
pub fn collection_row(kind: u32, c: Collection, depth: u32) -> [u32; ROW]
    ensures { result ≡ collection_row kind c depth }
{
    [
        kind,
        c.label.start,
        c.label.len,
        c.own,
        c.rest,
        u32::from(c.imported),
        0,
        0,
        0,
        0,
        c.weight,
        depth,
    ]
}

// A trie.
pub fn trie_row(kind: u32, t: Trie) -> [u32; ROW]
    ensures { result ≡ trie_row kind t }
{
    [
        kind,
        0,
        0,
        t.bindings,
        t.namespaces,
        0,
        0,
        0,
        0,
        0,
        0,
        t.depth,
    ]
}
