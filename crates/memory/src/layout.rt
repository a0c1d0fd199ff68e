// The words of a record, the kinds, and the limits, each by its name (specs/Layout.antt).
// What the words of a record hold.
pub const KIND: usize = 0;

pub const TEXT_START: usize = 1;

pub const TEXT_LEN: usize = 2;

pub const LEFT: usize = 3;

pub const RIGHT: usize = 4;

pub const HELD: usize = 5;

pub const NUMBER: usize = 5;

pub const ITEM_KIND: usize = 6;

pub const SYMBOL: usize = 5;

pub const NAME_START: usize = 6;

pub const NAME_LEN: usize = 7;

pub const PATH_START: usize = 8;

pub const PATH_LEN: usize = 9;

pub const LOADED: usize = 10;

pub const OWN: usize = 3;

pub const REST: usize = 4;

pub const SORT: usize = 5;

pub const WEIGHT: usize = 10;

pub const BINDINGS: usize = 3;

pub const NAMESPACES: usize = 4;

pub const DEPTH: usize = 11;
// The first two links of a record of any kind.
pub const FIRST: usize = 3;

pub const SECOND: usize = 4;

// A free record as a note: a link and a side.
pub const NOTE_LINK: usize = 0;

pub const NOTE_SIDE: usize = 1;

// Words to a record; records, and bytes of text, that a table uses at most.
pub const ROW: usize = 12;

pub const CAPACITY: u32 = 65536;

// What a list weighs, and how deep a trie is, at most.
pub const HEAVIEST: u32 = 96;

pub const DEEPEST: u32 = 16;

// The kinds of records of the names table. Those of the module table are OF_MODULES more.
pub const BINDING_KIND: u32 = 1;

pub const NAMESPACE_KIND: u32 = 2;

pub const BINDINGS_KIND: u32 = 3;

pub const NAMESPACES_KIND: u32 = 4;

pub const TRIE_KIND: u32 = 5;

pub const OF_MODULES: u32 = 5;

pub const MODULE_BINDING_KIND: u32 = 6;

pub const MODULE_NAMESPACE_KIND: u32 = 7;

pub const MODULE_BINDINGS_KIND: u32 = 8;

pub const MODULE_NAMESPACES_KIND: u32 = 9;

pub const MODULE_TRIE_KIND: u32 = 10;
// In either table: from the branches of a tree to the list of such trees, from a branch of namespaces to the trie that it holds,
// from a trie to its two lists.
pub const LIST_OF: u32 = 2;

pub const TRIE_IN: u32 = 3;

pub const BINDINGS_OF: u32 = 2;

pub const NAMESPACES_OF: u32 = 1;

// The sort of a collection.
pub const OF_TREE: u32 = 0;

pub const IMPORTED: u32 = 1;
