// Records in the lent words: the words by name, what a record holds as structs.
// specs/Layout.antt has the layout, specs/Sound.antt what a right record is; crate memory_access reads and makes records.
// The words and the text of a table stay two parameters: behind one struct each clause says `memory.entry.words.now` for `words.now`, and no
// fact goes into the type, since what is right of a memory depends on the link; a registration lends the words to be written, the text not.
#![tactic(auto)]

// The words, kinds and limits by name.
mod layout;

pub use layout::{
    BINDING_KIND, BINDINGS, BINDINGS_KIND, BINDINGS_OF, CAPACITY, DEEPEST, DEPTH, FIRST, HEAVIEST,
    HELD, IMPORTED, ITEM_KIND, KIND, LEFT, LIST_OF, LOADED, MODULE_BINDING_KIND,
    MODULE_BINDINGS_KIND, MODULE_NAMESPACE_KIND, MODULE_NAMESPACES_KIND, MODULE_TRIE_KIND,
    NAME_LEN, NAME_START, NAMESPACE_KIND, NAMESPACES, NAMESPACES_KIND, NAMESPACES_OF, NOTE_LINK,
    NOTE_SIDE, NUMBER, OF_MODULES, OF_TREE, OWN, PATH_LEN, PATH_START, REST, RIGHT, ROW, SECOND,
    SORT, SYMBOL, TEXT_LEN, TEXT_START, TRIE_IN, TRIE_KIND, WEIGHT,
};

// A text: a start and a length in the lent text.
#[derive(Clone, Copy)]
pub struct Span {
    pub start: u32,
    pub len: u32,
}

// mod_symbol: a Module has its full name, file path and whether it is loaded, a Namespace its full name and whether it is loaded.
#[derive(Clone, Copy)]
pub enum ModSymbol {
    Module(Span, Span, bool),
    Namespace(Span, bool),
}

// A branch: its value is the item's number or the trie's link; its symbol is for the module table.
#[derive(Clone, Copy)]
pub struct Branch {
    pub key: Span,
    pub left: u32,
    pub right: u32,
    pub value: u32,
    pub symbol: ModSymbol,
}

// A collection: its own link is a tree, or a list if it is imported.
#[derive(Clone, Copy)]
pub struct Collection {
    pub imported: bool,
    pub label: Span,
    pub own: u32,
    pub rest: u32,
    pub weight: u32,
}

// A trie: the links of its two lists, and its depth.
#[derive(Clone, Copy)]
pub struct Trie {
    pub bindings: u32,
    pub namespaces: u32,
    pub depth: u32,
}
