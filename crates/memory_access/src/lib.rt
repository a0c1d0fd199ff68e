// Records read and made by the names of their words.
// Words and text stay two parameters: crate memory says why.
#![tactic(auto)]

ghost use Rattle.std.specs.Prelude.{◌≡◌, ◌+◌, ◌*◌, ◌≤◌, ◌<◌, length};
ghost use Rattle.source.specs.Limits.{record_words};
ghost use Rattle.memory.specs.Layout.{record_at, word, lid_in, key_at};
ghost use Rattle.memory.specs.Stored.{stored};
ghost use Rattle.memory.specs.Grown.{put, put_text};
ghost use Rattle.memory.specs.Read.{TextIn, symbol_in, ReadBranch, ReadCollection, ReadTrie};

use memory::{
    BINDINGS, Branch, Collection, DEPTH, HELD, IMPORTED, ITEM_KIND, LEFT, LOADED, ModSymbol,
    NAME_LEN, NAME_START, NAMESPACES, NUMBER, OWN, PATH_LEN, PATH_START, REST, RIGHT, ROW, SORT,
    SYMBOL, Span, TEXT_LEN, TEXT_START, Trie, WEIGHT,
};
use source::LidSymbol;

// The words of new records.
pub mod make;

// One word of a record.
mod held;

pub use held::{
    depth_of, held_of, left_of, note_link, note_side, own_of, rest_of, right_of, sort_of, text_len,
    trie_held, weight_of,
};

// Word `k` of the record that `link` names.
pub fn word_of(words: &[u32], link: u32, k: usize) -> u32
    requires { (0 < link) × (k < record_words) × (link * record_words ≤ length words.now) }
    ensures { result ≡ word (record_at words.now link) k }
{
    let at = (link as usize - 1) * ROW + k;
    words[at]
}

// The same, 0 of the link 0.
#[tactic(auto, unfolding(memory::specs::Stored::stored))]
pub fn stored(words: &[u32], link: u32, k: usize) -> u32
    requires { (k < record_words) × (link * record_words ≤ length words.now) }
    ensures { result ≡ stored words.now link k }
{
    if link == 0 {
        return 0;
    }
    word_of(words, link, k)
}

// The key of a branch, or the label of a collection.
#[tactic(auto, unfolding(memory::specs::Layout::key_at, memory::specs::Layout::span))]
pub fn key_of<'a>(words: &[u32], text: &'a [u8], link: u32) -> &'a [u8]
    requires { TextIn words.now text.now link }
    ensures { result.now ≡ key_at words.now text.now link }
{
    let start = word_of(words, link, TEXT_START) as usize;
    let len = word_of(words, link, TEXT_LEN) as usize;
    &text[start..start + len]
}

// ---- Whole records

// The twelve words of the record that `link` names.
#[tactic(auto, unfolding(memory::specs::Layout::record_at))]
pub fn row_of(words: &[u32], link: u32) -> [u32; ROW]
    requires { (0 < link) × (link * record_words ≤ length words.now) }
    ensures { result ≡ record_at words.now link }
{
    // Word by word: copied as one, what was just written word by word is waited for.
    let mut row = [0; ROW];
    for i in 0..ROW {
        row[i] = word_of(words, link, i);
    }
    row
}

// The mod symbol of the branch that `link` names.
pub fn symbol_of(words: &[u32], link: u32) -> ModSymbol
    requires { (0 < link) × (link * record_words ≤ length words.now) }
    ensures { result ≡ symbol_in (record_at words.now link) }
{
    let name = Span {
        start: word_of(words, link, NAME_START),
        len: word_of(words, link, NAME_LEN),
    };
    let loaded = word_of(words, link, LOADED) == 1;
    if word_of(words, link, SYMBOL) == 0 {
        let path = Span {
            start: word_of(words, link, PATH_START),
            len: word_of(words, link, PATH_LEN),
        };
        return ModSymbol::Module(name, path, loaded);
    }
    ModSymbol::Namespace(name, loaded)
}

// The item of the name that `link` names.
pub fn lid_of(words: &[u32], link: u32) -> LidSymbol
    requires { (0 < link) × (link * record_words ≤ length words.now) }
    ensures { result ≡ lid_in (record_at words.now link) }
{
    LidSymbol {
        kind: source_item::kind_of(word_of(words, link, ITEM_KIND)),
        number: word_of(words, link, NUMBER),
    }
}

// The branch that `link` names.
pub fn branch_of(words: &[u32], link: u32) -> Branch
    requires { (0 < link) × (link * record_words ≤ length words.now) }
    ensures { ReadBranch (record_at words.now link) result }
{
    let key = Span {
        start: word_of(words, link, TEXT_START),
        len: word_of(words, link, TEXT_LEN),
    };
    Branch {
        key: key,
        left: word_of(words, link, LEFT),
        right: word_of(words, link, RIGHT),
        value: word_of(words, link, HELD),
        symbol: symbol_of(words, link),
    }
}

// The collection that `link` names.
pub fn collection_of(words: &[u32], link: u32) -> Collection
    requires { (0 < link) × (link * record_words ≤ length words.now) }
    ensures { ReadCollection (record_at words.now link) result }
{
    let label = Span {
        start: word_of(words, link, TEXT_START),
        len: word_of(words, link, TEXT_LEN),
    };
    Collection {
        imported: word_of(words, link, SORT) == IMPORTED,
        label: label,
        own: word_of(words, link, OWN),
        rest: word_of(words, link, REST),
        weight: word_of(words, link, WEIGHT),
    }
}

// The trie that `link` names, the empty one of the link 0.
pub fn trie_of(words: &[u32], link: u32) -> Trie
    requires { link * record_words ≤ length words.now }
    ensures { ReadTrie words.now link result }
{
    Trie {
        bindings: stored(words, link, BINDINGS),
        namespaces: stored(words, link, NAMESPACES),
        depth: stored(words, link, DEPTH),
    }
}

// ---- Writing

// Writes the twelve words of `row` as record number `used`.
pub fn put_row(words: &mut [u32], used: u32, row: &[u32; ROW])
    requires { (used * record_words + record_words ≤ length words.old) × (length row.now ≡ record_words) }
    ensures { words.new ≡ put words.old used row.now }
{
    // Word by word, as in `row_of`.
    let base = used as usize * ROW;
    for i in 0..ROW {
        words[base + i] = row[i];
    }
}

// Writes the bytes of `s` into the text from `used` on.
pub fn put_text(text: &mut [u8], used: u32, s: &[u8])
    requires { used + length s.now ≤ length text.old }
    ensures { text.new ≡ put_text text.old used s.now }
{
    // Byte by byte: the texts are short, and std's copy is a call.
    let base = used as usize;
    for i in 0..s.len() {
        text[base + i] = s[i];
    }
}
