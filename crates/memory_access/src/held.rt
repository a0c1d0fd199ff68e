// One word of a record, by what it holds: word_of and stored under the word's name, with the definition that clauses cite.
ghost use Rattle.std.specs.Prelude.{◌≡◌, ◌*◌, ◌≤◌, ◌<◌, length};
ghost use Rattle.source.specs.Limits.{record_words};
ghost use Rattle.memory.specs.Layout.{record_at, text_len, left_link, right_link, trie_link, own_link, rest_link, sort_word, note_link, note_side};
ghost use Rattle.memory.specs.Stored.{weight_in, depth_in, trie_in};

use crate::{stored, word_of};
use memory::{
    DEPTH, HELD, LEFT, NOTE_LINK, NOTE_SIDE, OF_TREE, OWN, REST, RIGHT, SORT, TEXT_LEN, WEIGHT,
};

// The length of the key of a branch, or of the label of a collection.
pub fn text_len(words: &[u32], link: u32) -> u32
    requires { (0 < link) × (link * record_words ≤ length words.now) }
    ensures { result ≡ text_len (record_at words.now link) }
{
    word_of(words, link, TEXT_LEN)
}

// The left side of a branch.
pub fn left_of(words: &[u32], link: u32) -> u32
    requires { (0 < link) × (link * record_words ≤ length words.now) }
    ensures { result ≡ left_link (record_at words.now link) }
{
    word_of(words, link, LEFT)
}

// The right side of a branch.
pub fn right_of(words: &[u32], link: u32) -> u32
    requires { (0 < link) × (link * record_words ≤ length words.now) }
    ensures { result ≡ right_link (record_at words.now link) }
{
    word_of(words, link, RIGHT)
}

// The trie that a branch of namespaces holds.
pub fn held_of(words: &[u32], link: u32) -> u32
    requires { (0 < link) × (link * record_words ≤ length words.now) }
    ensures { result ≡ trie_link (record_at words.now link) }
{
    word_of(words, link, HELD)
}

// The tree of a collection, or its imported list.
pub fn own_of(words: &[u32], link: u32) -> u32
    requires { (0 < link) × (link * record_words ≤ length words.now) }
    ensures { result ≡ own_link (record_at words.now link) }
{
    word_of(words, link, OWN)
}

// The list after a collection.
pub fn rest_of(words: &[u32], link: u32) -> u32
    requires { (0 < link) × (link * record_words ≤ length words.now) }
    ensures { result ≡ rest_link (record_at words.now link) }
{
    word_of(words, link, REST)
}

// The sort of a collection: OF_TREE or IMPORTED.
pub fn sort_of(words: &[u32], link: u32) -> u32
    requires { (0 < link) × (link * record_words ≤ length words.now) }
    ensures { result ≡ sort_word (record_at words.now link) }
{
    word_of(words, link, SORT)
}

// The link that a note has.
pub fn note_link(words: &[u32], link: u32) -> u32
    requires { (0 < link) × (link * record_words ≤ length words.now) }
    ensures { result ≡ note_link (record_at words.now link) }
{
    word_of(words, link, NOTE_LINK)
}

// The side that a note has.
pub fn note_side(words: &[u32], link: u32) -> u32
    requires { (0 < link) × (link * record_words ≤ length words.now) }
    ensures { result ≡ note_side (record_at words.now link) }
{
    word_of(words, link, NOTE_SIDE)
}

// ---- The same, 0 of the link 0

// The weight of a list.
pub fn weight_of(words: &[u32], link: u32) -> u32
    requires { link * record_words ≤ length words.now }
    ensures { result ≡ weight_in words.now link }
{
    stored(words, link, WEIGHT)
}

// The depth of a tree or a list of namespaces, or of a trie.
pub fn depth_of(words: &[u32], link: u32) -> u32
    requires { link * record_words ≤ length words.now }
    ensures { result ≡ depth_in words.now link }
{
    stored(words, link, DEPTH)
}

// The trie that a branch of namespaces holds.
pub fn trie_held(words: &[u32], link: u32) -> u32
    requires { link * record_words ≤ length words.now }
    ensures { result ≡ trie_in words.now link }
{
    stored(words, link, HELD)
}
