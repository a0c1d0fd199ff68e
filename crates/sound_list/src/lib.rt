// Is a collection, or a trie, right, given that the records before it are? By what these store.
#![tactic(auto)]

ghost use Rattle.std.specs.Prelude.{◌≡◌, ◌≤◌, length};
ghost use Rattle.source.specs.Limits.{heaviest_list, record_words};
ghost use Rattle.memory.specs.Layout.{weight_word};
ghost use Rattle.memory.specs.Sound.{Says};
ghost use Rattle.sound_field.specs.Fields.{Before};
ghost use Rattle.sound_list.specs.Lists.{SaysCollection, SaysTrie};

use memory::Span;
use sound_field::Tested;
use text_query::Rule;

// Is `weight` stored, and at most 96?
fn weight_ok(row: &[u32], weight: u64) -> bool
    requires { length row.now ≡ record_words }
    ensures { Says result ((weight_word row.now ≡ weight) × (weight ≤ heaviest_list)) }
{
    (weight <= u64::from(memory::HEAVIEST)) & (u64::from(row[memory::WEIGHT]) == weight)
}

// A collection of the kind `k`, where its trees are of the kind `tree`, and the weight of its list.
// Inlined, since a Tested that is passed in memory costs a sixth of the test.
#[inline(always)]
pub fn collection_ok(t: Tested, k: u32, tree: u32) -> bool
    requires before { Before t.words.now t.text.now t.used t.link }
    requires row_len { length t.row.now ≡ record_words }
    ensures { SaysCollection t.entry.words.now t.entry.text.now t.entry.used t.entry.link t.entry.row.now k tree
        result }
{
    let own = t.row[memory::OWN];
    let rest = t.row[memory::REST];
    if !sound_field::link_ok(t.words, t.link, rest, k) {
        return false;
    }
    let after = u64::from(memory_access::weight_of(t.words, rest));
    match t.row[memory::SORT] {
        memory::OF_TREE => {
            if !sound_field::link_ok(t.words, t.link, own, tree) {
                return false;
            }
            weight_ok(t.row, 1 + after)
        }
        memory::IMPORTED => {
            if !sound_field::link_ok(t.words, t.link, own, k) {
                return false;
            }
            let label = Span {
                start: t.row[memory::TEXT_START],
                len: t.row[memory::TEXT_LEN],
            };
            if !sound_field::text_ok(
                t.text,
                t.used,
                label,
                0,
                text_query::FULL_NAME_MOST,
                Rule::Query,
            ) {
                return false;
            }
            let inner = u64::from(memory_access::weight_of(t.words, own));
            weight_ok(t.row, 1 + inner + after)
        }
        _ => false,
    }
}

// A trie, where `bindings` and `namespaces` are the kinds of its lists.
pub fn trie_ok(t: Tested, bindings: u32, namespaces: u32) -> bool
    requires before { Before t.words.now t.text.now t.used t.link }
    requires row_len { length t.row.now ≡ record_words }
    ensures { SaysTrie t.entry.words.now t.entry.text.now t.entry.used t.entry.link t.entry.row.now bindings namespaces
        result }
{
    let first = t.row[memory::BINDINGS];
    let second = t.row[memory::NAMESPACES];
    if !sound_field::link_ok(t.words, t.link, first, bindings) {
        return false;
    }
    if !sound_field::link_ok(t.words, t.link, second, namespaces) {
        return false;
    }
    let depth = memory_access::depth_of(t.words, second);
    (depth <= memory::DEEPEST) & (t.row[memory::DEPTH] == depth)
}
