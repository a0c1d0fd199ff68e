// mut_leaf of each kind of registration: what is put into the trie at the end of a query, building records after the used ones.
// Words and text stay two parameters: crate memory says why.
#![tactic(auto)]

ghost use Rattle.std.specs.Prelude.{◌≡◌};
ghost use Rattle.register_kind.specs.declared.CallKind.TheVariants.{Name, Include, Open, Alias};
ghost use Rattle.register_leaf.specs.Leaves.{with_kind, label_in, Some, Leaf, LeafBuilds, LeafBuilt};

use memory::{BINDINGS_KIND, NAMESPACES_KIND, Span, TRIE_KIND};
use register_kind::CallKind;
use source::LidSymbol;

// A change of a trie: its kind, its second text and key as spans of the table's text, and the included trie.
// What the kind does not use is of no account.
#[derive(Clone, Copy)]
pub struct Change {
    pub kind: CallKind,
    pub text: Span,
    pub key: Span,
    pub inc: u32,
}

// A link, and the records used after its making.
#[derive(Clone, Copy)]
pub struct Built {
    pub link: u32,
    pub records: u32,
}

impl Built {
    ghost use Rattle.register_leaf.specs.Leaves.{built};

    // The record that was made last.
    pub fn last(link: u32) -> Built
        ensures { result ≡ built link }
    {
        Built {
            link,
            records: link,
        }
    }
}

// The label of an included query: without its last dot.
fn label_of(text: Span) -> Span
    ensures { result ≡ label_in text }
{
    Span {
        start: text.start,
        len: text.len.saturating_sub(1),
    }
}

// trie_insert's mut_leaf.
fn insert_leaf(
    words: &mut [u32],
    text: &[u8],
    records: u32,
    trie: u32,
    change: Change,
    item: LidSymbol,
    count: u32,
) -> u32
    requires some { Some (λ used. Leaf words.old text.now records used trie
        (with_kind (Name item.kind item.number) change)) }
    requires leaf_builds { LeafBuilds words.old text.now trie (with_kind (Name item.kind item.number) change) count }
    ensures { LeafBuilt words.old words.new text.now records trie
        (with_kind (Name item.kind item.number) change) result result }
{
    let t = memory_access::trie_of(words, trie);
    let row = memory_access::make::binding_row(change.text, item);
    let b = insert_list::names_insert(words, text, records, t.bindings, count, row);
    insert_record::put_trie(words, b, TRIE_KIND, b, t.namespaces)
}

// trie_include's.
fn include_leaf(words: &mut [u32], text: &[u8], records: u32, trie: u32, change: Change) -> u32
    requires { Some (λ used. Leaf words.old text.now records used trie (with_kind Include change)) }
    ensures { LeafBuilt words.old words.new text.now records trie (with_kind Include change) result
        result }
{
    let t = memory_access::trie_of(words, trie);
    let i = memory_access::trie_of(words, change.inc);
    let label = label_of(change.text);
    let b = insert_record::imported(words, records, BINDINGS_KIND, label, i.bindings, t.bindings);
    insert_record::put_trie(words, b, TRIE_KIND, b, t.namespaces)
}

// trie_open_namespace's. One function with include_leaf would choose both lists, the kind and the place in the trie by a flag.
fn open_leaf(words: &mut [u32], text: &[u8], records: u32, trie: u32, change: Change) -> u32
    requires { Some (λ used. Leaf words.old text.now records used trie (with_kind Open change)) }
    ensures { LeafBuilt words.old words.new text.now records trie (with_kind Open change) result
        result }
{
    let t = memory_access::trie_of(words, trie);
    let i = memory_access::trie_of(words, change.inc);
    let label = label_of(change.text);
    let n = insert_record::imported(
        words,
        records,
        NAMESPACES_KIND,
        label,
        i.namespaces,
        t.namespaces,
    );
    insert_record::put_trie(words, n, TRIE_KIND, t.bindings, n)
}

// trie_add_alias's: at the key a fresh trie of the included bindings alone.
fn alias_leaf(
    words: &mut [u32],
    text: &[u8],
    records: u32,
    trie: u32,
    change: Change,
    count: u32,
) -> u32
    requires some { Some (λ used. Leaf words.old text.now records used trie (with_kind Alias change)) }
    requires leaf_builds { LeafBuilds words.old text.now trie (with_kind Alias change) count }
    ensures { LeafBuilt words.old words.new text.now records trie (with_kind Alias change) result
        result }
{
    let t = memory_access::trie_of(words, trie);
    let i = memory_access::trie_of(words, change.inc);
    let label = label_of(change.text);
    let b = insert_record::imported(words, records, BINDINGS_KIND, label, i.bindings, 0);
    let scope = insert_record::put_trie(words, b, TRIE_KIND, b, 0);
    let row = memory_access::make::namespace_row(0, change.key, scope);
    let n = insert_list::names_insert(words, text, scope, t.namespaces, count, row);
    insert_record::put_trie(words, n, TRIE_KIND, t.bindings, n)
}

// mut_leaf of a change; `count` is that of the branches that its insertion builds, where it inserts.
pub fn mut_leaf(
    words: &mut [u32],
    text: &[u8],
    records: u32,
    trie: u32,
    change: Change,
    count: u32,
) -> Built
    requires some { Some (λ used. Leaf words.old text.now records used trie change) }
    requires leaf_builds { LeafBuilds words.old text.now trie change count }
    ensures { LeafBuilt words.old words.new text.now records trie change result.link result.records }
{
    match change.kind {
        CallKind::Name(kind, number) => {
            let item = LidSymbol { kind, number };
            Built::last(insert_leaf(words, text, records, trie, change, item, count))
        }
        CallKind::Include => Built::last(include_leaf(words, text, records, trie, change)),
        CallKind::Open => Built::last(open_leaf(words, text, records, trie, change)),
        CallKind::Alias => Built::last(alias_leaf(words, text, records, trie, change, count)),
        CallKind::Module(_) => Built {
            link: trie,
            records,
        },
    }
}
