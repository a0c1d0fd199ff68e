// The change of a trie: the source's namespaces_mutate and trie_mutate with mut_node and mut_leaf, building records after the used ones.
// Words and text stay two parameters: crate memory says why.
#![tactic(auto)]

ghost use Rattle.std.specs.Prelude.{◌≡◌, true, ◌+◌, ◌-◌, ◌<◌, ◌≤◌, length};
ghost use Rattle.source.specs.Limits.{most_used};
ghost use Rattle.source.specs.Text.{ends_in_dot};
ghost use Rattle.memory.specs.Layout.{span};
ghost use Rattle.register_kind.specs.declared.Form.TheVariants as form;
ghost use Rattle.register_leaf.specs.Leaves.{Some};
ghost use Rattle.register_change.specs.Changes.{form_of, Kinds, symbol_row, SegmentCut, Bindings, Node, NamespacesMutation, Mutation, NamespacesWay};
ghost use Rattle.register_change.specs.Changes.{TrieWay, BindingsBuilt, NodeBuilt, NamespacesMutated, Mutated};

use memory::{ModSymbol, OF_MODULES, Span, TRIE_KIND};
use register_kind::Form;
use register_leaf::{Built, Change, mut_leaf};
use register_way::Step;

// What stays the same on the way down a query: where the query begins and ends in the text, and the change at its end.
#[derive(Clone, Copy)]
pub struct Descent {
    pub from: u32,
    pub end: u32,
    pub change: Change,
}

// The length of the segment of the text that begins at `at`.
fn segment_in(text: &[u8], at: u32, end: u32) -> u32
    requires { (at < end) × (end ≤ length text.now) × (end ≤ most_used)
        × (ends_in_dot (span text.now at (end - at)) ≡ true) }
    ensures { SegmentCut text.now at result end }
{
    let first = at as usize;
    let last = end as usize;
    text_query::segment_length(&text[first..last]) as u32
}

// What is added to the kinds of the names table in the table of a change.
fn kinds_of(change: Change) -> u32
    ensures { Kinds change result }
{
    let kind = change.kind;
    let s = register_kind::shape_of(kind);
    let f = s.form;
    match f {
        Form::Name => 0,
        Form::Import => 0,
        Form::Module(_) => OF_MODULES,
    }
}

// The words of the branch of a module, or of a namespace where it is not the last segment: its full name begins at `from`.
fn symbol_row(last: bool, segment: Span, from: u32, loaded: bool, path: Span) -> [u32; memory::ROW]
    requires { (from ≤ segment.start) × (segment.start + segment.len ≤ most_used) }
    ensures { result ≡ symbol_row last segment.start segment.len from loaded path }
{
    let name = Span {
        start: from,
        len: segment.start + segment.len - from,
    };
    if last {
        return memory_access::make::symbol_row(segment, ModSymbol::Module(name, path, loaded));
    }
    memory_access::make::symbol_row(segment, ModSymbol::Namespace(name, loaded))
}

// ins-stays-loaded: a Module at the last segment, loaded also in place of a loaded one; a Namespace before it where ins_ns inserts.
fn ins(
    words: &mut [u32],
    text: &[u8],
    records: u32,
    bindings: u32,
    segment: Span,
    d: Descent,
    loaded: bool,
) -> Built
    requires { Some
        (λ used. Bindings words.old text.now records used bindings segment.start segment.len d (form.Module loaded)) }
    ensures { BindingsBuilt words.old words.new text.now records bindings segment.start segment.len d
        (form.Module loaded) result.link result.records }
{
    let start = segment.start as usize;
    let end = start + segment.len as usize;
    let p = find_list::names_place(words, text, bindings, &text[start..end]);
    let last = segment.start + segment.len + 1 == d.end;
    if last | find_trie::ns_inserts(words, p.holder, loaded) {
        let change = d.change;
        let flag = (last & find_trie::loaded_module(words, p.holder)) | loaded;
        let row = symbol_row(last, segment, d.from, flag, change.text);
        let b = insert_list::names_insert(words, text, records, bindings, p.count, row);
        return Built::last(b);
    }
    Built {
        link: bindings,
        records,
    }
}

// The bindings that mut_node gives a trie: only a module path changes them.
fn mut_bindings(
    words: &mut [u32],
    text: &[u8],
    records: u32,
    bindings: u32,
    segment: Span,
    d: Descent,
) -> Built
    requires { Some
        (λ used. Bindings words.old text.now records used bindings segment.start segment.len d (form_of d)) }
    ensures { BindingsBuilt words.old words.new text.now records bindings segment.start segment.len d
        (form_of d) result.link result.records }
{
    let change = d.change;
    let kind = change.kind;
    let s = register_kind::shape_of(kind);
    let f = s.form;
    match f {
        Form::Name => Built {
            link: bindings,
            records,
        },
        Form::Import => Built {
            link: bindings,
            records,
        },
        Form::Module(loaded) => ins(words, text, records, bindings, segment, d, loaded),
    }
}

// mut_node of a change: `namespaces` is the new list.
fn mut_node(
    words: &mut [u32],
    text: &[u8],
    records: u32,
    trie: u32,
    namespaces: u32,
    segment: Span,
    d: Descent,
) -> u32
    requires { Some (λ used. Node words.old text.now records used trie namespaces segment.start segment.len d) }
    ensures { NodeBuilt words.old words.new text.now records trie namespaces segment.start segment.len d result
        result }
{
    let t = memory_access::trie_of(words, trie);
    let b = mut_bindings(words, text, records, t.bindings, segment, d);
    let kinds = kinds_of(d.change);
    insert_record::put_trie(words, b.records, kinds + TRIE_KIND, b.link, namespaces)
}

// The source's namespaces_mutate. rev_acc is what stands before the next segment, which the step is of; the way is that after it.
#[cycle(namespaces_mutate_trie_mutate)]
fn namespaces_mutate(
    words: &mut [u32],
    text: &[u8],
    records: u32,
    namespaces: u32,
    segment: Span,
    d: Descent,
    step: Step,
    way: &[Step],
) -> u32
    requires some { Some
        (λ used. NamespacesMutation words.old text.now records used namespaces segment.start segment.len d) }
    requires namespaces_way { NamespacesWay words.old text.now records namespaces segment.start segment.len d step
        way.now }
    ensures { NamespacesMutated words.old words.new text.now records namespaces segment.start segment.len d result
        result }
{
    let kinds = kinds_of(d.change);
    let next = segment.start + segment.len + 1;
    let m = trie_mutate(words, text, records, step.below, next, d, way);
    let row = memory_access::make::namespace_row(kinds, segment, m.link);
    insert_list::names_insert(words, text, m.records, namespaces, step.count, row)
}

// The source's trie_mutate: the trie of `trie` changed below the segments from `at` on, which the way leads down.
#[cycle(namespaces_mutate_trie_mutate)]
pub fn trie_mutate(
    words: &mut [u32],
    text: &[u8],
    records: u32,
    trie: u32,
    at: u32,
    d: Descent,
    way: &[Step],
) -> Built
    requires some { Some (λ used. Mutation words.old text.now records used trie at d) }
    requires trie_way { TrieWay words.old text.now trie at d way.now }
    ensures { Mutated words.old words.new text.now records trie at d result.link result.records }
{
    let step = way[0];
    if at == d.end {
        return mut_leaf(words, text, records, trie, d.change, step.count);
    }
    let segment = Span {
        start: at,
        len: segment_in(text, at, d.end),
    };
    let t = memory_access::trie_of(words, trie);
    let n = namespaces_mutate(
        words,
        text,
        records,
        t.namespaces,
        segment,
        d,
        step,
        &way[1..],
    );
    Built::last(mut_node(words, text, n, trie, n, segment, d))
}
