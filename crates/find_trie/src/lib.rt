// Tries of the record memory: the walk down a query by first holders.
// A trie is the link of its record, 0 for the empty one.
// Words and text stay two parameters: crate memory says why.
#![tactic(auto)]

ghost use Rattle.std.specs.Prelude.{◌≡◌, true, ◌*◌, ◌<◌, ◌≤◌, length, IfSome};
ghost use Rattle.std.specs.Option.{unwrap_or};
ghost use Rattle.source.specs.Limits.{record_words};
ghost use Rattle.source.specs.Text.{segments, ends_in_dot};
ghost use Rattle.find_list.specs.Names.{AnyList};
ghost use Rattle.find_trie.specs.Tries.{AnyTrie, Scope, Included, FindsExact, NsInserts, LoadedModule};

use memory::ModSymbol;

// The trie that a list of namespaces holds at `s`, 0 for none: a word of the memory, where 0 is the empty trie and no missing answer.
fn scope_of(words: &[u32], text: &[u8], namespaces: u32, s: &[u8]) -> u32
    requires { AnyList words.now text.now namespaces }
    ensures { Scope words.now text.now namespaces s.now result }
{
    let holder = find_list::names_find_exact(words, text, namespaces, s);
    memory_access::trie_held(words, holder.unwrap_or(0))
}

// The source's trie_descend_exact, 0 for the empty trie where there is none.
pub fn trie_descend(words: &[u32], text: &[u8], root: u32, query: &[u8]) -> u32
    requires any_trie { AnyTrie words.now text.now root }
    requires query_value { ends_in_dot query.now ≡ true }
    ensures { Included words.now text.now root (segments query.now) result }
{
    let mut included = root;
    for segment in text_query::segments_of(query) {
        let t = memory_access::trie_of(words, included);
        included = scope_of(words, text, t.namespaces, segment);
    }
    included
}

// The source's trie_find_exact: the branch that the walk by first holders ends at.
pub fn trie_find_exact(words: &[u32], text: &[u8], root: u32, query: &[u8]) -> Option<u32>
    requires any_trie { AnyTrie words.now text.now root }
    requires query_value { ends_in_dot query.now ≡ true }
    ensures nonzero { IfSome result (λ branch. 0 < branch) }
    ensures found { FindsExact words.now text.now root (segments query.now) (unwrap_or result 0) }
{
    let mut link = root;
    let mut left = text_query::segments_of(query);
    while let Some(segment) = left.next() {
        let t = memory_access::trie_of(words, link);
        if left.rest.is_empty() {
            return find_list::names_find_exact(words, text, t.bindings, segment);
        }
        link = scope_of(words, text, t.namespaces, segment);
    }
    None
}

// Whether ins_ns inserts, where `holder` is the branch that has the name.
pub fn ns_inserts(words: &[u32], holder: Option<u32>, loaded: bool) -> bool
    requires { IfSome holder (λ branch. (0 < branch) × (branch * record_words ≤ length words.now)) }
    ensures { NsInserts words.now (unwrap_or holder 0) loaded result }
{
    let Some(branch) = holder else {
        return true;
    };
    match memory_access::symbol_of(words, branch) {
        ModSymbol::Module(_, _, _) => false,
        ModSymbol::Namespace(_, seen) => !seen & loaded,
    }
}

// Whether `holder` is the branch of a loaded Module.
pub fn loaded_module(words: &[u32], holder: Option<u32>) -> bool
    requires { IfSome holder (λ branch. (0 < branch) × (branch * record_words ≤ length words.now)) }
    ensures { LoadedModule words.now (unwrap_or holder 0) result }
{
    let Some(branch) = holder else {
        return false;
    };
    match memory_access::symbol_of(words, branch) {
        ModSymbol::Module(_, _, loaded) => loaded,
        ModSymbol::Namespace(_, _) => false,
    }
}
