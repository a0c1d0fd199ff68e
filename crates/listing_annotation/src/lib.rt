// What stands beside a found branch in a listing: its annotation, and whether a filter keeps it.
// Words and text stay two parameters: crate memory says why.
#![tactic(auto)]

ghost use Rattle.std.specs.Prelude.{◌≡◌, ℕ, ◌*◌, ◌<◌, ◌≤◌, List, length};
ghost use Rattle.source.specs.Items.{same_kind};
ghost use Rattle.source.specs.Limits.{record_words};
ghost use Rattle.memory.specs.Layout.{record_at, lid_in, item_of};
ghost use Rattle.listing_ask.specs.Ask.{asked, passes};
ghost use Rattle.listing_output.specs.Parts.{TextAt};
ghost use Rattle.listing_annotation.specs.Annotations.{note_at, outermost, annotation};

use listing_ask::Ask;
use listing_output::Path;
use memory::ModSymbol;
use source::{ItemKind, KindFilter};

// A branch or a tree that was found, and the collection of its outermost label, 0 for none.
#[derive(Clone, Copy)]
pub struct Labelled {
    pub link: u32,
    pub label: u32,
}

// The annotations of symbols: of a loaded module, of another, of a loaded namespace, of another.
#[derive(Clone, Copy)]
pub struct Notes<'a> {
    pub loaded_module: &'a [u8],
    pub other_module: &'a [u8],
    pub loaded_namespace: &'a [u8],
    pub other_namespace: &'a [u8],
}

// The collection of the outermost label of the path and the branch below it: a word of the memory, where 0 is none.
// Of a path whose label is no word nothing is said.
pub fn outermost(path: &Path, label: u32) -> u32
    ensures { path.now.label ≤ 4294967295 → result ≡ outermost path.now label }
{
    if path.n == 0 {
        return label;
    }
    u32::try_from(path.label).unwrap_or(0)
}

// The label of a collection, empty for none.
fn note_of<'a>(words: &[u32], text: &'a [u8], label: u32) -> &'a [u8]
    requires { 0 < label → TextAt words.now text.now label }
    ensures { result.now ≡ note_at words.now text.now label }
{
    if label == 0 {
        return &text[0..0];
    }
    memory_access::key_of(words, text, label)
}

// Whether the item of a branch of names is of the kind.
#[tactic(auto, unfolding(source::specs::Items::same_kind, source::specs::Items::kind_number))]
fn is_of(words: &[u32], branch: u32, kind: ItemKind) -> bool
    requires { (0 < branch) × (branch * record_words ≤ length words.now) }
    ensures { result ≡ same_kind (lid_in (record_at words.now branch)).kind kind }
{
    memory_access::lid_of(words, branch).kind == kind
}

// Whether what is asked keeps a found branch.
pub fn kept(words: &[u32], ask: Ask, branch: u32) -> bool
    requires { (0 < branch) × (branch * record_words ≤ length words.now) }
    ensures { (txt : List ℕ) → result ≡ passes ask (item_of (asked ask) txt (record_at words.now branch)) }
{
    match ask {
        Ask::Names(f) => match f {
            KindFilter::Every => true,
            KindFilter::Timers => is_of(words, branch, ItemKind::Timer),
            KindFilter::Ports => is_of(words, branch, ItemKind::Port),
            KindFilter::Registers => is_of(words, branch, ItemKind::Register),
        },
        Ask::Modules(f) => {
            let symbol = memory_access::symbol_of(words, branch);
            match symbol {
                ModSymbol::Module(_, _, loaded) => listing_ask::keeps(f, true, loaded),
                ModSymbol::Namespace(_, loaded) => listing_ask::keeps(f, false, loaded),
            }
        }
    }
}

// The annotation of a found branch: the label of the collection `found.label`, or of the notes that of its symbol.
pub fn annotation<'a>(
    words: &[u32],
    text: &'a [u8],
    ask: Ask,
    found: Labelled,
    notes: Notes<'a>,
) -> &'a [u8]
    requires link_nonzero { (0 < found.link) × (found.link * record_words ≤ length words.now) }
    requires text_at { 0 < found.label → TextAt words.now text.now found.label }
    ensures { result.now ≡ annotation ask words.now text.now found
        notes.entry.loaded_module.now notes.entry.other_module.now
        notes.entry.loaded_namespace.now notes.entry.other_namespace.now }
{
    match ask {
        Ask::Names(_) => note_of(words, text, found.label),
        Ask::Modules(_) => {
            let symbol = memory_access::symbol_of(words, found.link);
            match symbol {
                ModSymbol::Module(_, _, loaded) => {
                    if loaded {
                        return notes.loaded_module;
                    }
                    notes.other_module
                }
                ModSymbol::Namespace(_, loaded) => {
                    if loaded {
                        return notes.loaded_namespace;
                    }
                    notes.other_namespace
                }
            }
        }
    }
}
