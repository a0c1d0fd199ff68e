// Is a branch right, given that the records before it are? By what these store.
#![tactic(auto)]

ghost use Rattle.std.specs.Prelude.{◌≡◌, ◌*◌, ◌≤◌, ◌<◌, length};
ghost use Rattle.source.specs.Limits.{record_words};
ghost use Rattle.memory.specs.Layout.{left_link, right_link};
ghost use Rattle.memory.specs.Stored.{depth_of};
ghost use Rattle.memory.specs.Sound.{Says, SymbolOk};
ghost use Rattle.sound_field.specs.Fields.{Before, TreeKind, Noted};
ghost use Rattle.sound_branch.specs.Branches.{SaysBranch, SaysHeld};

use memory::Span;
use sound_field::{Ends, Side, Tested};
use text_query::Rule;

// A branch of the kind `k`, whose keys ascend. The notes have the branch with the least and the greatest key of each tree before it.
// Inlined, since a Tested that is passed in memory costs a sixth of the test.
#[inline(always)]
pub fn branch_ok(t: Tested, k: u32, notes: &[Ends]) -> bool
    requires before { Before t.words.now t.text.now t.used t.link }
    requires tree_kind { TreeKind k }
    requires row_len { length t.row.now ≡ record_words }
    requires noted { Noted t.words.now t.link notes.now }
    ensures { SaysBranch t.entry.words.now t.entry.text.now t.entry.used t.entry.link t.entry.row.now k result }
{
    let first = t.row[memory::LEFT];
    let second = t.row[memory::RIGHT];
    if !sound_field::link_ok(t.words, t.link, first, k) {
        return false;
    }
    if !sound_field::link_ok(t.words, t.link, second, k) {
        return false;
    }
    let key = Span {
        start: t.row[memory::TEXT_START],
        len: t.row[memory::TEXT_LEN],
    };
    if !sound_field::text_ok(t.text, t.used, key, 1, text_query::NAME_MOST, Rule::Name) {
        return false;
    }
    if !sound_field::side_ok(t, k, Side::Left, first, key, notes) {
        return false;
    }
    sound_field::side_ok(t, k, Side::Right, second, key, notes)
}

// The item of a bindings branch of the module table.
pub fn symbol_ok(t: Tested) -> bool
    requires { (t.used ≤ length t.text.now) × (length t.row.now ≡ record_words) }
    ensures { Says result (SymbolOk t.entry.text.now t.entry.used t.entry.row.now) }
{
    if 1 < t.row[memory::SYMBOL] {
        return false;
    }
    if 1 < t.row[memory::LOADED] {
        return false;
    }
    let name = Span {
        start: t.row[memory::NAME_START],
        len: t.row[memory::NAME_LEN],
    };
    if !sound_field::text_ok(
        t.text,
        t.used,
        name,
        1,
        text_query::FULL_NAME_MOST,
        Rule::Query,
    ) {
        return false;
    }
    if t.row[memory::SYMBOL] == 1 {
        return true;
    }
    let path = Span {
        start: t.row[memory::PATH_START],
        len: t.row[memory::PATH_LEN],
    };
    sound_field::text_ok(t.text, t.used, path, 0, text_query::PATH_MOST, Rule::Path)
}

// The greater depth of the first two links of a record.
#[tactic(auto, unfolding(memory::specs::Stored::depth_of))]
pub fn deeper(t: Tested) -> u32
    requires { (t.link * record_words ≤ length t.words.now) × (length t.row.now ≡ record_words)
        × (left_link t.row.now < t.link) × (right_link t.row.now < t.link) }
    ensures { result ≡ depth_of t.entry.words.now t.entry.row.now }
{
    let first = memory_access::depth_of(t.words, t.row[memory::FIRST]);
    first.max(memory_access::depth_of(t.words, t.row[memory::SECOND]))
}

// The trie, of the kind `k`, that a branch of namespaces holds, and the stored depth.
pub fn held_ok(t: Tested, k: u32) -> bool
    requires before { Before t.words.now t.text.now t.used t.link }
    requires row_len { length t.row.now ≡ record_words }
    requires row_bound { (left_link t.row.now < t.link) × (right_link t.row.now < t.link) }
    ensures { SaysHeld t.entry.words.now t.entry.text.now t.entry.used t.entry.link t.entry.row.now k result }
{
    let held = t.row[memory::HELD];
    if !sound_field::link_ok(t.words, t.link, held, k) {
        return false;
    }
    let inner = 1 + u64::from(memory_access::depth_of(t.words, held));
    u64::from(t.row[memory::DEPTH]) == inner.max(u64::from(deeper(t)))
}
