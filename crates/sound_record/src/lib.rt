// Is a record right, given that those before it are? A test for each kind.
#![tactic(auto)]

ghost use Rattle.std.specs.Prelude.{◌≡◌};
ghost use Rattle.memory.specs.Layout.{record_at};
ghost use Rattle.memory.specs.Sound.{Says, RecordOk};
ghost use Rattle.sound_field.specs.Fields.{Before, Noted};

use sound_field::{Ends, Tested};

// Is the record right, given that those before it are?
// Inlined, since a Tested that is passed in memory costs a sixth of the test.
#[inline(always)]
pub fn record_ok(t: Tested, notes: &[Ends]) -> bool
    requires before { Before t.words.now t.text.now t.used t.link }
    requires row_value { t.row.now ≡ record_at t.words.now t.link }
    requires noted { Noted t.words.now t.link notes.now }
    ensures { Says result (RecordOk t.entry.words.now t.entry.text.now t.entry.used t.entry.link) }
{
    let k = t.row[memory::KIND];
    match k {
        memory::BINDING_KIND => {
            if !sound_branch::branch_ok(t, k, notes) {
                return false;
            }
            source_item::is_kind(t.row[memory::ITEM_KIND])
        }
        memory::MODULE_BINDING_KIND => {
            if !sound_branch::branch_ok(t, k, notes) {
                return false;
            }
            sound_branch::symbol_ok(t)
        }
        memory::NAMESPACE_KIND | memory::MODULE_NAMESPACE_KIND => {
            if !sound_branch::branch_ok(t, k, notes) {
                return false;
            }
            sound_branch::held_ok(t, k + memory::TRIE_IN)
        }
        memory::BINDINGS_KIND | memory::MODULE_BINDINGS_KIND => {
            sound_list::collection_ok(t, k, k - memory::LIST_OF)
        }
        memory::NAMESPACES_KIND | memory::MODULE_NAMESPACES_KIND => {
            if !sound_list::collection_ok(t, k, k - memory::LIST_OF) {
                return false;
            }
            t.row[memory::DEPTH] == sound_branch::deeper(t)
        }
        memory::TRIE_KIND | memory::MODULE_TRIE_KIND => {
            sound_list::trie_ok(t, k - memory::BINDINGS_OF, k - memory::NAMESPACES_OF)
        }
        _ => false,
    }
}
