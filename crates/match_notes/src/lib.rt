// The branches of a tree that begin with a prefix, noted on the way down to the first of them.
// The loops go down links of the memory, where 0 is none: no index.
// Words and text stay two parameters: crate memory says why.
#![tactic(auto)]

ghost use Rattle.std.specs.Prelude.{◌≡◌, true};
ghost use Rattle.source.specs.Text.{starts_with};
ghost use Rattle.find_tree.specs.Tree.{AnyTree};
ghost use Rattle.match_notes.specs.Noting.{Descends, AllAfter, NotesLeft};

use match_marks::Notes;

// Notes the branches of the tree `from` that are past `low` and begin with `prefix`, the first one last: those on the way down to it.
pub fn descend(
    words: &[u32],
    text: &[u8],
    prefix: &[u8],
    low: &[u8],
    strict: bool,
    from: u32,
    notes: &mut Notes,
)
    requires any_tree { AnyTree words.now text.now from }
    requires prefix_value { starts_with low.now prefix.now ≡ true }
    ensures { Descends words.now text.now prefix.now low.now strict from notes.old notes.new }
{
    let mut at = from;
    while 0 < at {
        if find_tree::key_past(words, text, at, low, strict) {
            if find_tree::key_begins(words, text, at, prefix) {
                notes.note(at);
            }
            at = memory_access::left_of(words, at);
        } else {
            at = memory_access::right_of(words, at);
        }
    }
}

// Notes the same of a tree whose keys are all after `prefix`: the way goes left alone, with no key compared with a bound.
pub fn note_left(words: &[u32], text: &[u8], prefix: &[u8], from: u32, notes: &mut Notes)
    requires any_tree { AnyTree words.now text.now from }
    requires all_after { AllAfter words.now text.now prefix.now from }
    ensures { NotesLeft words.now text.now prefix.now from notes.old notes.new }
{
    let mut at = from;
    while 0 < at {
        if find_tree::key_begins(words, text, at, prefix) {
            notes.note(at);
        }
        at = memory_access::left_of(words, at);
    }
}
