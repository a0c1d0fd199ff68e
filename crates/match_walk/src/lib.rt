// The branches of a tree that begin with a prefix, one after another: those still to come are noted on the way down.
// Once the notes run out and some were dropped, the tree of the last mark is walked down again, to the branches past the last one given.
// Where notes were dropped and no mark is left the walk starts at the root.
// Words and text stay two parameters: crate memory says why.
#![tactic(auto)]

ghost use Rattle.std.specs.Prelude.{◌≡◌, true, ◌<◌};
ghost use Rattle.find_tree.specs.Tree.{AnyTree};
ghost use Rattle.source.specs.Text.{starts_with};
ghost use Rattle.memory.specs.Layout.{key_at};
ghost use Rattle.find_tree.specs.Links.{matches, after};
ghost use Rattle.match_walk.specs.Matched.{Noted, Matched};

use match_marks::Notes;

// The first branch of a tree that begins with `prefix`, and notes of those after it.
pub fn first_match(
    words: &[u32],
    text: &[u8],
    root: u32,
    prefix: &[u8],
    notes: &mut Notes,
) -> Option<u32>
    requires { AnyTree words.now text.now root }
    ensures { Matched words.now text.now prefix.now notes.new
        (matches words.now text.now root prefix.now) result }
{
    notes.clear();
    match_notes::descend(words, text, prefix, prefix, false, root, notes);
    notes.take_note()
}

// The next one after the branch `at`, by the notes of those after it: what is to its right comes first.
pub fn next_match(
    words: &[u32],
    text: &[u8],
    root: u32,
    prefix: &[u8],
    at: u32,
    notes: &mut Notes,
) -> Option<u32>
    requires any_tree { AnyTree words.now text.now root }
    requires at_nonzero { (0 < at) × AnyTree words.now text.now at }
    requires prefix_value { starts_with (key_at words.now text.now at) prefix.now ≡ true }
    requires noted { Noted words.now text.now prefix.now notes.old at
        (after (key_at words.now text.now) (key_at words.now text.now at)
        (matches words.now text.now root prefix.now)) }
    ensures { Matched words.now text.now prefix.now notes.new
        (after (key_at words.now text.now) (key_at words.now text.now at)
        (matches words.now text.now root prefix.now)) result }
{
    let right = memory_access::right_of(words, at);
    match_notes::note_left(words, text, prefix, right, notes);
    if let Some(next) = notes.take_note() {
        return Some(next);
    }
    if !notes.dropped() {
        return None;
    }
    let low = memory_access::key_of(words, text, at);
    if let Some(marked) = notes.take_mark() {
        match_notes::descend(words, text, prefix, low, true, marked, notes);
        if let Some(next) = notes.take_note() {
            return Some(next);
        }
    }
    match_notes::descend(words, text, prefix, low, true, root, notes);
    notes.take_note()
}
