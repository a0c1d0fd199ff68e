// The branches of a tree that begin with a prefix: the first one, and the one after another.
// Each is found from the links and keys alone, so that no more than the current branch is kept.
// The loops go down links of the memory, where 0 is none: no index.
// Words and text stay two parameters: crate memory says why.
#![tactic(auto)]

ghost use Rattle.std.specs.Prelude.{◌≡◌, true, false, slice_get};
ghost use mathlib.Core.List.{Memᴰ};
ghost use Rattle.source.specs.Text.{starts_with};
ghost use Rattle.memory.specs.Layout.{record_at, right_link, key_at};
ghost use Rattle.find_tree.specs.Tree.{AnyTree};
ghost use Rattle.find_tree.specs.Links.{branches, keep, matches, past, after};

// The branch with the least key that is not before `low`.
fn least_from(words: &[u32], text: &[u8], root: u32, low: &[u8]) -> Option<u32>
    requires { AnyTree words.now text.now root }
    ensures { result ≡ slice_get
        (keep (key_at words.now text.now) (past false low.now) (branches words.now root)) 0 }
{
    let mut at = root;
    let mut found = None;
    while 0 < at {
        if find_tree::key_past(words, text, at, low, false) {
            found = Some(at);
            at = memory_access::left_of(words, at);
        } else {
            at = memory_access::right_of(words, at);
        }
    }
    found
}

// The branch with the least key. No key is compared, as it would be with an empty `low` above.
fn least_of(words: &[u32], text: &[u8], root: u32) -> Option<u32>
    requires { AnyTree words.now text.now root }
    ensures { result ≡ slice_get (branches words.now root) 0 }
{
    let mut at = root;
    let mut found = None;
    while 0 < at {
        found = Some(at);
        at = memory_access::left_of(words, at);
    }
    found
}

// Whether the branch `at` of the tree of `link` is to the left of `link`. A link is no later than those above it, so that often the sides' links say it.
fn is_left(words: &[u32], text: &[u8], link: u32, at: u32) -> bool
    requires any_tree { AnyTree words.now text.now link }
    requires fact { Memᴰ at (branches words.now link) }
    requires fact_2 { link ≡ at → ⊥ }
    ensures { result ≡ past true (key_at words.now text.now at) (key_at words.now text.now link) }
{
    if memory_access::right_of(words, link) < at {
        return true;
    }
    if memory_access::left_of(words, link) < at {
        return false;
    }
    let key = memory_access::key_of(words, text, at);
    find_tree::key_past(words, text, link, key, true)
}

// The branch above `at` that is the nearest to have it to its left.
fn branch_above(words: &[u32], text: &[u8], root: u32, at: u32) -> Option<u32>
    requires any_tree { AnyTree words.now text.now root }
    requires fact { Memᴰ at (branches words.now root) }
    requires at_value { right_link (record_at words.now at) ≡ 0 }
    ensures { result ≡ slice_get
        (after (key_at words.now text.now) (key_at words.now text.now at) (branches words.now root)) 0 }
{
    let mut link = root;
    let mut found = None;
    while link != at {
        if is_left(words, text, link, at) {
            found = Some(link);
            link = memory_access::left_of(words, link);
        } else {
            link = memory_access::right_of(words, link);
        }
    }
    found
}

// The branch after the branch `at`: the least to its right, or where nothing is there one above it.
fn branch_after(words: &[u32], text: &[u8], root: u32, at: u32) -> Option<u32>
    requires any_tree { AnyTree words.now text.now root }
    requires fact { Memᴰ at (branches words.now root) }
    ensures { result ≡ slice_get
        (after (key_at words.now text.now) (key_at words.now text.now at) (branches words.now root)) 0 }
{
    let right = memory_access::right_of(words, at);
    if 0 < right {
        return least_of(words, text, right);
    }
    branch_above(words, text, root, at)
}

// The first branch whose key begins with `prefix`.
pub fn tree_first(words: &[u32], text: &[u8], root: u32, prefix: &[u8]) -> Option<u32>
    requires { AnyTree words.now text.now root }
    ensures { result ≡ slice_get (matches words.now text.now root prefix.now) 0 }
{
    let least = least_from(words, text, root, prefix)?;
    find_tree::key_begins(words, text, least, prefix).then_some(least)
}

// The next one after the branch `at`. Those that begin with the prefix stand together, so that only the next branch can be one.
pub fn tree_next(words: &[u32], text: &[u8], root: u32, prefix: &[u8], at: u32) -> Option<u32>
    requires any_tree { AnyTree words.now text.now root }
    requires fact { Memᴰ at (branches words.now root) }
    requires prefix_value { starts_with (key_at words.now text.now at) prefix.now ≡ true }
    ensures { result ≡ slice_get (after (key_at words.now text.now) (key_at words.now text.now at)
        (matches words.now text.now root prefix.now)) 0 }
{
    let next = branch_after(words, text, root, at)?;
    find_tree::key_begins(words, text, next, prefix).then_some(next)
}
