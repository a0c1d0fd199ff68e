// One tree of the record memory: a key beside that of a branch, and the place of a key.
// A tree is the link of its root; the same functions serve both tables and both levels.
// Words and text stay two parameters: crate memory says why.
#![tactic(auto)]

ghost use Rattle.std.specs.Prelude.{◌≡◌, ◌<◌, IfSome};
ghost use Rattle.std.specs.Option.{unwrap_or};
ghost use Rattle.source.specs.Text.{string_compare, starts_with};
ghost use Rattle.memory.specs.Layout.{key_at};
ghost use Rattle.text.specs.Text.{ordering};
ghost use Rattle.find_tree.specs.Tree.{AnyTree, FindsBranch, Placed};
ghost use Rattle.find_tree.specs.Links.{past};

use std::cmp::Ordering;

// How `key` compares with the key of a branch.
pub fn key_order(words: &[u32], text: &[u8], link: u32, key: &[u8]) -> Ordering
    requires { (0 < link) × AnyTree words.now text.now link }
    ensures { ordering result ≡ string_compare key.now (key_at words.now text.now link) }
{
    let c = text::string_compare(key, memory_access::key_of(words, text, link));
    c.order
}

// Whether the key of a branch begins with `prefix`.
pub fn key_begins(words: &[u32], text: &[u8], link: u32, prefix: &[u8]) -> bool
    requires { (0 < link) × AnyTree words.now text.now link }
    ensures { result ≡ starts_with (key_at words.now text.now link) prefix.now }
{
    text::starts_with(memory_access::key_of(words, text, link), prefix)
}

// Where a key stands in a tree: its branch, if there is one, and how many branches an insertion builds.
#[derive(Clone, Copy)]
pub struct Place {
    pub link: Option<u32>,
    pub count: u32,
}

// The place of a key.
pub fn place_of(words: &[u32], text: &[u8], root: u32, key: &[u8]) -> Place
    requires { AnyTree words.now text.now root }
    ensures { Placed words.now text.now root key.now result }
{
    let mut link = root;
    let mut count = 1;
    // Down links of the memory, where 0 is none: no index.
    while 0 < link {
        match key_order(words, text, link, key) {
            Ordering::Less => {
                link = memory_access::left_of(words, link);
                count += 1;
            }
            Ordering::Equal => {
                return Place {
                    link: Some(link),
                    count,
                };
            }
            Ordering::Greater => {
                link = memory_access::right_of(words, link);
                count += 1;
            }
        }
    }
    Place { link: None, count }
}

// The branch that has the key.
pub fn btree_find_exact(words: &[u32], text: &[u8], root: u32, key: &[u8]) -> Option<u32>
    requires { AnyTree words.now text.now root }
    ensures nonzero { IfSome result (λ link. 0 < link) }
    ensures found { FindsBranch words.now text.now root key.now (unwrap_or result 0) }
{
    place_of(words, text, root, key).link
}

// Whether the key of a branch is after `low`, or at least as great where `strict` is false.
pub fn key_past(words: &[u32], text: &[u8], link: u32, low: &[u8], strict: bool) -> bool
    requires { (0 < link) × AnyTree words.now text.now link }
    ensures { result ≡ past strict low.now (key_at words.now text.now link) }
{
    match key_order(words, text, link, low) {
        Ordering::Less => true,
        Ordering::Equal => !strict,
        Ordering::Greater => false,
    }
}
