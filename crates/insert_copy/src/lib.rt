// The branches that an insertion makes: one of the way down copied with another side, the new one with the key and the sides of the one it replaces.
// The way down is noted in the records that they take.
#![tactic(auto)]

ghost use Rattle.std.specs.Prelude.{◌≡◌, ◌*◌, ◌≤◌, ◌<◌, length};
ghost use Rattle.source.specs.Limits.{record_words};
ghost use Rattle.memory.specs.Layout.{kind_word, trie_link};
ghost use Rattle.insert_copy.specs.Copies.{of_namespaces, branch_depth, DepthOk, with_sides, raised_row, RaiseOk, with_key, lowest_row, LowestOk};

// Whether a kind is that of branches of namespaces.
fn of_namespaces(kind: u32) -> bool
    ensures { result ≡ of_namespaces kind }
{
    (kind == memory::NAMESPACE_KIND) | (kind == memory::NAMESPACE_KIND + memory::OF_MODULES)
}

// The depth that a branch stores, by what its links store.
fn branch_depth(words: &[u32], kind: u32, held: u32, left: u32, right: u32) -> u32
    requires { DepthOk words.now kind held left right }
    ensures { result ≡ branch_depth words.now kind held left right }
{
    if of_namespaces(kind) {
        let sides = memory_access::depth_of(words, left).max(memory_access::depth_of(words, right));
        return (memory_access::depth_of(words, held) + 1).max(sides);
    }
    0
}

// The words of a branch with other sides.
fn with_sides(words: &[u32], row: [u32; memory::ROW], left: u32, right: u32) -> [u32; memory::ROW]
    requires { DepthOk words.now (kind_word row) (trie_link row) left right }
    ensures { result ≡ with_sides words.now row left right }
{
    let depth = branch_depth(words, row[memory::KIND], row[memory::HELD], left, right);
    memory_access::make::with_sides(row, left, right, depth)
}

// The copy of the branch that record number `at` notes, with the link `at` on the side taken.
pub fn raised_row(words: &[u32], at: u32) -> [u32; memory::ROW]
    requires { RaiseOk words.now at }
    ensures { result ≡ raised_row words.now at }
{
    let old = memory_access::row_of(words, memory_access::note_link(words, at + 1));
    if memory_access::note_side(words, at + 1) == 0 {
        return with_sides(words, old, at, old[memory::RIGHT]);
    }
    with_sides(words, old, old[memory::LEFT], at)
}

// The words of a branch with the key of the branch that `link` names.
fn with_key(words: &[u32], row: [u32; memory::ROW], link: u32) -> [u32; memory::ROW]
    requires { (0 < link) × (link * record_words ≤ length words.now) }
    ensures { result ≡ with_key words.now row link }
{
    let mut new = row;
    new[memory::TEXT_START] = memory_access::word_of(words, link, memory::TEXT_START);
    new[memory::TEXT_LEN] = memory_access::text_len(words, link);
    new
}

// The new branch, with the key and the sides of the one that record number `at` notes, if it notes one.
pub fn lowest_row(words: &[u32], at: u32, row: [u32; memory::ROW]) -> [u32; memory::ROW]
    requires { LowestOk words.now at row }
    ensures { result ≡ lowest_row words.now at row }
{
    let link = memory_access::note_link(words, at + 1);
    if link == 0 {
        return with_sides(words, row, 0, 0);
    }
    let keyed = with_key(words, row, link);
    with_sides(
        words,
        keyed,
        memory_access::left_of(words, link),
        memory_access::right_of(words, link),
    )
}
