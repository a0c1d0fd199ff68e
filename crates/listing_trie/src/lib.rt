// The listing of a trie: bindings ascending, then each namespace ascending with its own listing.
// One run serves counting and writing: a line is written where it fits what is lent, and counting lends nothing.
// The calls go no deeper than six to a trie, and tries no deeper than 17. The listing of a trie, and of a branch, returns the tries entered so far.
// Words and text stay two parameters: crate memory says why.
#![tactic(auto)]

ghost use Rattle.std.specs.Prelude.{true, false, ◌+◌, ◌<◌};
ghost use Rattle.listing_trie.specs.Runs.{BranchAsked, BranchListed, TreeAsked, TreeListed, ListAsked, ListListed, TrieAsked, TrieListed};

use listing_annotation::Labelled;
use listing_output::{Run, Want};
use listing_step::Cut;
use match_marks::Notes;
use merge::Merge;

// Where a run stands in a trie: the query that is cut, and whether the list is of bindings.
#[derive(Clone, Copy)]
struct Search<'a> {
    cut: Cut<'a>,
    leaf: bool,
}

// What a found namespace gives, its listing: the path is that of the namespace meanwhile.
#[cycle(list)]
fn list_below(
    words: &[u32],
    text: &[u8],
    cut: Cut,
    found: Labelled,
    run: &mut Run,
    flat: &mut [u8],
    out: &mut [u8],
) -> usize
    requires { BranchAsked words.now text.now cut.rest.now cut.want false run.old found }
    ensures { BranchListed words.now text.now cut.entry.rest.now cut.entry.want false
        run.old run.new flat.old flat.new out.old out.new found result }
{
    let child = memory_access::held_of(words, found.link);
    let before = listing_step::enter(words, found, &mut run.path);
    let entered = list_trie(words, text, cut.rest, cut.want, child, run, flat, out);
    listing_step::leave(&mut run.path, before);
    entered
}

// What a found branch gives: the line of a branch of bindings, the listing of a namespace. So small that the loops take it in.
#[cycle(list)]
fn list_branch(
    words: &[u32],
    text: &[u8],
    place: Search,
    found: Labelled,
    run: &mut Run,
    flat: &mut [u8],
    out: &mut [u8],
) -> usize
    requires { BranchAsked words.now text.now place.cut.rest.now place.cut.want place.leaf run.old found }
    ensures { BranchListed words.now text.now place.entry.cut.rest.now place.entry.cut.want place.entry.leaf
        run.old run.new flat.old flat.new out.old out.new found result }
{
    if place.leaf {
        listing_line::line(words, text, found, run, place.cut.want, flat, out);
        return run.tally.entered;
    }
    list_below(words, text, place.cut, found, run, flat, out)
}

// What the branches of a tree that begin with a prefix give, in order, each with the tree's label. Stops once the budget is passed.
#[cycle(list)]
fn list_tree(
    words: &[u32],
    text: &[u8],
    place: Search,
    found: Labelled,
    run: &mut Run,
    flat: &mut [u8],
    out: &mut [u8],
)
    requires { TreeAsked words.now text.now place run.old found }
    ensures { TreeListed words.now text.now place.entry run.old run.new
        flat.old flat.new out.old out.new found }
{
    let budget = run.limits.budget;
    let prefix = place.cut.prefix;
    let root = found.link;
    let mut notes = Notes::new();
    let mut next = match_walk::first_match(words, text, root, prefix, &mut notes);
    while let Some(at) = next {
        let here = Labelled {
            link: at,
            label: found.label,
        };
        let entered = list_branch(words, text, place, here, run, flat, out);
        if budget < entered {
            return;
        }
        next = match_walk::next_match(words, text, root, prefix, at, &mut notes);
    }
}

// What the branches of a list that begin with a prefix give, in order, one of each key. Stops once the budget is passed.
// A merge of one tree is a run over that tree.
#[cycle(list)]
fn list_merged(
    words: &[u32],
    text: &[u8],
    place: Search,
    list: u32,
    run: &mut Run,
    flat: &mut [u8],
    out: &mut [u8],
)
    requires { ListAsked words.now text.now place run.old list }
    ensures { ListListed words.now text.now place.entry run.old run.new
        flat.old flat.new out.old out.new list }
{
    let budget = run.limits.budget;
    let prefix = place.cut.prefix;
    let mut merge = Merge::new();
    merge.start(words, text, prefix, list);
    if merge.n == 1 {
        let alone = Labelled {
            link: merge.cells[0].root,
            label: merge.cells[0].label,
        };
        list_tree(words, text, place, alone, run, flat, out);
        return;
    }
    while let Some(given) = merge.next(words, text, prefix) {
        let here = Labelled {
            link: given.branch,
            label: given.label,
        };
        let entered = list_branch(words, text, place, here, run, flat, out);
        if budget < entered {
            return;
        }
    }
}

// The same: no list gives nothing, and a list of one tree needs no merge.
#[cycle(list)]
fn list_names(
    words: &[u32],
    text: &[u8],
    place: Search,
    list: u32,
    run: &mut Run,
    flat: &mut [u8],
    out: &mut [u8],
)
    requires { ListAsked words.now text.now place run.old list }
    ensures { ListListed words.now text.now place.entry run.old run.new
        flat.old flat.new out.old out.new list }
{
    if list == 0 {
        return;
    }
    if let Some(root) = merge::single(words, list) {
        let tree = Labelled {
            link: root,
            label: 0,
        };
        list_tree(words, text, place, tree, run, flat, out);
        return;
    }
    list_merged(words, text, place, list, run, flat, out);
}

// The source's trie_find_prefix': the trie is entered, then its bindings, where at most one segment is left, and its namespaces.
// Once lines or bytes are past the limits only the tries entered are counted.
#[cycle(list)]
pub fn list_trie(
    words: &[u32],
    text: &[u8],
    query: &[u8],
    want: Want,
    trie: u32,
    run: &mut Run,
    flat: &mut [u8],
    out: &mut [u8],
) -> usize
    requires { TrieAsked words.now text.now query.now want run.old trie }
    ensures { TrieListed words.now text.now query.now want run.old run.new
        flat.old flat.new out.old out.new trie result }
{
    let budget = run.limits.budget;
    if budget <= run.tally.entered {
        run.tally.entered = budget + 1;
        return budget + 1;
    }
    let t = memory_access::trie_of(words, trie);
    let cut = listing_step::cut_query(query, run.path.len, want);
    let skip = listing_step::skips_bindings(run, cut.rest);
    listing_step::begin(&mut run.tally);
    let namespaces = Search { cut, leaf: false };
    if skip {
        list_names(words, text, namespaces, t.namespaces, run, flat, out);
        return run.tally.entered;
    }
    let bindings = Search { cut, leaf: true };
    list_names(words, text, bindings, t.bindings, run, flat, out);
    list_names(words, text, namespaces, t.namespaces, run, flat, out);
    run.tally.entered
}
