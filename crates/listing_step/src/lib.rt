// The steps between two lists of a run: the cut of the query, the limits, the path.
#![tactic(auto)]

ghost use Rattle.std.specs.Prelude.{◌≡◌, true, ◌+◌, ◌*◌, ◌≤◌, ◌<◌, length};
ghost use Rattle.source.specs.Limits.{longest_query, deepest_trie, record_words};
ghost use Rattle.source.specs.Text.{ends_in_dot};
ghost use Rattle.listing_step.specs.Steps.{Cuts, Skips, PathDown, begun, before_of, left};

use listing_annotation::Labelled;
use listing_output::{Path, Run, Tally, Want};

// A query that is cut: its first segment, the rest, and what is wanted of what the segment takes.
#[derive(Clone, Copy)]
pub struct Cut<'a> {
    pub prefix: &'a [u8],
    pub rest: &'a [u8],
    pub want: Want,
}

// Cuts the first segment off, if there is one.
pub fn cut_query<'a>(query: &'a [u8], base: usize, want: Want) -> Cut<'a>
    requires { (ends_in_dot query.now ≡ true) × (length query.now ≤ longest_query) × (base ≤ longest_query) }
    ensures { Cuts query.now base want result }
{
    if query.is_empty() {
        return Cut {
            prefix: query,
            rest: query,
            want,
        };
    }
    let len = text_query::segment_length(query);
    Cut {
        prefix: &query[..len],
        rest: &query[len + 1..],
        want: Want {
            ask: want.ask,
            matched: (base + len) as i32,
        },
    }
}

// Whether a trie's bindings need no listing: more than one segment is left, or lines or bytes are past the limits already.
pub fn skips_bindings(run: &Run, rest: &[u8]) -> bool
    ensures { Skips run.now rest.now result }
{
    0 < rest.len() || run.limits.lines < run.tally.lines || run.limits.bytes < run.tally.bytes
}

// Counts the trie at hand as entered.
pub fn begin(tally: &mut Tally)
    requires { tally.old.entered ≤ 4294967295 }
    ensures { tally.new ≡ begun tally.old }
{
    tally.entered += 1;
}

// What a path has again when a namespace is left. Its links stay where they are, so they need no copy.
#[derive(Clone, Copy)]
pub struct Before {
    pub n: usize,
    pub len: usize,
    pub label: usize,
}

// Puts a branch of namespaces onto the path. The answer is for `leave`.
pub fn enter(words: &[u32], found: Labelled, path: &mut Path) -> Before
    requires link_nonzero { (0 < found.link) × (found.link * record_words ≤ length words.now) }
    requires room { (path.old.n < deepest_trie) × (path.old.len ≤ longest_query) }
    ensures value { result ≡ before_of path.old }
    ensures entered { PathDown words.now path.old found.link found.label path.new }
{
    let before = Before {
        n: path.n,
        len: path.len,
        label: path.label,
    };
    if path.n == 0 {
        path.label = found.label as usize;
    }
    path.links[path.n] = found.link as usize;
    path.n += 1;
    path.len += memory_access::text_len(words, found.link) as usize + 1;
    before
}

// Takes the branch off again: the path stands as before it.
pub fn leave(path: &mut Path, before: Before)
    ensures { path.new ≡ left path.old before }
{
    path.n = before.n;
    path.len = before.len;
    path.label = before.label;
}
