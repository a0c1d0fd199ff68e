// Queries, names and paths in bytes: which bytes may stand in each, the segments of a query, and what a survey tells of one.
#![tactic(auto)]

ghost use Rattle.std.specs.Prelude.{◌≡◌};
ghost use Rattle.std.specs.Iterator.{YieldsFirstRef, item_count};
ghost use Rattle.source.specs.Text.{name_byte, segments};
ghost use Rattle.source.specs.Rules.{all};
ghost use Rattle.text_query.specs.Queries.{byte_rule, before_dot, Surveyed};

// Bytes of a name, segments of a query, bytes of a query, of a full name or label (a query without its last dot), of a file path, at most.
pub const NAME_MOST: usize = 31;

pub const SEGMENTS_MOST: usize = 17;

pub const QUERY_MOST: usize = SEGMENTS_MOST * (NAME_MOST + 1);

pub const FULL_NAME_MOST: usize = QUERY_MOST - 1;

pub const PATH_MOST: usize = 120;

// The dot that ends a segment.
pub const DOT: u8 = b'.';

// The byte rules: of names, of queries, labels and full names, of file paths.
#[derive(Clone, Copy)]
pub enum Rule {
    Name,
    Query,
    Path,
}

// Whether a byte may stand in a name.
fn name_byte(b: u8) -> bool
    ensures { result ≡ name_byte b }
{
    (b'!' <= b) & (b <= b'~') & !((b == DOT) | (b == b'[') | (b == b']'))
}

// Whether a rule lets a byte through.
pub fn allowed(rule: Rule, b: u8) -> bool
    ensures { result ≡ byte_rule rule b }
{
    match rule {
        Rule::Name => name_byte(b),
        Rule::Query => name_byte(b) | (b == DOT),
        Rule::Path => (b' ' <= b) & (b <= b'~'),
    }
}

// Whether a rule lets every byte of `s` through.
pub fn all_allowed(rule: Rule, s: &[u8]) -> bool
    ensures { result ≡ all (byte_rule rule) s.now }
{
    // No branch: the soundness test reads every text.
    let mut ok = true;
    for b in s {
        ok &= allowed(rule, *b);
    }
    ok
}

// How many bytes stand before the first dot; all of them where there is none.
pub fn segment_length(s: &[u8]) -> usize
    ensures { result ≡ before_dot s.now }
{
    s.iter().position(|b| *b == DOT).unwrap_or(s.len())
}

// The segments of a query, outermost first. A last segment without its dot is one too.
#[derive(Clone, Copy)]
pub struct QuerySegments<'a> {
    // What is left of the query.
    pub rest: &'a [u8],
}

// The segments of `query`, one after another.
pub fn segments_of<'a>(query: &'a [u8]) -> QuerySegments<'a>
    ensures { result.rest.now ≡ query.now }
{
    QuerySegments { rest: query }
}

impl<'a> Iterator for QuerySegments<'a> {
    type Item = &'a [u8];

    ghost next_gives = { YieldsFirstRef (λ s. segments s.rest.now) };

    ghost remaining = { item_count (λ s. segments s.rest.now) };

    fn next(&mut self) -> Option<&'a [u8]> {
        let rest = self.rest;
        if rest.is_empty() {
            return None;
        }
        let n = segment_length(rest);
        self.rest = &rest[rest.len().min(n + 1)..];
        Some(&rest[..n])
    }
}

// Of a query: whether it is malformed, has an empty segment, is too long, and how many segments it has.
#[derive(Clone, Copy)]
pub struct Survey {
    pub malformed: bool,
    pub empty: bool,
    pub long: bool,
    pub segments: usize,
}

// One pass over a query. A last segment without its dot counts too.
pub fn query_survey(s: &[u8]) -> Survey
    ensures { Surveyed s.now result }
{
    let mut ok = true;
    let mut empty = false;
    let mut long = false;
    let mut segments: usize = 0;
    let mut start = 0;
    for i in 0..s.len() {
        if s[i] == DOT {
            let n = i - start;
            empty |= n == 0;
            long |= NAME_MOST < n;
            segments += 1;
            start = i + 1;
        } else {
            ok &= name_byte(s[i]);
        }
    }
    if start < s.len() {
        let all = segments + 1;
        return Survey {
            malformed: true,
            empty,
            long: long | (NAME_MOST < s.len() - start) | (SEGMENTS_MOST < all),
            segments: all,
        };
    }
    Survey {
        malformed: !ok,
        empty,
        long: long | (SEGMENTS_MOST < segments),
        segments,
    }
}
