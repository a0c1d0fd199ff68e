// The parts of the soundness test that look at one field of a record: a text, a link, the keys of a side.
#![tactic(auto)]

ghost use Rattle.std.specs.Prelude.{◌≡◌, ◌+◌, ◌*◌, ◌≤◌, ◌<◌, length};
ghost use Rattle.source.specs.Limits.{record_words};
ghost use Rattle.source.specs.Rules.{Fits, ◌<ˢ◌};
ghost use Rattle.memory.specs.Layout.{span};
ghost use Rattle.memory.specs.Sound.{Says, LinkOk, TextOk};
ghost use Rattle.text_query.specs.Queries.{byte_rule};
ghost use Rattle.sound_field.specs.Fields.{link_word, other, end_on, Subtree, Far, NotedOn, CanNoteOn, Ending, SaysSide};

use memory::Span;
use text_query::Rule;

// A side of a branch: of the keys before its own, or of those after it.
#[derive(Clone, Copy)]
pub enum Side {
    Left,
    Right,
}

impl Side {
    // The word of the links on this side.
    #[inline(always)]
    fn word(self) -> usize
        ensures { result ≡ link_word self }
    {
        match self {
            Side::Left => memory::LEFT,
            Side::Right => memory::RIGHT,
        }
    }

    #[inline(always)]
    fn other(self) -> Side
        ensures { result ≡ other self }
    {
        match self {
            Side::Left => Side::Right,
            Side::Right => Side::Left,
        }
    }
}

// Where the ways from a record by the links to the left, and by those to the right, end: at the least key of its tree, and at the greatest.
#[derive(Clone, Copy)]
pub struct Ends {
    pub least: u32,
    pub greatest: u32,
}

impl Ends {
    #[inline(always)]
    fn on(self, side: Side) -> u32
        ensures { result ≡ end_on side self }
    {
        match side {
            Side::Left => self.least,
            Side::Right => self.greatest,
        }
    }
}

// The record that is tested, and the memory that it stands in. That the records before it are right is no field: a fact here has one proof,
// and Before has more.
#[derive(Clone, Copy)]
pub struct Tested<'a> {
    pub words: &'a [u32],
    pub text: &'a [u8],
    pub used: u32,
    pub link: u32,
    pub row: &'a [u32],
}

// Is the span in the used part, `low` to `high` bytes long, and does each byte keep the rule?
pub fn text_ok(text: &[u8], used: u32, at: Span, low: usize, high: usize, rule: Rule) -> bool
    requires { used ≤ length text.now }
    ensures { Says result (TextOk (Fits (byte_rule rule) low high) text.now used at.start at.len) }
{
    let start = at.start as usize;
    let len = at.len as usize;
    if (used as usize) < start + len {
        return false;
    }
    if len < low {
        return false;
    }
    if high < len {
        return false;
    }
    text_query::all_allowed(rule, &text[start..start + len])
}

// Does the link `x`, in the record of `link`, name none or an earlier record of the kind `k`?
pub fn link_ok(words: &[u32], link: u32, x: u32, k: u32) -> bool
    requires { (0 < link) × (link * record_words ≤ length words.now + record_words) }
    ensures { Says result (LinkOk words.now link x k) }
{
    if x == 0 {
        return true;
    }
    if link <= x {
        return false;
    }
    memory_access::word_of(words, x, memory::KIND) == k
}

// Is `a` before `b`?
fn less(a: &[u8], b: &[u8]) -> bool
    ensures { Says result (a.now <ˢ b.now) }
{
    text::string_compare(a, b).order.is_lt()
}

// Is the text of the first span before that of the second?
fn spans_less(text: &[u8], a: Span, b: Span) -> bool
    requires { (a.start + a.len ≤ length text.now) × (b.start + b.len ≤ length text.now) }
    ensures { Says result (span text.now a.start a.len <ˢ span text.now b.start b.len) }
{
    let start = a.start as usize;
    let next = b.start as usize;
    less(
        &text[start..start + a.len as usize],
        &text[next..next + b.len as usize],
    )
}

// Where the way from `link` by the links on a side ends: at itself, or where that of the next record does.
pub fn next_end(words: &[u32], link: u32, side: Side, notes: &[Ends]) -> u32
    requires { CanNoteOn words.now side link notes.now × (link < length notes.now) }
    ensures { Far words.now (link_word side) link result }
{
    let next = memory_access::word_of(words, link, side.word());
    if next == 0 {
        return link;
    }
    notes[next as usize].on(side)
}

// Where the way from `from` by the links on a side ends. The notes have it for the records that they reach.
#[inline(always)]
fn end_of(words: &[u32], from: u32, side: Side, notes: &[Ends]) -> u32
    requires { Ending words.now side from notes.now }
    ensures { Far words.now (link_word side) from result }
{
    let mut x = from;
    // Along links of the memory: no index.
    while notes.len() <= x as usize {
        let next = memory_access::word_of(words, x, side.word());
        if next == 0 {
            return x;
        }
        x = next;
    }
    notes[x as usize].on(side)
}

// Are all keys of the tree `top` on that side of the key, a span of the used text?
#[inline(always)]
pub fn side_ok(t: Tested, k: u32, side: Side, top: u32, key: Span, notes: &[Ends]) -> bool
    requires subtree { Subtree t.words.now t.text.now t.used t.link k top key.start key.len }
    requires noted { NotedOn t.words.now (other side) t.link notes.now }
    ensures { SaysSide t.entry.words.now t.entry.text.now side k top key.start key.len result }
{
    if top == 0 {
        return true;
    }
    let x = end_of(t.words, top, side.other(), notes);
    let found = Span {
        start: memory_access::word_of(t.words, x, memory::TEXT_START),
        len: memory_access::word_of(t.words, x, memory::TEXT_LEN),
    };
    match side {
        Side::Left => spans_less(t.text, found, key),
        Side::Right => spans_less(t.text, key, found),
    }
}
