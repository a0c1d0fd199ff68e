// A listing read back from the lent output: each row as a struct, and its texts as parts of the text that they are in.
#![tactic(auto)]

ghost use Rattle.std.specs.Prelude.{◌≡◌, ◌+◌, ◌*◌, ◌≤◌, length};
ghost use Rattle.memory.specs.Layout.{record_at};
ghost use Rattle.memory.specs.Read.{text_of};
ghost use Rattle.listing_ask.specs.Ask.{asked};
ghost use Rattle.listing_output.specs.Output.{line_bytes, line_words};
ghost use Rattle.listing_row.specs.Rows.{item_in, candidate_in, row_in, words_at};

use listing_ask::Ask;
use memory::{ModSymbol, Span};
use source::LidSymbol;

// The words of a row, by what they hold (crates/listing_output/specs/Output.antt). Those of its item are a branch's, by memory's names.
const MATCHED: usize = 0;

const CANDIDATE_START: usize = 1;

const CANDIDATE_LEN: usize = 2;

const ANNOTATION_START: usize = 3;

const ANNOTATION_LEN: usize = 4;

// The item of a row: of names its kind and number, of modules and namespaces the mod symbol, whose spans are in the table text.
#[derive(Clone, Copy)]
pub enum RowItem {
    Name(LidSymbol),
    Symbol(ModSymbol),
}

// A row. Its match length is a word, 4294967295 for -1; its spans are in the output text.
#[derive(Clone, Copy)]
pub struct Row {
    pub matched: u32,
    pub item: RowItem,
    pub candidate: Span,
    pub annotation: Span,
}

// The item in the first twelve words.
fn item_in(words: &[u32], ask: Ask) -> RowItem
    requires { 12 ≤ length words.now }
    ensures { result ≡ item_in (asked ask) (record_at words.now 1) }
{
    match ask {
        Ask::Names(_) => RowItem::Name(memory_access::lid_of(words, 1)),
        Ask::Modules(_) => RowItem::Symbol(memory_access::symbol_of(words, 1)),
    }
}

// The row in the first twelve words.
fn row_in(words: &[u32], ask: Ask) -> Row
    requires { 12 ≤ length words.now }
    ensures { result ≡ row_in (asked ask) (record_at words.now 1) }
{
    let item = item_in(words, ask);
    let candidate = Span {
        start: memory_access::word_of(words, 1, CANDIDATE_START),
        len: memory_access::word_of(words, 1, CANDIDATE_LEN),
    };
    let annotation = Span {
        start: memory_access::word_of(words, 1, ANNOTATION_START),
        len: memory_access::word_of(words, 1, ANNOTATION_LEN),
    };
    Row {
        matched: memory_access::word_of(words, 1, MATCHED),
        item,
        candidate,
        annotation,
    }
}

// The words that the bytes of a row spell.
fn words_of(bytes: &[u8]) -> [u32; listing_output::LINE]
    requires { line_bytes ≤ length bytes.now }
    ensures { result ≡ line_words bytes.now }
{
    let mut words = [0u32; listing_output::LINE];
    for i in 0..listing_output::LINE {
        words[i] = memory_bytes::word_at(bytes, i);
    }
    words
}

// Row `k` of the bytes.
pub fn row_at(flat: &[u8], k: usize, ask: Ask) -> Row
    requires { k * line_bytes + line_bytes ≤ length flat.now }
    ensures { result ≡ row_in (asked ask) (words_at flat.now k) }
{
    let at = k * listing_output::LINE_BYTES;
    let words = words_of(&flat[at..]);
    row_in(&words, ask)
}

// The span of the candidate of row `k`: two of its words, the others not read.
pub fn candidate_at(flat: &[u8], k: usize) -> Span
    requires { k * line_bytes + line_bytes ≤ length flat.now }
    ensures { result ≡ candidate_in (words_at flat.now k) }
{
    let at = k * listing_output::LINE;
    Span {
        start: memory_bytes::word_at(flat, at + CANDIDATE_START),
        len: memory_bytes::word_at(flat, at + CANDIDATE_LEN),
    }
}

// The text of a span: a row's in the output text, a mod symbol's in the table text.
pub fn text_of<'a>(text: &'a [u8], s: Span) -> &'a [u8]
    requires { s.start + s.len ≤ length text.now }
    ensures { result.now ≡ text_of text.now s }
{
    let a = s.start as usize;
    let e = a + s.len as usize;
    &text[a..e]
}
