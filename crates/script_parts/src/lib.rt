// The parts of a line: a run of bytes of one sort, what closes it, and what follows. Nothing is known of the forms of a script.
#![tactic(auto)]

ghost use Rattle.std.specs.Prelude.{◌≡◌};
ghost use Rattle.script_parts.specs.Parts.{run_length, Stops, WordSays, PieceSays, QuerySays, PairSays, LastSays, NumberedSays, ItemSays, IdSays};
ghost use Rattle.script_decimal.specs.Bytes.{LineEnd};

use script_decimal::digits::numeral;
use script_decimal::{Sort, byte_ok};
use source::{ItemKind, LidSymbol};

// A host and a query.
#[derive(Clone, Copy)]
pub struct Pair<'a> {
    pub host: &'a [u8],
    pub query: &'a [u8],
}

// An id and an item.
#[derive(Clone, Copy)]
pub struct Tail<'a> {
    pub id: &'a [u8],
    pub item: LidSymbol,
}

// How many bytes at the start of `s` may stand in a part.
fn run(s: &[u8], sort: Sort) -> usize
    ensures { result ≡ run_length sort s.now }
{
    s.iter().take_while(|b| byte_ok(sort, **b)).count()
}

// What follows `word`, where `s` begins with it.
pub fn word_end<'a>(s: &'a [u8], word: &[u8]) -> Option<&'a [u8]>
    ensures { WordSays s.now word.now result }
{
    s.strip_prefix(word)
}

// The part at the start of `s`, where `close` follows it, and what follows that.
pub fn piece<'a>(s: &'a [u8], sort: Sort, close: &[u8]) -> Option<(&'a [u8], &'a [u8])>
    requires { Stops sort close.now }
    ensures { PieceSays sort close.now s.now result }
{
    let (part, closed) = s.split_at(run(s, sort));
    let rest = word_end(closed, close)?;
    Some((part, rest))
}

// The query that the two brackets at the end of `s` close.
#[tactic(auto, unfolding(script_decimal::specs::Bytes::byte_ok))]
pub fn query_end(s: &[u8]) -> Option<&[u8]>
    ensures { QuerySays s.now result }
{
    let (query, rest) = piece(s, Sort::Query, b"]]")?;
    if !rest.is_empty() {
        return None;
    }
    Some(query)
}

// A host and a query, up to the two brackets at the end of `s`.
#[tactic(auto, unfolding(script_decimal::specs::Bytes::byte_ok))]
pub fn pair_end(s: &[u8]) -> Option<Pair<'_>>
    ensures { PairSays s.now result }
{
    let (host, rest) = piece(s, Sort::Query, b"] [")?;
    let query = query_end(rest)?;
    Some(Pair { host, query })
}

// What the bracket at the end of `s` closes.
pub fn last_end(s: &[u8]) -> Option<&[u8]>
    ensures { LastSays s.now result }
{
    s.strip_suffix(b"]")
}

// The item of the kind whose number the digits are.
fn numbered(digits: &[u8], kind: ItemKind) -> Option<LidSymbol>
    ensures { NumberedSays kind digits.now result }
{
    let number = numeral(digits)?;
    Some(LidSymbol { kind, number })
}

// The item that the text is: a letter and a number, or the number of a Register.
pub fn item_of(text: &[u8]) -> Option<LidSymbol>
    ensures { ItemSays text.now result }
{
    match text {
        [b't', digits @ ..] => numbered(digits, ItemKind::Timer),
        [b'p', digits @ ..] => numbered(digits, ItemKind::Port),
        [b'r', digits @ ..] => numbered(digits, ItemKind::Register),
        _ => numbered(text, ItemKind::Register),
    }
}

// An id and an item, up to the bracket at the end of `s`.
#[tactic(auto, unfolding(script_decimal::specs::Bytes::byte_ok))]
pub fn id_end(s: &[u8]) -> Option<Tail<'_>>
    ensures { IdSays s.now result }
{
    let (id, rest) = piece(s, Sort::Word, b" ")?;
    if id.is_empty() {
        return None;
    }
    let word = last_end(rest)?;
    let item = item_of(word)?;
    Some(Tail { id, item })
}

// Where the first line of `input` ends: at its line feed, or at the end of `input`.
pub fn line_end(input: &[u8]) -> usize
    ensures { LineEnd input.now result }
{
    run(input, Sort::Line)
}
