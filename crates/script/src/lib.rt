// The forms of a line of the program `console`. `parse` answers the form that spells a line, or that none does. Nothing is assumed.
#![tactic(auto)]

ghost use Rattle.std.specs.Prelude.{◌≡◌, get_or};
ghost use Rattle.script.specs.Script.{key, import_kind, Parsed};
ghost use Rattle.script.specs.Keys.{key_by, key_of, Only};

use register_kind::CallKind;
use script_decimal::Sort;
use script_parts::{Pair, Tail, id_end, last_end, pair_end, piece, query_end, word_end};

// The longest line that is read, without its line feed.
const LINE_BYTES: usize = 2048;

// The key of a kind that has none.
const NO_KEY: &[u8] = b"";

// The forms of a host and a query: `include`, `open m`, `open n`.
#[derive(Clone, Copy)]
pub enum Import {
    Include,
    OpenModule,
    OpenNamespace,
}

// The forms of a query alone: `find`, `complete`, `modules`.
#[derive(Clone, Copy)]
pub enum Question {
    Find,
    Complete,
    Modules,
}

// What a line is: a registration, its kind and its texts (host or module query; id, included query or file path; key, empty where the
// kind has none); or a question.
#[derive(Clone, Copy)]
pub enum LineForm<'a> {
    Register {
        kind: CallKind,
        host: &'a [u8],
        other: &'a [u8],
        key: &'a [u8],
    },
    Ask {
        what: Question,
        query: &'a [u8],
    },
}

// A form, by what its line begins with.
#[derive(Clone, Copy)]
enum Key {
    Name,
    Alias,
    Import(Import),
    Module(bool),
    Ask(Question),
}

// The byte at `i`, or 0 past the line's end.
fn byte_at(line: &[u8], i: usize) -> u8
    ensures { result ≡ get_or line.now i 0 }
{
    line.get(i).copied().unwrap_or(0)
}

// The only form that a line can be, by its bytes 1, 6 and 8.
fn key_by(b: u8, c: u8, d: u8) -> Key
    ensures { result ≡ key_by b c d }
{
    match (b, c, d) {
        (b'n', _, _) => Key::Name,
        (b'a', _, _) => Key::Alias,
        (b'i', _, _) => Key::Import(Import::Include),
        (b'o', b'm', _) => Key::Import(Import::OpenModule),
        (b'o', _, _) => Key::Import(Import::OpenNamespace),
        (b'f', _, _) => Key::Ask(Question::Find),
        (b'c', _, _) => Key::Ask(Question::Complete),
        (_, _, b'l') => Key::Module(true),
        (_, _, b'u') => Key::Module(false),
        _ => Key::Ask(Question::Modules),
    }
}

// The only form that the line can be.
fn key_of(line: &[u8]) -> Key
    ensures { result ≡ key_of line.now }
{
    key_by(byte_at(line, 1), byte_at(line, 6), byte_at(line, 8))
}

// What a line of the form begins with.
#[tactic(auto, unfolding(crate::specs::Script::key, script_decimal::specs::Bytes::bytes))]
fn word_of(form: Key) -> &'static [u8]
    ensures { result.now ≡ key form }
{
    match form {
        Key::Name => b"[name [",
        Key::Alias => b"[alias ",
        Key::Import(Import::Include) => b"[include [",
        Key::Import(Import::OpenModule) => b"[open m [",
        Key::Import(Import::OpenNamespace) => b"[open n [",
        Key::Module(true) => b"[module l [",
        Key::Module(false) => b"[module u [",
        Key::Ask(Question::Find) => b"[find [",
        Key::Ask(Question::Complete) => b"[complete [",
        Key::Ask(Question::Modules) => b"[modules [",
    }
}

// The kind of an import: an open of a module is an include.
fn import_kind(how: Import) -> CallKind
    ensures { result ≡ import_kind how }
{
    match how {
        Import::Include => CallKind::Include,
        Import::OpenModule => CallKind::Include,
        Import::OpenNamespace => CallKind::Open,
    }
}

// `[name [host] id N]`, N an item
#[tactic(auto, unfolding(script_decimal::specs::Bytes::byte_ok))]
fn name_form(line: &[u8]) -> Option<LineForm<'_>>
    requires { Only line.now Key.Name }
    ensures { Parsed line.now result }
{
    let begun = word_end(line, word_of(Key::Name))?;
    let (host, rest) = piece(begun, Sort::Query, b"] ")?;
    let Tail { id, item } = id_end(rest)?;
    Some(LineForm::Register {
        kind: CallKind::Name(item.kind, item.number),
        host,
        other: id,
        key: NO_KEY,
    })
}

// `[include [host] [q]]`, `[open m [host] [q]]`, `[open n [host] [q]]`
fn import_form(line: &[u8], how: Import) -> Option<LineForm<'_>>
    requires { Only line.now (Key.Import how) }
    ensures { Parsed line.now result }
{
    let begun = word_end(line, word_of(Key::Import(how)))?;
    let Pair { host, query } = pair_end(begun)?;
    Some(LineForm::Register {
        kind: import_kind(how),
        host,
        other: query,
        key: NO_KEY,
    })
}

// `[alias key [host] [q]]`
#[tactic(auto, unfolding(script_decimal::specs::Bytes::byte_ok))]
fn alias_form(line: &[u8]) -> Option<LineForm<'_>>
    requires { Only line.now Key.Alias }
    ensures { Parsed line.now result }
{
    let begun = word_end(line, word_of(Key::Alias))?;
    let (key, rest) = piece(begun, Sort::Word, b" [")?;
    if key.is_empty() {
        return None;
    }
    let Pair { host, query } = pair_end(rest)?;
    Some(LineForm::Register {
        kind: CallKind::Alias,
        host,
        other: query,
        key,
    })
}

// `[module l [q] path]`, `[module u [q] path]`
#[tactic(auto, unfolding(script_decimal::specs::Bytes::byte_ok))]
fn module_form(line: &[u8], loaded: bool) -> Option<LineForm<'_>>
    requires { Only line.now (Key.Module loaded) }
    ensures { Parsed line.now result }
{
    let begun = word_end(line, word_of(Key::Module(loaded)))?;
    let (query, rest) = piece(begun, Sort::Query, b"] ")?;
    let path = last_end(rest)?;
    Some(LineForm::Register {
        kind: CallKind::Module(loaded),
        host: query,
        other: path,
        key: NO_KEY,
    })
}

// `[find [q]]`, `[complete [q]]`, `[modules [q]]`
fn ask_form(line: &[u8], what: Question) -> Option<LineForm<'_>>
    requires { Only line.now (Key.Ask what) }
    ensures { Parsed line.now result }
{
    let begun = word_end(line, word_of(Key::Ask(what)))?;
    let query = query_end(begun)?;
    Some(LineForm::Ask { what, query })
}

// The form that a line is, without its line feed.
pub fn parse(line: &[u8]) -> Option<LineForm<'_>>
    ensures { Parsed line.now result }
{
    if line.len() > LINE_BYTES {
        return None;
    }
    match key_of(line) {
        Key::Name => name_form(line),
        Key::Alias => alias_form(line),
        Key::Import(how) => import_form(line, how),
        Key::Module(loaded) => module_form(line, loaded),
        Key::Ask(what) => ask_form(line, what),
    }
}
