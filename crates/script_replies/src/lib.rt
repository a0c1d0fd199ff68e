// The replies of the program `console`. Each function writes one at `at` and returns where it ends; every other byte of `out` stays.
// Nothing is assumed.
#![tactic(auto)]

ghost use Rattle.std.specs.Prelude.{◌+◌, ◌≤◌, length};
ghost use Rattle.source.specs.Calls.{signed_word};
ghost use Rattle.text.specs.Laid.{Laid};
ghost use Rattle.script_decimal.specs.Bytes.{bytes, ◌·◌};
ghost use Rattle.script_decimal.specs.Numerals.{decimal};
ghost use Rattle.script_decimal.specs.Items.{name_text};
ghost use Rattle.script_replies.specs.Replies.{signed, item_text, ok_reply, found_reply, none_reply, refused_reply, bad_reply, line_reply, end_reply};
ghost use Rattle.script_replies.specs.Replies.{reply_room};

use script_decimal::digits::put_number;
use source::LidSymbol;

// The item of a line: its kind and number in `complete`, module or namespace in `modules`.
#[derive(Clone, Copy)]
pub enum ItemReply {
    Name(LidSymbol),
    Module,
    Namespace,
}

// Writes `text`. Replies are laid by it and not by `write!`, which may fail and promises nothing of the bytes around.
fn put(out: &mut [u8], at: usize, text: &[u8]) -> usize
    requires { at + length text.now ≤ length out.old }
    ensures { Laid out.old out.new at result text.now }
{
    let end = at + text.len();
    out[at..end].copy_from_slice(text);
    end
}

// Writes a word and a number, in brackets.
fn put_counted(out: &mut [u8], at: usize, word: &[u8], n: u32) -> usize
    requires { at + length word.now + 12 ≤ length out.old }
    ensures { Laid out.old out.new at result (word.now · decimal n · bytes "]\n") }
{
    let a = put(out, at, word);
    let b = put_number(out, a, n);
    put(out, b, b"]\n")
}

// `[ok R]`
#[tactic(auto, unfolding(crate::specs::Replies::ok_reply, script_decimal::specs::Bytes::bytes))]
pub fn put_ok(out: &mut [u8], at: usize, records: u32) -> usize
    requires { at + reply_room ≤ length out.old }
    ensures { Laid out.old out.new at result (ok_reply records) }
{
    put_counted(out, at, b"[ok ", records)
}

// Writes the letter of a kind, then a number.
fn put_name(out: &mut [u8], at: usize, item: LidSymbol) -> usize
    requires { at + 11 ≤ length out.old }
    ensures { Laid out.old out.new at result (name_text item) × (result ≤ at + 11) }
{
    let letter = [source_item::letter_of(item.kind)];
    let a = put(out, at, &letter);
    put_number(out, a, item.number)
}

// `[found N]`
pub fn put_found(out: &mut [u8], at: usize, item: LidSymbol) -> usize
    requires { at + reply_room ≤ length out.old }
    ensures { Laid out.old out.new at result (found_reply item) }
{
    let a = put(out, at, b"[found ");
    let b = put_name(out, a, item);
    put(out, b, b"]\n")
}

// `[none]`
#[tactic(auto, unfolding(crate::specs::Replies::none_reply, script_decimal::specs::Bytes::bytes))]
pub fn put_none(out: &mut [u8], at: usize) -> usize
    requires { at + reply_room ≤ length out.old }
    ensures { Laid out.old out.new at result none_reply }
{
    put(out, at, b"[none]\n")
}

// `[refused C]`
#[tactic(auto, unfolding(crate::specs::Replies::refused_reply, script_decimal::specs::Bytes::bytes))]
pub fn put_refused(out: &mut [u8], at: usize, code: u32) -> usize
    requires { at + reply_room ≤ length out.old }
    ensures { Laid out.old out.new at result (refused_reply code) }
{
    put_counted(out, at, b"[refused ", code)
}

// `[bad]`
#[tactic(auto, unfolding(crate::specs::Replies::bad_reply, script_decimal::specs::Bytes::bytes))]
pub fn put_bad(out: &mut [u8], at: usize) -> usize
    requires { at + reply_room ≤ length out.old }
    ensures { Laid out.old out.new at result bad_reply }
{
    put(out, at, b"[bad]\n")
}

// Writes an item.
#[tactic(auto, unfolding(crate::specs::Replies::item_text, script_decimal::specs::Bytes::bytes))]
fn put_item(out: &mut [u8], at: usize, item: ItemReply) -> usize
    requires { at + 11 ≤ length out.old }
    ensures { Laid out.old out.new at result (item_text item) × (result ≤ at + 11) }
{
    match item {
        ItemReply::Name(c) => put_name(out, at, c),
        ItemReply::Module => put(out, at, b"m"),
        ItemReply::Namespace => put(out, at, b"n"),
    }
}

// Writes a line's texts, each with what closes it.
fn put_texts(out: &mut [u8], at: usize, annotation: &[u8], candidate: &[u8]) -> usize
    requires { at + length annotation.now + length candidate.now + 4 ≤ length out.old }
    ensures { Laid out.old out.new at result (annotation.now · bytes "] " · candidate.now · bytes "]\n") }
{
    let a = put(out, at, annotation);
    let b = put(out, a, b"] ");
    let c = put(out, b, candidate);
    put(out, c, b"]\n")
}

// Writes a match length that is a word, as the C interface has it: 4294967295 for -1.
fn put_word(out: &mut [u8], at: usize, word: u32) -> usize
    requires { at + 10 ≤ length out.old }
    ensures { Laid out.old out.new at result (signed (signed_word word)) × (result ≤ at + 10) }
{
    if word == u32::MAX {
        return put(out, at, b"-1");
    }
    put_number(out, at, word)
}

// Writes a line's numbers, its length as a word.
fn put_words(out: &mut [u8], at: usize, word: u32, item: ItemReply) -> usize
    requires { at + 28 ≤ length out.old }
    ensures { Laid out.old out.new at result
        (bytes "[line " · signed (signed_word word) · bytes " " · item_text item) × (result ≤ at + 28) }
{
    let a = put(out, at, b"[line ");
    let b = put_word(out, a, word);
    let c = put(out, b, b" ");
    put_item(out, c, item)
}

// `[line L I [annotation] candidate]`, where L is a word: 4294967295 for -1.
pub fn put_row(
    out: &mut [u8],
    at: usize,
    word: u32,
    item: ItemReply,
    annotation: &[u8],
    candidate: &[u8],
) -> usize
    requires { at + reply_room + length annotation.now + length candidate.now ≤ length out.old }
    ensures { Laid out.old out.new at result
        (line_reply (signed_word word) item annotation.now candidate.now) ×
        (result ≤ at + reply_room + length annotation.now + length candidate.now) }
{
    let a = put_words(out, at, word, item);
    let b = put(out, a, b" [");
    put_texts(out, b, annotation, candidate)
}

// `[end lines entered]`
pub fn put_end(out: &mut [u8], at: usize, lines: u32, entered: u32) -> usize
    requires { at + reply_room ≤ length out.old }
    ensures { Laid out.old out.new at result (end_reply lines entered) }
{
    let a = put(out, at, b"[end ");
    let b = put_number(out, a, lines);
    put_counted(out, b, b" ", entered)
}
