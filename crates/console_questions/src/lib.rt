// The line of a question answered: a look-up or a completion of a table whose memory is sound by proof, and its reply.
// Words and text stay two parameters: crate memory says why.
#![tactic(auto)]

ghost use Rattle.std.specs.Prelude.{◌≡◌, ◌+◌, ◌≤◌, length};
ghost use Rattle.text.specs.Laid.{Laid};
ghost use Rattle.script_replies.specs.Replies.{reply_room};
ghost use Rattle.listing_ask.specs.Ask.{asked};
ghost use Rattle.listing_row.specs.Rows.{TextsIn, words_from};
ghost use Rattle.table.specs.Header.{IsSound};
ghost use Rattle.table_roots.specs.Answers.{name_found};
ghost use Rattle.console_questions.specs.Questions.{found_text};
ghost use Rattle.console_questions.specs.RowReplies.{item_shown, row_room, row_text, RowsIn, rows_room, rows_text, room, RowsShown, shown_text};
ghost use Rattle.console_questions.specs.Left.{CompletedLine, AskedLine};

use listing::Listed;
use listing_row::{Row, RowItem};
use memory::ModSymbol;
use refusals::Refusal;
use script_replies::ItemReply;
use source::{KindFilter, LidSymbol};
use table::Table;

// How many tries a completion may enter.
const BUDGET: u32 = 4096;

// Writes the reply to a look-up.
fn put_found(reply: &mut [u8], at: usize, f: Result<Option<LidSymbol>, Refusal>) -> usize
    requires { at + reply_room ≤ length reply.old }
    ensures { Laid reply.old reply.new at result (found_text (name_found f)) }
{
    match f {
        Ok(Some(n)) => script_replies::put_found(reply, at, n),
        Ok(None) => script_replies::put_none(reply, at),
        Err(x) => {
            let n = u32::from(x);
            script_replies::put_refused(reply, at, n)
        }
    }
}

// The item of a row, as a reply has it.
fn item_reply(item: RowItem) -> ItemReply
    ensures { result ≡ item_shown item }
{
    match item {
        RowItem::Name(c) => ItemReply::Name(c),
        RowItem::Symbol(ModSymbol::Module(..)) => ItemReply::Module,
        RowItem::Symbol(ModSymbol::Namespace(..)) => ItemReply::Namespace,
    }
}

// Writes the reply of a row, whose texts are in `pane`.
fn put_row(row: Row, pane: &[u8], reply: &mut [u8], at: usize) -> usize
    requires texts_in { TextsIn pane.now row }
    requires row_in_bounds { at + row_room row ≤ length reply.old }
    ensures { Laid reply.old reply.new at result (row_text pane.now row) × (result ≤ at + row_room row) }
{
    script_replies::put_row(
        reply,
        at,
        row.matched,
        item_reply(row.item),
        listing_row::text_of(pane, row.annotation),
        listing_row::text_of(pane, row.candidate),
    )
}

// Writes the replies of the first `n` rows.
fn put_rows(
    flat: &[u8],
    pane: &[u8],
    ask: listing_ask::Ask,
    n: usize,
    reply: &mut [u8],
    at: usize,
) -> usize
    requires rows_in { RowsIn (asked ask) flat.now pane.now n }
    requires n_in_bounds { at + rows_room (asked ask) (words_from flat.now 0 n) ≤ length reply.old }
    ensures { Laid reply.old reply.new at result (rows_text (asked ask) pane.now (words_from flat.now 0 n)) ×
        (result ≤ at + rows_room (asked ask) (words_from flat.now 0 n)) }
{
    let mut e = at;
    for i in 0..n {
        let r = listing_row::row_at(flat, i, ask);
        e = put_row(r, pane, reply, e);
    }
    e
}

// Writes the reply to a completion, whose lines stand in `flat` and `pane`.
fn put_completed(
    flat: &[u8],
    pane: &[u8],
    ask: listing_ask::Ask,
    c: Result<Listed, Refusal>,
    reply: &mut [u8],
    at: usize,
) -> usize
    requires rows_shown { RowsShown (asked ask) flat.now pane.now c }
    requires pane_in_bounds { at + room flat.now pane.now ≤ length reply.old }
    ensures { Laid reply.old reply.new at result (shown_text (asked ask) flat.now pane.now c) }
{
    match c {
        Ok(l) => {
            let e = put_rows(flat, pane, ask, l.lines as usize, reply, at);
            script_replies::put_end(reply, e, l.lines, l.entered)
        }
        Err(x) => {
            let n = u32::from(x);
            script_replies::put_refused(reply, at, n)
        }
    }
}

// The table that is asked, and where its reply begins.
#[derive(Clone, Copy)]
pub struct Asking {
    pub table: Table,
    pub at: usize,
}

// `[complete [q]]`, `[modules [q]]`
fn complete_line(
    start: Asking,
    words: &[u32],
    text: &[u8],
    ask: listing_ask::Ask,
    query: &[u8],
    flat: &mut [u8],
    pane: &mut [u8],
    reply: &mut [u8],
) -> usize
    requires sound { IsSound words.now text.now start.table }
    requires pane_in_bounds { start.at + room flat.old pane.old ≤ length reply.old }
    ensures { CompletedLine words.now text.now start.table ask query.now flat.old flat.new
        pane.old pane.new reply.old reply.new start.at result }
{
    let table = start.table;
    let request = listing_ask::Request {
        ask,
        budget: BUDGET,
    };
    let l = table.complete_sound(words, text, request, query, flat, pane);
    let c = l.answer;
    put_completed(flat, pane, ask, c, reply, start.at)
}

// `[find [q]]`, `[complete [q]]`, `[modules [q]]`
pub fn ask_line(
    start: Asking,
    words: &[u32],
    text: &[u8],
    what: script::Question,
    query: &[u8],
    flat: &mut [u8],
    pane: &mut [u8],
    reply: &mut [u8],
) -> usize
    requires sound { IsSound words.now text.now start.table }
    requires pane_in_bounds { start.at + room flat.old pane.old ≤ length reply.old }
    ensures { AskedLine words.now text.now start.table what query.now flat.old flat.new
        pane.old pane.new reply.old reply.new start.at result }
{
    match what {
        script::Question::Find => {
            let table = start.table;
            let f = table.find_sound(words, text, query);
            let a = f.answer;
            put_found(reply, start.at, a)
        }
        script::Question::Complete => complete_line(
            start,
            words,
            text,
            listing_ask::Ask::Names(KindFilter::Every),
            query,
            flat,
            pane,
            reply,
        ),
        script::Question::Modules => complete_line(
            start,
            words,
            text,
            listing_ask::Ask::Modules(listing_ask::Filter::All),
            query,
            flat,
            pane,
            reply,
        ),
    }
}
