// What the program `console` answers to a line: it is read, its call is made on a table that is sound by proof, its reply is written.
// A line that is no form is `[bad]`, and changes nothing.
// Words and text stay two parameters: crate memory says why.
#![tactic(auto)]

ghost use Rattle.std.specs.Prelude.{◌+◌, ◌≤◌, length};
ghost use Rattle.table.specs.Header.{IsSound};
ghost use Rattle.console_questions.specs.RowReplies.{room};
ghost use Rattle.console_answers.specs.Answers.{Answered, Talked};

use console_questions::Asking;
use console_registrations::Done;
use register_kind::Entry;
use script::LineForm;
use table::Table;

// Room for any reply, the two texts of a line apart.
const REPLY_ROOM: usize = 40;

// The table after some lines of an input, where their replies end, and where the next line starts.
#[derive(Clone, Copy)]
pub struct AfterLines {
    pub table: Table,
    pub end: usize,
    pub next: usize,
}

// What is lent goes apart, here and in the crates above, as the calls of `Table` take it: a struct would be taken apart at each call.
// The answer to a line, without its line feed: its call is made and its reply written at `at`. The lines of a
// completion stand in `flat` and `pane`.
pub fn answer(
    table: Table,
    words: &mut [u32],
    text: &mut [u8],
    line: &[u8],
    flat: &mut [u8],
    pane: &mut [u8],
    reply: &mut [u8],
    at: usize,
) -> Done
    requires sound { IsSound words.old text.old table }
    requires pane_in_bounds { at + room flat.old pane.old ≤ length reply.old }
    ensures { Answered words.old text.old words.new text.new table line.now flat.old flat.new
        pane.old pane.new reply.old reply.new at result }
{
    match script::parse(line) {
        Some(
            LineForm::Register {
                kind,
                host,
                other,
                key,
            },
        ) => console_registrations::register_line(
            Done { table, end: at },
            words,
            text,
            Entry { kind },
            host,
            other,
            key,
            reply,
        ),
        Some(LineForm::Ask { what, query }) => {
            let start = Asking { table, at };
            let end = console_questions::ask_line(
                start, words, text, what, query, flat, pane, reply,
            );
            Done { table, end }
        }
        None => {
            let end = script_replies::put_bad(reply, at);
            Done { table, end }
        }
    }
}

// The answers to the lines of `input` from `from` on that end in a line feed, while there is room for a reply. The replies stand one
// after another at the start of `reply`. `flat` and `pane` are scratch.
pub fn answer_lines(
    table: Table,
    words: &mut [u32],
    text: &mut [u8],
    input: &[u8],
    from: usize,
    flat: &mut [u8],
    pane: &mut [u8],
    reply: &mut [u8],
) -> AfterLines
    requires sound { IsSound words.old text.old table }
    requires pane_in_bounds { room flat.old pane.old ≤ length reply.old }
    requires from_in_bounds { from ≤ length input.now }
    ensures { Talked words.old text.old words.new text.new table input.now from flat.old flat.new
        pane.old pane.new reply.old reply.new result }
{
    let size = flat.len() / listing_output::LINE_BYTES * REPLY_ROOM + pane.len() + REPLY_ROOM;
    let mut t = table;
    let mut at = 0;
    let mut i = from;
    // The turns go by the room that is left, not by a number of lines.
    while size <= reply.len() - at {
        let e = i + script_parts::line_end(&input[i..]);
        if e == input.len() {
            break;
        }
        let d = answer(t, words, text, &input[i..e], flat, pane, reply, at);
        t = d.table;
        at = d.end;
        i = e + 1;
    }
    AfterLines {
        table: t,
        end: at,
        next: i,
    }
}
