// The program `console` as steps over bytes: what is kept of the last read, the table and the next bytes go in, replies come out.
// `main` reads bytes to the end of what is kept, and writes the replies of each step. proofs/Run.antt: whatever the reads are, the
// replies are the session of the input's lines.
// Words and text stay two parameters: crate memory says why.
#![tactic(auto)]

ghost use Rattle.std.specs.Prelude.{◌≤◌, length};
ghost use Rattle.table.specs.Header.{IsSound};
ghost use Rattle.console_questions.specs.RowReplies.{room};
ghost use Rattle.console_feed.specs.Feed.{Inside, Feeds, Ends};

use console_registrations::Done;
use table::Table;

// The table, and which bytes of the input text are not answered yet: those from `from` up to `have`.
#[derive(Clone, Copy)]
pub struct Feed {
    pub table: Table,
    pub from: usize,
    pub have: usize,
}

// What a step leaves, where its replies end, and whether whole lines may be left.
#[derive(Clone, Copy)]
pub struct Progress {
    pub feed: Feed,
    pub end: usize,
    pub more: bool,
}

// Answers whole lines while there is room for a reply. Where there is none left, what follows them is moved to the start of `input`.
// `flat` and `pane` are scratch.
pub fn step(
    f: Feed,
    words: &mut [u32],
    text: &mut [u8],
    input: &mut [u8],
    flat: &mut [u8],
    pane: &mut [u8],
    reply: &mut [u8],
) -> Progress
    requires sound { IsSound words.old text.old f.table }
    requires pane_in_bounds { room flat.old pane.old ≤ length reply.old }
    requires inside { Inside f input.old }
    ensures { Feeds words.old text.old words.new text.new f input.old input.new flat.old flat.new
        pane.old pane.new reply.old reply.new result }
{
    let Feed { table, from, have } = f;
    let r = console_answers::answer_lines(
        table,
        words,
        text,
        &input[..have],
        from,
        flat,
        pane,
        reply,
    );
    let table = r.table;
    if from < r.next {
        return Progress {
            feed: Feed {
                table,
                from: r.next,
                have,
            },
            end: r.end,
            more: true,
        };
    }
    let kept = console_backlog::keep(input, from, have);
    Progress {
        feed: Feed {
            table,
            from: 0,
            have: kept,
        },
        end: r.end,
        more: false,
    }
}

// Answers what is left at the end of the input: a last line that has no line feed. The lines of a
// completion stand in `flat` and `pane`.
pub fn last(
    f: Feed,
    words: &mut [u32],
    text: &mut [u8],
    input: &[u8],
    flat: &mut [u8],
    pane: &mut [u8],
    reply: &mut [u8],
) -> Done
    requires sound { IsSound words.old text.old f.table }
    requires pane_in_bounds { room flat.old pane.old ≤ length reply.old }
    requires inside { Inside f input.now }
    ensures { Ends words.old text.old words.new text.new f input.now flat.old flat.new
        pane.old pane.new reply.old reply.new result }
{
    let Feed { table, from, have } = f;
    let left = &input[from..have];
    if console_backlog::is_line(left) {
        return console_answers::answer(table, words, text, left, flat, pane, reply, 0);
    }
    Done { table, end: 0 }
}
