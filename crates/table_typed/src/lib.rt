// The typed completion: a line is a struct, and lines go into a lent slice of these.
// Words and text stay two parameters: crate memory says why.
#![tactic(auto)]

ghost use Rattle.std.specs.Prelude.{◌≡◌, ◌+◌, ◌*◌, ◌≤◌, ◌<◌, length, set};
ghost use Rattle.listing_output.specs.Output.{line_bytes};
ghost use Rattle.table_typed.specs.Lines.{line_of_row, line_at, stored_lines};
ghost use Rattle.table_typed.specs.Completions.{FlatCompletes, CompletesLines};

use listing::Listed;
use listing_ask::{Ask, Request};
use listing_row::{Row, RowItem};
use memory::Span;
use refusals::Refusal;
use table::{Answer, Table};

// A line record. Its spans are in the output text.
#[derive(Clone, Copy)]
pub struct Line {
    pub match_length: i32,
    pub item: RowItem,
    pub candidate: Span,
    pub annotation: Span,
}

// The line that a row is.
fn line_of(r: Row) -> Line
    ensures { result ≡ line_of_row r }
{
    Line {
        match_length: table_count::match_length(r.matched),
        item: r.item,
        candidate: r.candidate,
        annotation: r.annotation,
    }
}

// Line `k` of the bytes.
pub fn line_at(flat: &[u8], k: usize, ask: Ask) -> Line
    requires { k * line_bytes + line_bytes ≤ length flat.now }
    ensures { result ≡ line_at ask flat.now k }
{
    line_of(listing_row::row_at(flat, k, ask))
}

// Stores one line.
pub fn store_line(lines: &mut [Line], at: usize, line: Line)
    requires { at < length lines.old }
    ensures { lines.new ≡ set lines.old at line }
{
    lines[at] = line;
}

// Stores the first `n` lines of the bytes.
pub fn store_lines(lines: &mut [Line], flat: &[u8], n: usize, ask: Ask)
    requires { (n ≤ length lines.old) × (n * line_bytes ≤ length flat.now) }
    ensures { lines.new ≡ stored_lines (line_at ask flat.now) lines.old n }
{
    for i in 0..n {
        store_line(lines, i, line_at(flat, i, ask));
    }
}

// Completion into bytes, lent for at most `room` lines.
fn complete_flat(
    table: Table,
    words: &[u32],
    text: &[u8],
    request: Request,
    query: &[u8],
    room: usize,
    flat: &mut [u8],
    out: &mut [u8],
) -> Answer<Listed>
    ensures { FlatCompletes words.now text.now table request query.now room
        flat.old flat.new out.old out.new result }
{
    if table.is_sound(words, text) {
        let lent = table_count::bytes_for(flat.len(), room);
        return table.complete_sound(words, text, request, query, &mut flat[..lent], out);
    }
    Answer {
        table: table,
        answer: Err(Refusal::Unsound),
    }
}

// Completion into a lent slice of lines, their texts into `out`. The bytes of `flat` are lent for the work, 48 to a line.
pub fn complete(
    table: Table,
    words: &[u32],
    text: &[u8],
    request: Request,
    query: &[u8],
    lines: &mut [Line],
    flat: &mut [u8],
    out: &mut [u8],
) -> Answer<Listed>
    ensures { CompletesLines words.now text.now table request query.now lines.old lines.new
        flat.old flat.new out.old out.new result }
{
    let r = complete_flat(table, words, text, request, query, lines.len(), flat, out);
    let n = table_count::lines_in(r);
    store_lines(lines, flat, n, request.ask);
    r
}
