// Line structs in numbers: the match length that one holds, the bytes lent for them, and how many are listed.
#![tactic(auto)]

ghost use Rattle.std.specs.Prelude.{◌*◌, ◌/◌, min, ◌≡◌};
ghost use Rattle.listing_output.specs.Output.{line_bytes};
ghost use Rattle.table_count.specs.MatchLength.{held_length};
ghost use Rattle.table_count.specs.LinesIn.{lines_in};

use listing::Listed;
use table::Answer;

// The match length that word 0 of a line holds. A completion never writes one over 2147483647.
pub fn match_length(w: u32) -> i32
    ensures { result ≡ held_length w }
{
    if w == u32::MAX {
        return -1;
    }
    w.min(2147483647) as i32
}

// How many of `flat` bytes are lent for at most `room` lines.
pub fn bytes_for(flat: usize, room: usize) -> usize
    ensures { result ≡ min (flat / line_bytes) room * line_bytes }
{
    (flat / listing_output::LINE_BYTES).min(room) * listing_output::LINE_BYTES
}

// How many lines a completion lists, none if it is refused.
pub fn lines_in(r: Answer<Listed>) -> usize
    ensures { result ≡ lines_in r.answer }
{
    r.answer.map_or(0, |listed| listed.lines as usize)
}
