// The writing of one line into the lent output: its candidate, its annotation, its twelve words.
// The two lent outputs stay two parameters: behind one struct of two `&mut` each clause also has to say that its fields are still the caller's.
// Words and text stay two parameters: crate memory says why.
#![tactic(auto)]

ghost use Rattle.std.specs.Prelude.{◌≡◌, ◌+◌, ◌*◌, ◌<◌, ◌≤◌, length};
ghost use Rattle.source.specs.Limits.{record_words};
ghost use Rattle.memory.specs.Layout.{record_at, key_at};
ghost use Rattle.text.specs.Laid.{Laid};
ghost use Rattle.listing_output.specs.Run.{length_word, job_in};
ghost use Rattle.listing_output.specs.Parts.{TextAt, PathAt, JobOk, LineFits, candidate_of, line_row, LinePut};

use listing_ask::Ask;

// A run: its path, its tally and its limits.
mod run;

pub use run::{LINKS, Limits, Path, Run, Tally};

// What is wanted of a branch or a trie: what is asked, and the match length of what is listed.
#[derive(Clone, Copy)]
pub struct Want {
    pub ask: Ask,
    pub matched: i32,
}

// Words of a line, and its bytes.
pub const LINE: usize = 12;

pub const LINE_BYTES: usize = 48;

// Writes the key of a branch from `at` on: lends on the part after the last text.
fn put_key(words: &[u32], text: &[u8], branch: u32, out: &mut [u8], at: usize) -> usize
    requires text_at { TextAt words.now text.now branch }
    requires branch_in_bounds { at + length (key_at words.now text.now branch) ≤ length out.old }
    ensures { Laid out.old out.new at result (key_at words.now text.now branch) }
{
    let key = memory_access::key_of(words, text, branch);
    memory_access::put_text(&mut out[at..], 0, key);
    at + key.len()
}

// Writes the candidate of a branch below the path from `at` on.
fn put_candidate(
    words: &[u32],
    text: &[u8],
    path: &Path,
    branch: u32,
    out: &mut [u8],
    at: usize,
) -> usize
    requires path_at { PathAt words.now text.now path.now }
    requires text_at { TextAt words.now text.now branch }
    requires branch_in_bounds { at + path.now.len
        + length (key_at words.now text.now branch) ≤ length out.old }
    ensures { Laid out.old out.new at result
        (candidate_of words.now text.now path.now branch) }
{
    let mut end = at;
    for &link in &path.links[..path.n] {
        end = put_key(words, text, link as u32, out, end);
        out[end] = b'.';
        end += 1;
    }
    put_key(words, text, branch, out, end)
}

// The word that a line has for a match length: 4294967295 for -1.
fn length_word(matched: i32) -> u32
    ensures { result ≡ length_word matched }
{
    u32::try_from(matched).unwrap_or(u32::MAX)
}

// The words of a line.
fn line_row(
    words: &[u32],
    branch: u32,
    matched: u32,
    start: u32,
    len: u32,
    note: u32,
) -> [u32; LINE]
    requires { (0 < branch) × (branch * record_words ≤ length words.now) × (start + len ≤ 4294967295) }
    ensures { result ≡ line_row (record_at words.now branch) matched start len note }
{
    let item = memory_access::row_of(words, branch);
    [
        matched,
        start,
        len,
        start + len,
        note,
        item[memory::NUMBER],
        item[memory::NAME_START],
        item[memory::NAME_LEN],
        item[memory::PATH_START],
        item[memory::PATH_LEN],
        item[memory::LOADED],
        0,
    ]
}

// Writes a line with the annotation `note`, after the lines and bytes that the run has taken.
pub fn write_line(
    words: &[u32],
    text: &[u8],
    branch: u32,
    note: &[u8],
    want: Want,
    run: &Run,
    flat: &mut [u8],
    out: &mut [u8],
)
    requires job_ok { JobOk words.now text.now (job_in branch want.matched run.now) }
    requires line_fits { LineFits words.now (job_in branch want.matched run.now) note.now flat.old out.old }
    ensures { LinePut words.now text.now (job_in branch want.matched run.now) note.now
        flat.old flat.new out.old out.new }
{
    let at = run.tally.bytes;
    let base = run.tally.lines * LINE_BYTES;
    let end = put_candidate(words, text, &run.path, branch, out, at);
    memory_access::put_text(&mut out[end..], 0, note);
    let row = line_row(
        words,
        branch,
        length_word(want.matched),
        at as u32,
        (end - at) as u32,
        note.len() as u32,
    );
    memory_bytes::store(&mut flat[base..], &row, 0, LINE);
}
