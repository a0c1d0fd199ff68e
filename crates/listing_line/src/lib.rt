// One line of a listing: counted, and written where it fits the lent output.
// Words and text stay two parameters: crate memory says why.
#![tactic(auto)]

ghost use Rattle.std.specs.Prelude.{ℕ, ◌+◌, ◌≤◌, length};
ghost use Rattle.source.specs.Limits.{longest_full_name, most_used};
ghost use Rattle.memory.specs.Sound.{Says};
ghost use Rattle.listing_output.specs.Run.{job_in};
ghost use Rattle.listing_line.specs.SameRun.{SamePath};
ghost use Rattle.listing_line.specs.Goes.{Capped};
ghost use Rattle.listing_line.specs.Lines.{CanList, Listed};
ghost use Rattle.listing_output.specs.Parts.{JobOk};
ghost use Rattle.listing_line.specs.Parts.{TriedLine, PutLine};

use listing_annotation::{Labelled, Notes};
use listing_output::{LINE_BYTES, Run, Want};

// The sum, where `a` is not past the limit already.
fn add(a: usize, n: usize, limit: usize) -> usize
    requires { (n ≤ most_used) × (limit ≤ 4294967295) }
    ensures { (x : ℕ) → Capped limit x a → Capped limit (x + n) result }
{
    if a <= limit {
        return a + n;
    }
    a
}

// Whether `n` more after `at` are within the limit and within what is lent.
fn fits(at: usize, n: usize, limit: usize, lent: usize) -> bool
    ensures { Says result ((at + n ≤ limit) × (at + n ≤ lent)) }
{
    at.checked_add(n)
        .is_some_and(|end| end <= limit && end <= lent)
}

// Writes it where it fits.
fn try_line(
    words: &[u32],
    text: &[u8],
    branch: u32,
    note: &[u8],
    want: Want,
    run: &Run,
    flat: &mut [u8],
    out: &mut [u8],
)
    requires job_ok { JobOk words.now text.now (job_in branch want.matched run.now) }
    requires note_len_bound { length note.now ≤ longest_full_name }
    ensures { TriedLine words.now text.now (job_in branch want.matched run.now) note.now
        flat.old flat.new out.old out.new }
{
    if !fits(
        run.tally.lines,
        1,
        run.limits.lines,
        flat.len() / LINE_BYTES,
    ) {
        return;
    }
    let size = run.path.len + memory_access::text_len(words, branch) as usize + note.len();
    if !fits(run.tally.bytes, size, run.limits.bytes, out.len()) {
        return;
    }
    listing_output::write_line(words, text, branch, note, want, run, flat, out);
}

// Counts the line with the annotation `note`, and writes it where it fits.
fn put_line(
    words: &[u32],
    text: &[u8],
    branch: u32,
    note: &[u8],
    want: Want,
    run: &mut Run,
    flat: &mut [u8],
    out: &mut [u8],
)
    requires job_ok { JobOk words.now text.now (job_in branch want.matched run.old) }
    requires note_len_bound { length note.now ≤ longest_full_name }
    ensures same_path { SamePath run.old run.new }
    ensures put_line { PutLine words.now text.now (job_in branch want.matched run.old) note.now
        run.new.tally flat.old flat.new out.old out.new }
{
    let size = run.path.len + memory_access::text_len(words, branch) as usize + note.len();
    try_line(words, text, branch, note, want, run, flat, out);
    run.tally.lines = add(run.tally.lines, 1, run.limits.lines);
    run.tally.bytes = add(run.tally.bytes, size, run.limits.bytes);
}

// The line of a found branch of bindings below the path, if the filter keeps it.
pub fn line(
    words: &[u32],
    text: &[u8],
    found: Labelled,
    run: &mut Run,
    want: Want,
    flat: &mut [u8],
    out: &mut [u8],
)
    requires { CanList words.now text.now want found run.old }
    ensures { Listed words.now text.now want found run.old run.new
        flat.old flat.new out.old out.new }
{
    let ask = want.ask;
    if !listing_annotation::kept(words, ask, found.link) {
        return;
    }
    let named = Labelled {
        link: found.link,
        label: listing_annotation::outermost(&run.path, found.label),
    };
    let notes = Notes {
        loaded_module: b" mod ",
        other_module: b"(mod)",
        loaded_namespace: b" ns ",
        other_namespace: b"(ns)",
    };
    let note = listing_annotation::annotation(words, text, ask, named, notes);
    put_line(words, text, found.link, note, want, run, flat, out);
}
