// Completion on a root, of a query that is admitted: rows 9 and 10, counted before anything is written.
// Words and text stay two parameters: crate memory says why.
#![tactic(auto)]

ghost use Rattle.std.specs.Prelude.{◌≡◌, true, [], ◌∷◌};
ghost use Rattle.std.proofs.Math.Option.{none};
ghost use Rattle.source.specs.Calls.{a_completion, first_row, argument_rows};
ghost use Rattle.memory.specs.Layout.{trieˢ};
ghost use Rattle.memory.specs.Sound.{At};
ghost use Rattle.listing_ask.specs.Ask.{asked};
ghost use Rattle.listing.specs.Completes.{CompletesOn};

use listing_ask::Request;
use listing_output::{Limits, Want};
use refusals::Refusal;

// A completion that lists: how many lines, and how many tries were entered.
#[derive(Clone, Copy)]
pub struct Listed {
    pub lines: u32,
    pub entered: u32,
}

// Completion on a root: counted first, so that a refusal writes nothing, then written. At the root no element was matched: -1.
pub fn complete(
    words: &[u32],
    text: &[u8],
    request: Request,
    root: u32,
    query: &[u8],
    flat: &mut [u8],
    out: &mut [u8],
) -> Result<Listed, Refusal>
    requires at { At words.now text.now (asked request.ask) trieˢ root }
    requires query_value { first_row (argument_rows true (a_completion query.now ∷ [])) ≡ none }
    ensures { CompletesOn words.now text.now request root query.now
        flat.old flat.new out.old out.new result }
{
    let ask = request.ask;
    let want = Want {
        ask: ask,
        matched: -1,
    };
    let lines = listing_start::lines_lent(flat.len());
    let bytes = listing_start::lent(out.len());
    let limits = Limits {
        budget: request.budget as usize,
        lines,
        bytes,
    };
    let mut run = listing_start::start(limits);
    let entered = listing_trie::list_trie(
        words,
        text,
        query,
        want,
        root,
        &mut run,
        &mut flat[0..0],
        &mut out[0..0],
    );
    if limits.budget < entered {
        return Err(Refusal::Spent);
    }
    if lines < run.tally.lines {
        return Err(Refusal::Lines);
    }
    if bytes < run.tally.bytes {
        return Err(Refusal::Lines);
    }
    let mut again = listing_start::start(limits);
    listing_trie::list_trie(words, text, query, want, root, &mut again, flat, out);
    Ok(Listed {
        lines: run.tally.lines as u32,
        entered: entered as u32,
    })
}
