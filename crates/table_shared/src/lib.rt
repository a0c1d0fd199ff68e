// Completions that say, beside what a completion says, how long the beginning is that all its lines share.
// The completion is crate table's; the lines that it wrote are read once.
// Words and text stay two parameters: crate memory says why.
#![tactic(auto)]

ghost use Rattle.std.specs.Prelude.{◌≡◌};
ghost use Rattle.listing_shared.specs.Shared.{CandidatesIn};
ghost use Rattle.table_count.specs.LinesIn.{lines_in};
ghost use Rattle.table.specs.Header.{IsSound};
ghost use Rattle.table_shared.specs.Sharing.{sharing_seen, CompletesShared};

use listing::Listed;
use listing_ask::Request;
use table::{Answer, Table};

// What a completion hands back, and the length of the beginning that its lines share: 0 if it lists none or is refused.
#[derive(Clone, Copy)]
pub struct Sharing {
    pub listing: Answer<Listed>,
    pub shared: u32,
}

// The same of a listing whose lines stand in `flat` and `out`.
fn sharing_of(listing: Answer<Listed>, flat: &[u8], out: &[u8]) -> Sharing
    requires { CandidatesIn flat.now out.now (lines_in listing.answer) }
    ensures { result ≡ sharing_seen flat.now out.now listing }
{
    let n = table_count::lines_in(listing);
    Sharing {
        listing: listing,
        shared: listing_shared::shared_length(flat, out, n),
    }
}

// A completion and what its lines share, in a sound memory.
pub fn complete_sound(
    table: Table,
    words: &[u32],
    text: &[u8],
    request: Request,
    query: &[u8],
    flat: &mut [u8],
    out: &mut [u8],
) -> Sharing
    requires { IsSound words.now text.now table }
    ensures { CompletesShared words.now text.now table request query.now
        flat.old flat.new out.old out.new result }
{
    let listing = table.complete_sound(words, text, request, query, flat, out);
    sharing_of(listing, flat, out)
}

// The same, in any memory.
pub fn complete(
    table: Table,
    words: &[u32],
    text: &[u8],
    request: Request,
    query: &[u8],
    flat: &mut [u8],
    out: &mut [u8],
) -> Sharing
    ensures { CompletesShared words.now text.now table request query.now
        flat.old flat.new out.old out.new result }
{
    let listing = table.complete(words, text, request, query, flat, out);
    sharing_of(listing, flat, out)
}
