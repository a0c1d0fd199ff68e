// The beginning that all candidates of a written listing share.
#![tactic(auto)]

ghost use Rattle.std.specs.Prelude.{◌≡◌};
ghost use Rattle.listing_shared.specs.Shared.{CandidatesIn, shared_seen};

// The length of the longest beginning that the candidates of the first `n` rows share; 0 for no row.
pub fn shared_length(flat: &[u8], out: &[u8], n: usize) -> u32
    requires { CandidatesIn flat.now out.now n }
    ensures { result ≡ shared_seen flat.now out.now n }
{
    if n == 0 {
        return 0;
    }
    let candidate = listing_row::candidate_at(flat, 0);
    let first = listing_row::text_of(out, candidate);
    let mut shared = candidate.len as usize;
    for i in 1..n {
        if shared == 0 {
            return 0;
        }
        let next = listing_row::text_of(out, listing_row::candidate_at(flat, i));
        shared = text::string_compare(&first[..shared], next).agree;
    }
    shared as u32
}
