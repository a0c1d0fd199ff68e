// Texts as bytes: comparison, prefix, beginnings.
#![tactic(auto)]

ghost use Rattle.std.specs.Prelude.{◌≡◌};
ghost use Rattle.source.specs.Text.{starts_with};
ghost use Rattle.text.specs.Text.{Compares, beginning};

use std::cmp::Ordering;

// Bytes in the number of a beginning.
const BEGINNING: usize = 8;

// How one text compares with another: the order, and how many leading bytes are equal.
#[derive(Clone, Copy)]
pub struct Comparison {
    pub order: Ordering,
    pub agree: usize,
}

// The source's string_compare: bytewise, a proper beginning first; with the count of equal leading bytes.
pub fn string_compare(a: &[u8], b: &[u8]) -> Comparison
    ensures { Compares a.now b.now result }
{
    let n = a.len().min(b.len());
    for i in 0..n {
        if a[i] != b[i] {
            return Comparison {
                order: a[i].cmp(&b[i]),
                agree: i,
            };
        }
    }
    Comparison {
        order: a.len().cmp(&b.len()),
        agree: n,
    }
}

// The number of the first eight bytes, the first one the highest, with 0 past the end.
pub fn beginning(s: &[u8]) -> u64
    ensures { result ≡ beginning s.now }
{
    let mut n: u64 = 0;
    for i in 0..BEGINNING {
        n *= 256;
        if i < s.len() {
            n += u64::from(s[i]);
        }
    }
    n
}

// The source's starts_with: whether `s` begins with `p`, by how many leading bytes are equal.
pub fn starts_with(s: &[u8], p: &[u8]) -> bool
    ensures { result ≡ starts_with s.now p.now }
{
    // Asked first, the comparison's loop ends where the prefix does: one bound for a whole tree.
    if s.len() < p.len() {
        return false;
    }
    let c = string_compare(s, p);
    p.len() <= c.agree
}
