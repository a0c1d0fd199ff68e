// The outset of a run: what is lent to it, and the run at the root.
#![tactic(auto)]

ghost use Rattle.std.specs.Prelude.{◌≡◌, ◌/◌, min};
ghost use Rattle.listing_output.specs.Output.{line_bytes};
ghost use Rattle.listing_start.specs.Outset.{start_run};

use listing_output::{LINE_BYTES, LINKS, Limits, Path, Run, Tally};

// What can be lent of `n` lines or bytes: as many as 32 bits count.
pub fn lent(n: usize) -> usize
    ensures { result ≡ min n 4294967295 }
{
    n.min(u32::MAX as usize)
}

// The lines that so many bytes are lent for.
pub fn lines_lent(bytes: usize) -> usize
    ensures { result ≡ min (bytes / line_bytes) 4294967295 }
{
    lent(bytes / LINE_BYTES)
}

// A run at the root: nothing is taken, and so much may be.
pub fn start(limits: Limits) -> Run
    ensures { result ≡ start_run limits }
{
    Run {
        path: Path {
            links: [0; LINKS],
            n: 0,
            len: 0,
            label: 0,
        },
        tally: Tally {
            entered: 0,
            lines: 0,
            bytes: 0,
        },
        limits,
    }
}
