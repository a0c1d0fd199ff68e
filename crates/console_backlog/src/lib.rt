// What is kept of the bytes of a read: of a line that has not ended its start, and at the end of the input a last line.
#![tactic(auto)]

ghost use Rattle.std.specs.Prelude.{◌≤◌, length};
ghost use Rattle.console_backlog.specs.Moves.{Moves};
ghost use Rattle.console_backlog.specs.LastLine.{LastLine};

// Bytes kept of a line: it has at most 2,048, and one more tells that it is too long.
const BYTES_KEPT: usize = 2049;

// Moves what follows `from`, of the first `have` bytes, to the start, and says how many bytes it is. Of a line that is too long
// whatever follows, 2,049 bytes are kept.
pub fn keep(input: &mut [u8], from: usize, have: usize) -> usize
    requires { (from ≤ have) × (have ≤ length input.old) }
    ensures { Moves input.old input.new from have result }
{
    let n = (have - from).min(BYTES_KEPT);
    input.copy_within(from..from + n, 0);
    n
}

// Whether the bytes left at the end of an input are a last line.
#[tactic(auto, using(crate::proofs::LastLine::is_line))]
pub fn is_line(left: &[u8]) -> bool
    ensures { LastLine result left.now }
{
    !left.is_empty()
}
