// Numbers in decimal, read and written, and the sorts of bytes that stand in a part of a line.
#![tactic(auto)]

ghost use Rattle.std.specs.Prelude.{◌≡◌};
ghost use Rattle.script_decimal.specs.Bytes.{byte_ok};

pub mod digits;

// What kind of bytes a part has.
#[derive(Clone, Copy)]
pub enum Sort {
    Query,
    Word,
    Digit,
    Line,
}

// Whether a byte may stand in a part of this sort.
#[tactic(auto, unfolding(crate::specs::Bytes::byte_ok))]
pub fn byte_ok(sort: Sort, b: u8) -> bool
    ensures { result ≡ byte_ok sort b }
{
    match sort {
        Sort::Query => b != b']',
        Sort::Word => b != b' ' && b != b'[' && b != b']',
        Sort::Digit => b'0' <= b && b <= b'9',
        Sort::Line => b != b'\n',
    }
}
