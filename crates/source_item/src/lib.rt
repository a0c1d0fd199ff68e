// A word read as the kind of an item, and the letter of a kind.
#![tactic(auto)]

ghost use Rattle.std.specs.Prelude.{◌≡◌};
ghost use Rattle.source.specs.Items.{is_kind, read_kind, kind_letter};

use source::ItemKind;

// Whether a number is a kind's.
#[tactic(auto, unfolding(source::specs::Items::is_kind))]
pub fn is_kind(n: u32) -> bool
    ensures { result ≡ is_kind n }
{
    ItemKind::try_from(n).is_ok()
}

// The kind that a number reads as: another number than the three as Register, since no read fails.
#[tactic(auto, unfolding(source::specs::Items::read_kind, source::specs::Tries::dflt))]
pub fn kind_of(n: u32) -> ItemKind
    ensures { result ≡ read_kind n }
{
    ItemKind::try_from(n).unwrap_or(ItemKind::Register)
}

// The letter of a kind in a script: a byte, where Display would write text.
#[tactic(auto, unfolding(source::specs::Items::kind_letter))]
pub fn letter_of(kind: ItemKind) -> u8
    ensures { result ≡ kind_letter kind }
{
    match kind {
        ItemKind::Timer => b't',
        ItemKind::Port => b'p',
        ItemKind::Register => b'r',
    }
}
