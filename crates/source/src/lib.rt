#![tactic(auto)]
// specs/ has the definitions of the source and of the requirements, proofs/ the theorems about them.
// Here stand the items of the names table, which the definitions and the code share.

// What an item is.
#[derive(Clone, Copy, PartialEq, Eq)]
pub enum ItemKind {
    Timer,
    Port,
    Register,
}

// A number that is no kind's.
#[derive(Clone, Copy, Debug, PartialEq, Eq)]
pub struct NoKind(pub u32);

// The number of a kind.
impl From<ItemKind> for u32 {
    ghost use Rattle.std.specs.Prelude.{◌≡◌};
    ghost use Rattle.source.specs.Items.{kind_number};

    ghost from_gives = { λ kind n. n ≡ kind_number kind };

    #[tactic(auto, unfolding(crate::specs::Items::kind_number))]
    fn from(kind: ItemKind) -> u32 {
        match kind {
            ItemKind::Timer => 1,
            ItemKind::Port => 2,
            ItemKind::Register => 3,
        }
    }
}

// The kind of a number.
impl TryFrom<u32> for ItemKind {
    ghost use Rattle.source.specs.Items.{KindOf};

    type Error = NoKind;

    ghost try_from_gives = { KindOf };

    #[tactic(auto, unfolding(crate::specs::Items::kind_for))]
    fn try_from(n: u32) -> Result<Self, NoKind> {
        match n {
            1 => Ok(ItemKind::Timer),
            2 => Ok(ItemKind::Port),
            3 => Ok(ItemKind::Register),
            _ => Err(NoKind(n)),
        }
    }
}

// lid_symbol: what it is, and its number.
#[derive(Clone, Copy, PartialEq, Eq)]
pub struct LidSymbol {
    pub kind: ItemKind,
    pub number: u32,
}

// The kinds that a completion of names keeps: every one, or one only.
#[derive(Clone, Copy, PartialEq, Eq)]
pub enum KindFilter {
    Every,
    Timers,
    Ports,
    Registers,
}
