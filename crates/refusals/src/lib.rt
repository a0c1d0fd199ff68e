// The refusals of the requirements: their numbers, and the conditions of rows 2 to 8.
#![tactic(auto)]

ghost use Rattle.std.specs.Prelude.{◌≡◌, ltb};
ghost use Rattle.source.specs.Calls.{a_query, a_name, a_path, a_look_up, a_completion, first_row, whole_records, free};
ghost use Rattle.refusals.specs.Refusals.{row_of};
ghost use Rattle.refusals.specs.Rows.{Flagged, no_flags, both_flags, flag_rows, capacity_rows};

use text_query::Rule;

// At most so many records, and so many bytes of text, may be used.
const MOST: usize = memory::CAPACITY as usize;

// The refusals of the requirements.
#[derive(Clone, Copy, PartialEq, Eq)]
pub enum Refusal {
    Unsound,
    Malformed,
    Empty,
    TooLong,
    Crowded,
    Deep,
    Full,
    TextFull,
    Spent,
    Lines,
}

// The number of a refusal.
impl From<Refusal> for u32 {
    ghost use Rattle.std.specs.Prelude.{◌≡◌};
    ghost use Rattle.refusals.specs.Refusals.{number};

    ghost from_gives = { λ r n. n ≡ number r };

    fn from(r: Refusal) -> u32 {
        match r {
            Refusal::Unsound => 1,
            Refusal::Malformed => 2,
            Refusal::Empty => 3,
            Refusal::TooLong => 4,
            Refusal::Crowded => 5,
            Refusal::Deep => 6,
            Refusal::Full => 7,
            Refusal::TextFull => 8,
            Refusal::Spent => 9,
            Refusal::Lines => 10,
        }
    }
}

// ---- Arguments

// Which of the rows Malformed, Empty and TooLong an argument meets. A query's Survey is no such: what is Empty differs from call to call.
#[derive(Clone, Copy)]
pub struct Flags {
    pub malformed: bool,
    pub empty: bool,
    pub long: bool,
}

// The flags of a host, included or module query.
pub fn query_flags(s: &[u8]) -> Flags
    ensures { Flagged (a_query s.now) result }
{
    let v = text_query::query_survey(s);
    Flags {
        malformed: v.malformed,
        empty: v.empty,
        long: v.long,
    }
}

// The flags of an id or key.
pub fn name_flags(s: &[u8]) -> Flags
    ensures { Flagged (a_name s.now) result }
{
    Flags {
        malformed: !text_query::all_allowed(Rule::Name, s),
        empty: s.len() == 0,
        long: text_query::NAME_MOST < s.len(),
    }
}

// The flags of a file path.
pub fn path_flags(s: &[u8]) -> Flags
    ensures { Flagged (a_path s.now) result }
{
    Flags {
        malformed: !text_query::all_allowed(Rule::Path, s),
        empty: false,
        long: text_query::PATH_MOST < s.len(),
    }
}

// The flags of a look-up's query.
pub fn look_up_flags(s: &[u8]) -> Flags
    ensures { Flagged (a_look_up s.now) result }
{
    let v = text_query::query_survey(s);
    Flags {
        malformed: v.malformed,
        empty: v.empty | (v.segments == 0),
        long: v.long,
    }
}

// The flags of a completion's query.
pub fn completion_flags(s: &[u8]) -> Flags
    ensures { Flagged (a_completion s.now) result }
{
    let v = text_query::query_survey(s);
    Flags {
        malformed: v.malformed,
        empty: false,
        long: v.long,
    }
}

// No flag.
pub fn no_flags() -> Flags
    ensures { result ≡ no_flags }
{
    Flags {
        malformed: false,
        empty: false,
        long: false,
    }
}

// The flags of two lots of arguments together.
pub fn either(a: Flags, b: Flags) -> Flags
    ensures { result ≡ both_flags a b }
{
    Flags {
        malformed: a.malformed | b.malformed,
        empty: a.empty | b.empty,
        long: a.long | b.long,
    }
}

// Rows 2 to 4, by the flags of the arguments.
#[tactic(auto, unfolding(source::specs::Calls::first_row))]
pub fn admit(flags: Flags) -> Result<(), Refusal>
    ensures { row_of result ≡ first_row (flag_rows flags) }
{
    if flags.malformed {
        return Err(Refusal::Malformed);
    }
    if flags.empty {
        return Err(Refusal::Empty);
    }
    if flags.long {
        return Err(Refusal::TooLong);
    }
    Ok(())
}

// ---- Capacity

// What is lent, and how much of it is used: words and records, bytes of text.
#[derive(Clone, Copy)]
pub struct Capacity {
    pub words: usize,
    pub records: u32,
    pub text: usize,
    pub used: u32,
}

// What a registration would make: whether some list weighs over 96, whether a root is over 16 deep, the records that it builds, the text that it takes.
#[derive(Clone, Copy)]
pub struct Demand {
    pub crowded: bool,
    pub deep: bool,
    pub records: u32,
    pub text: usize,
}

// Free: what is lent, up to 65,536, less what is used.
#[tactic(auto, unfolding(source::specs::Calls::free))]
fn free(lent: usize, used: u32) -> usize
    ensures { result ≡ free lent used }
{
    lent.min(MOST).saturating_sub(used as usize)
}

// Row 7, by multiplication: records fit where twelve words are lent for each. A call that needs none passes.
fn full(words: usize, used: u32, needed: u32) -> bool
    ensures { result ≡ ltb (free (whole_records words) used) needed }
{
    let records = used as usize + needed as usize;
    (0 < needed) & ((MOST < records) | (words < records * memory::ROW))
}

// Rows 5 to 8.
#[tactic(auto, unfolding(source::specs::Calls::first_row))]
pub fn afford(demand: Demand, c: Capacity) -> Result<(), Refusal>
    ensures { row_of result ≡ first_row (capacity_rows demand c) }
{
    if demand.crowded {
        return Err(Refusal::Crowded);
    }
    if demand.deep {
        return Err(Refusal::Deep);
    }
    if full(c.words, c.records, demand.records) {
        return Err(Refusal::Full);
    }
    if free(c.text, c.used) < demand.text {
        return Err(Refusal::TextFull);
    }
    Ok(())
}
