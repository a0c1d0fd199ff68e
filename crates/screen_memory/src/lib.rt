// A table's memory as a caller in C lends it: the state and the records, words spelled by bytes.
#![tactic(auto)]

ghost use Rattle.std.specs.Prelude.{◌≡◌, ◌*◌, ◌≤◌, length};
ghost use Rattle.source.specs.Limits.{record_words};
ghost use Rattle.screen_memory.specs.Memory.{state_bytes, words_lent_most, header_in, Spells, words_lent, Loaded, Saved};

use memory_table::Header;

// Bytes of a state: four words.
pub const STATE_BYTES: usize = 16;

// Records past these count as not lent, and their words.
const RECORDS: usize = 1024;

pub const WORDS: usize = RECORDS * memory::ROW;

// How many words count as lent, of so many bytes, four to a word. How many whole records they are is asked where records are counted.
#[tactic(auto, unfolding(crate::specs::Memory::words_lent))]
fn words_lent(size: usize) -> usize
    ensures { result ≡ words_lent size }
{
    // By a shift: no function that a registration reaches divides.
    (size >> 2).min(WORDS)
}

// Copies the lent words in, and says how many they are.
#[tactic(auto, unfolding(crate::specs::Memory::words_lent))]
pub fn load(bytes: &[u8], words: &mut [u32]) -> usize
    requires { words_lent_most ≤ length words.old }
    ensures { Loaded bytes.now words.new result }
{
    let n = words_lent(bytes.len());
    for i in 0..n {
        words[i] = memory_bytes::word_at(bytes, i);
    }
    n
}

// The header that a state spells.
pub fn header_of(state: &[u8]) -> Header
    requires { length state.now ≡ state_bytes }
    ensures { result ≡ header_in state.now }
{
    Header {
        names: memory_bytes::word_at(state, 0),
        modules: memory_bytes::word_at(state, 1),
        records: memory_bytes::word_at(state, 2),
        text: memory_bytes::word_at(state, 3),
    }
}

// Writes the state of a header.
pub fn put_header(state: &mut [u8], h: Header)
    requires { length state.old ≡ state_bytes }
    ensures { Spells state.new h }
{
    memory_bytes::put_word(state, 0, h.names);
    memory_bytes::put_word(state, 1, h.modules);
    memory_bytes::put_word(state, 2, h.records);
    memory_bytes::put_word(state, 3, h.text);
}

// Stores what an accepted call has taken: the words of the records past `records`, as many as the header says, and the header.
pub fn save(state: &mut [u8], bytes: &mut [u8], words: &[u32], records: u32, h: Header)
    requires state_len { length state.old ≡ state_bytes }
    requires record_words_in_bounds { (h.records * record_words * 4 ≤ length bytes.old)
        × (h.records * record_words ≤ length words.now) }
    ensures { Saved words.now records h bytes.old bytes.new state.new }
{
    let from = records as usize * memory::ROW;
    let to = h.records as usize * memory::ROW;
    memory_bytes::store(bytes, words, from, to);
    put_header(state, h);
}
