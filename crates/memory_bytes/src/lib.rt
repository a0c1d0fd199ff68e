// Words spelled by bytes, four to a word, lowest first.
#![tactic(auto)]

ghost use Rattle.std.specs.Prelude.{◌≡◌, ◌+◌, ◌*◌, ◌%◌, ◌≤◌, length};
ghost use Rattle.memory_bytes.specs.Bytes.{word_at, Put, Stored};

// Word `k` of the bytes.
#[tactic(auto, unfolding(crate::specs::Bytes::word_at))]
pub fn word_at(bytes: &[u8], k: usize) -> u32
    requires { k * 4 + 4 ≤ length bytes.now }
    ensures { result ≡ word_at bytes.now k }
{
    let at = k * 4;
    u32::from_le_bytes([bytes[at], bytes[at + 1], bytes[at + 2], bytes[at + 3]])
}

// The lowest byte of a word.
fn low(x: u32) -> u8
    ensures { result ≡ x % 256 }
{
    (x & 255) as u8
}

// Writes word `k`, by shifts: std's to_le_bytes divides, and no registration does.
pub fn put_word(bytes: &mut [u8], k: usize, word: u32)
    requires { k * 4 + 4 ≤ length bytes.old }
    ensures { Put k word bytes.old bytes.new }
{
    let at = k * 4;
    bytes[at] = low(word);
    bytes[at + 1] = low(word >> 8);
    bytes[at + 2] = low(word >> 16);
    bytes[at + 3] = low(word >> 24);
}

// Copies the words from `from` up to `to` out.
pub fn store(bytes: &mut [u8], words: &[u32], from: usize, to: usize)
    requires { (to * 4 ≤ length bytes.old) × (to ≤ length words.now) }
    ensures { Stored words.now from to bytes.old bytes.new }
{
    for i in from..to {
        put_word(bytes, i, words[i]);
    }
}
