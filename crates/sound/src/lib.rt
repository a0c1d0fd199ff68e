// Is the lent memory a sound table? One pass over the used records, each tested by what the records before it store.
// Words and text stay two parameters: crate memory says why.
#![tactic(auto)]

ghost use Rattle.std.specs.Prelude.{◌≡◌, ◌+◌, ◌≤◌, length};
ghost use Rattle.memory.specs.Sound.{Says};
ghost use Rattle.memory_table.specs.Table.{Sound};
ghost use Rattle.sound_field.specs.Fields.{Noted, CanNote};

use memory_table::Header;
use sound_field::{Ends, Side, Tested};

// Notes the record of `link`, which is right, where the notes reach it.
pub fn note(words: &[u32], link: u32, notes: &mut [Ends])
    requires { CanNote words.now link notes.old }
    ensures ways_noted { Noted words.now (link + 1) notes.new }
    ensures notes_len { length notes.new ≡ length notes.old }
{
    let at = link as usize;
    if at < notes.len() {
        notes[at] = Ends {
            least: sound_field::next_end(words, link, Side::Left, notes),
            greatest: sound_field::next_end(words, link, Side::Right, notes),
        };
    }
}

// One pass over the used records, with notes for as many as are lent.
fn pass(words: &[u32], text: &[u8], header: Header, notes: &mut [Ends]) -> bool
    ensures { Says result (Sound words.now text.now header) }
{
    let records = header.records;
    let used = header.text;
    if memory::CAPACITY < records {
        return false;
    }
    if memory::CAPACITY < used {
        return false;
    }
    if words.len() < records as usize * memory::ROW {
        return false;
    }
    if text.len() < used as usize {
        return false;
    }
    if !sound_field::link_ok(words, records + 1, header.names, memory::TRIE_KIND) {
        return false;
    }
    if !sound_field::link_ok(words, records + 1, header.modules, memory::MODULE_TRIE_KIND) {
        return false;
    }
    for link in 1..=records {
        let at = (link as usize - 1) * memory::ROW;
        let tested = Tested {
            words: words,
            text: text,
            used: used,
            link: link,
            row: &words[at..at + memory::ROW],
        };
        if !sound_record::record_ok(tested, notes) {
            return false;
        }
        note(words, link, notes);
    }
    true
}

// How many notes a test has: one for each record that they reach, and one for the link 0. With more records a way along a side goes on until a noted one,
// so that up to there the test is linear.
const SMALL: usize = 1024 + 1;

const MIDDLE: usize = 8192 + 1;

const LARGE: usize = memory::CAPACITY as usize + 1;

// The test with `N` notes, which take 8 bytes of stack each: in a frame of its own, so that only tables of its size pay for it.
#[inline(never)]
fn with_notes<const N: usize>(words: &[u32], text: &[u8], header: Header) -> bool
    requires { N ≤ 65537 }
    ensures { Says result (Sound words.now text.now header) }
{
    let mut notes = [Ends {
        least: 0,
        greatest: 0,
    }; N];
    pass(words, text, header, &mut notes)
}

// Is the lent memory a sound table, with this header? Its notes take 8 KB of stack.
pub fn sound_small(words: &[u32], text: &[u8], header: Header) -> bool
    ensures { Says result (Sound words.now text.now header) }
{
    with_notes::<SMALL>(words, text, header)
}

// The same, linear in the used records. Its notes take 8 KB of stack, 64 KB where more than 1,024 records are used, and 512 KB where more than 8,192 are.
pub fn sound(words: &[u32], text: &[u8], header: Header) -> bool
    ensures { Says result (Sound words.now text.now header) }
{
    let records = header.records as usize;
    // More than may be used are no sound table, which the small test says at once.
    if (records < SMALL) | (LARGE <= records) {
        return sound_small(words, text, header);
    }
    if records < MIDDLE {
        return with_notes::<MIDDLE>(words, text, header);
    }
    with_notes::<LARGE>(words, text, header)
}
