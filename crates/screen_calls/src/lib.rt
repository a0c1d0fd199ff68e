// What the exported calls share: a registration, a look-up and a completion over bytes.
// State and words are bytes as crate memory_bytes reads them; a call copies the words in, tests them with little stack, calls crate table,
// and copies out what an accepted registration has taken. Lines are written in place.
// Words and text stay two parameters: crate memory says why.
#![tactic(auto)]

ghost use Rattle.std.specs.Prelude.{◌≡◌, length};
ghost use Rattle.std.proofs.Math.Option.{none, some};
ghost use Rattle.register_kind.specs.Shapes.{call_of};
ghost use Rattle.screen_memory.specs.Memory.{state_bytes, words_in};
ghost use Rattle.listing_shared.specs.Shared.{CandidatesIn, shared_seen};
ghost use Rattle.screen_replies.specs.Replies.{shared_reply};
ghost use Rattle.screen_calls.specs.Memory.{table_at};
ghost use Rattle.screen_calls.specs.Completions.{RepliesLines};
ghost use Rattle.screen_calls.specs.Replies.{Replies, RepliesName, RepliesModule};

use listing_ask::Request;
use register_kind::Entry;
use screen_replies::{CompleteReply, ModuleReply, NameReply, SharedReply};
use table::Table;

// The table that a state spells.
fn table_of(state: &[u8]) -> Table
    requires { length state.now ≡ state_bytes }
    ensures { result ≡ table_at state.now }
{
    Table {
        header: screen_memory::header_of(state),
    }
}

// ---- Registrations

// A registration, where `memory` has the lent words.
fn enter(
    state: &mut [u8],
    words: &mut [u8],
    text: &mut [u8],
    memory: &mut [u32],
    entry: Entry,
    host: &[u8],
    other: &[u8],
    key: &[u8],
) -> u32
    requires state_len { length state.old ≡ state_bytes }
    requires memory_value { memory.old ≡ words_in words.old }
    ensures { Replies state.old words.old text.old state.new words.new text.new
        (some (call_of entry.kind host.now other.now key.now)) result }
{
    let t = table_of(state);
    if !t.is_sound_small(memory, text) {
        return 1;
    }
    let r = t.register_sound(memory, text, entry, host, other, key);
    let h = r.table;
    let a = r.answer;
    match a {
        Ok(()) => {
            screen_memory::save(state, words, memory, t.header.records, h.header);
            0
        }
        Err(x) => u32::from(x),
    }
}

// A registration.
pub fn register(
    state: &mut [u8],
    words: &mut [u8],
    text: &mut [u8],
    entry: Entry,
    host: &[u8],
    other: &[u8],
    key: &[u8],
) -> u32
    ensures { Replies state.old words.old text.old state.new words.new text.new
        (some (call_of entry.kind host.now other.now key.now)) result }
{
    if state.len() != screen_memory::STATE_BYTES {
        return 1;
    }
    let mut memory = [0u32; screen_memory::WORDS];
    let n = screen_memory::load(words, &mut memory);
    enter(
        state,
        words,
        text,
        &mut memory[..n],
        entry,
        host,
        other,
        key,
    )
}

// The reply where a number stands for no choice.
pub fn malformed(state: &[u8], words: &[u8], text: &[u8]) -> u32
    ensures { Replies state.now words.now text.now state.now words.now text.now none result }
{
    if state.len() != screen_memory::STATE_BYTES {
        return 1;
    }
    let mut memory = [0u32; screen_memory::WORDS];
    let n = screen_memory::load(words, &mut memory);
    let t = table_of(state);
    if t.is_sound_small(&memory[..n], text) {
        return 2;
    }
    1
}

// ---- Look-ups

// Looks a name up.
pub fn find_item(state: &[u8], words: &[u8], text: &[u8], query: &[u8]) -> NameReply
    ensures { RepliesName state.now words.now text.now query.now result }
{
    if state.len() != screen_memory::STATE_BYTES {
        return screen_replies::no_name(1);
    }
    let mut memory = [0u32; screen_memory::WORDS];
    let n = screen_memory::load(words, &mut memory);
    let t = table_of(state);
    if !t.is_sound_small(&memory[..n], text) {
        return screen_replies::no_name(1);
    }
    screen_replies::name_reply(t.find_sound(&memory[..n], text, query))
}

// Looks a module or namespace up.
pub fn find_module(state: &[u8], words: &[u8], text: &[u8], query: &[u8]) -> ModuleReply
    ensures { RepliesModule state.now words.now text.now query.now result }
{
    if state.len() != screen_memory::STATE_BYTES {
        return screen_replies::no_module(1);
    }
    let mut memory = [0u32; screen_memory::WORDS];
    let n = screen_memory::load(words, &mut memory);
    let t = table_of(state);
    if !t.is_sound_small(&memory[..n], text) {
        return screen_replies::no_module(1);
    }
    screen_replies::module_reply(t.find_module_sound(&memory[..n], text, query))
}

// ---- Completions

// A completion.
pub fn complete(
    state: &[u8],
    words: &[u8],
    text: &[u8],
    request: Request,
    query: &[u8],
    lines: &mut [u8],
    out: &mut [u8],
) -> CompleteReply
    ensures { RepliesLines state.now words.now text.now (some request.ask) query.now request.budget
        lines.old lines.new out.old out.new result }
{
    if state.len() != screen_memory::STATE_BYTES {
        return screen_replies::no_lines(1);
    }
    let mut memory = [0u32; screen_memory::WORDS];
    let n = screen_memory::load(words, &mut memory);
    let t = table_of(state);
    if !t.is_sound_small(&memory[..n], text) {
        return screen_replies::no_lines(1);
    }
    screen_replies::lines_reply(t.complete_sound(&memory[..n], text, request, query, lines, out))
}

// The reply to a completion, with the length of the beginning that its lines share.
pub fn with_shared(r: CompleteReply, lines: &[u8], out: &[u8]) -> SharedReply
    requires { CandidatesIn lines.now out.now r.lines }
    ensures { result ≡ shared_reply r (shared_seen lines.now out.now r.lines) }
{
    let shared = listing_shared::shared_length(lines, out, r.lines as usize);
    screen_replies::shared_reply(r, shared)
}
