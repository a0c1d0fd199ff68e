// The line of a registration answered: its call is made on a table whose memory is sound by proof, and its reply is written.
// Words and text stay two parameters: crate memory says why.
#![tactic(auto)]

ghost use Rattle.std.specs.Prelude.{◌+◌, ◌≤◌, length};
ghost use Rattle.text.specs.Laid.{Laid};
ghost use Rattle.register_kind.specs.Shapes.{call_of};
ghost use Rattle.script_replies.specs.Replies.{reply_room};
ghost use Rattle.table.specs.Header.{IsSound};
ghost use Rattle.console_registrations.specs.Registers.{registered_text, Finished, Registers};

use refusals::Refusal;
use register_kind::Entry;
use table::{Answer, Table};

// The table after the lines so far, and where their replies end.
#[derive(Clone, Copy)]
pub struct Done {
    pub table: Table,
    pub end: usize,
}

// Writes the reply to a registration.
fn put_registered(reply: &mut [u8], at: usize, records: u32, r: Result<(), Refusal>) -> usize
    requires { at + reply_room ≤ length reply.old }
    ensures { Laid reply.old reply.new at result (registered_text records r) }
{
    match r {
        Ok(()) => script_replies::put_ok(reply, at, records),
        Err(x) => {
            let code = u32::from(x);
            script_replies::put_refused(reply, at, code)
        }
    }
}

// The answer to a registration, with its reply written.
fn finish(reply: &mut [u8], at: usize, r: Answer<()>) -> Done
    requires { at + reply_room ≤ length reply.old }
    ensures { Finished reply.old reply.new at r result }
{
    let t = r.table;
    let a = r.answer;
    let e = put_registered(reply, at, t.header.records, a);
    Done { table: t, end: e }
}

// `[name ..]`, `[include ..]`, `[open ..]`, `[alias ..]`, `[module ..]`: the kind and its texts.
pub fn register_line(
    start: Done,
    words: &mut [u32],
    text: &mut [u8],
    entry: Entry,
    host: &[u8],
    other: &[u8],
    key: &[u8],
    reply: &mut [u8],
) -> Done
    requires sound { IsSound words.old text.old start.table }
    requires reply_room_in_bounds { start.end + reply_room ≤ length reply.old }
    ensures { Registers words.old text.old words.new text.new start.table
        (call_of entry.kind host.now other.now key.now) reply.old reply.new start.end result }
{
    let table = start.table;
    let r = table.register_sound(words, text, entry, host, other, key);
    finish(reply, start.end, r)
}
