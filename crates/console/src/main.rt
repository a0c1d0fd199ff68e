// The program `console`: it reads a script from standard input to its end and replies line by line.
// What the system gives and takes no contract can say: crate console_feed says what the replies are, and here its steps are fed.
// Replies are written out before each read, so that whoever types a line sees its reply. A read or a write that fails ends the program,
// and nothing of a partial line is executed.
// Words and text stay two parameters: crate memory says why.
#![tactic(auto)]

ghost use Rattle.std.specs.Prelude.{◌≤◌, length};
ghost use Rattle.listing.specs.Completes.{output};
ghost use Rattle.table.specs.Header.{IsSound};
ghost use Rattle.console_questions.specs.RowReplies.{room};
ghost use Rattle.console_feed.specs.Feed.{Inside};
ghost use Rattle.console.specs.Fed.{Rests, Closes};

use console_feed::Feed;
use console_streams::{fault, help};
use std::env::{Env, FillError};
use std::io::{self, ErrorKind, Write};
use table::Table;

// What is left after a read was answered, and whether every reply was written.
#[derive(Clone, Copy)]
struct AfterRead {
    feed: Feed,
    written: io::Result<()>,
}

// Answers the whole lines of what was read, and writes the replies.
fn reply_all<W: Write>(
    to: &mut W,
    f: Feed,
    words: &mut [u32],
    text: &mut [u8],
    input: &mut [u8],
    flat: &mut [u8],
    pane: &mut [u8],
    reply: &mut [u8],
) -> AfterRead
    requires sound { IsSound words.old text.old f.table }
    requires pane_in_bounds { room flat.old pane.old ≤ length reply.old }
    requires inside { Inside f input.old }
    ensures { Rests words.old text.old words.new text.new input.old input.new
        (output flat.old pane.old) f result }
{
    let mut feed = f;
    loop {
        let r = console_feed::step(feed, words, text, input, flat, pane, reply);
        feed = r.feed;
        let written = console_streams::put(to, &reply[..r.end]);
        if written.is_err() || !r.more {
            return AfterRead { feed, written };
        }
    }
}

// Answers what is left at the end of the input, and says whether the reply was written.
fn reply_last<W: Write>(
    to: &mut W,
    f: Feed,
    words: &mut [u32],
    text: &mut [u8],
    input: &[u8],
    flat: &mut [u8],
    pane: &mut [u8],
    reply: &mut [u8],
) -> io::Result<()>
    requires sound { IsSound words.old text.old f.table }
    requires pane_in_bounds { room flat.old pane.old ≤ length reply.old }
    requires inside { Inside f input.now }
    ensures { Closes words.old text.old words.new text.new f input.now flat.old flat.new
        pane.old pane.new reply.old reply.new result }
{
    let d = console_feed::last(f, words, text, input, flat, pane, reply);
    console_streams::put(to, &reply[..d.end])
}

// Reads and replies to the end of the input, or to the first fault.
fn talk(rt: HostRuntime) {
    let mut from = rt.stdin();
    let mut to = rt.stdout();
    let mut words = [0u32; 16384];
    let mut text = [0u8; 32768];
    let mut flat = [0u8; 24576];
    let mut pane = [0u8; 32768];
    let mut reply = [0u8; 65536];
    let mut input = [0u8; 65536];
    let mut table = Table::fresh();
    let mut have: usize = 0;
    for _ in 0..u64::MAX {
        match console_streams::fill(&mut from, &mut input, have) {
            Err(e) if e.kind() == ErrorKind::Interrupted => {}
            Err(e) => {
                fault::say(&mut rt.stderr(), b"console: standard input", e);
                return;
            }
            Ok(got) => {
                let f = Feed {
                    table,
                    from: 0,
                    have: got,
                };
                if got == have {
                    let last = reply_last(
                        &mut to, f, &mut words, &mut text, &input, &mut flat, &mut pane, &mut reply,
                    );
                    if let Err(e) = last {
                        fault::say(&mut rt.stderr(), b"console: standard output", e);
                    }
                    return;
                }
                let r = reply_all(
                    &mut to, f, &mut words, &mut text, &mut input, &mut flat, &mut pane, &mut reply,
                );
                if let Err(e) = r.written {
                    fault::say(&mut rt.stderr(), b"console: standard output", e);
                    return;
                }
                table = r.feed.table;
                have = r.feed.have;
            }
        }
    }
}

fn main(rt: HostRuntime) {
    let mut arg = [0u8; 4096];
    match rt.arg(1, &mut arg) {
        Ok(n) if help::asked(&arg[..n]) => help::print(&mut rt.stdout()),
        Err(FillError::NotPresent) => talk(rt),
        Ok(_) | Err(FillError::TooLong) => {
            let _ = console_streams::put(
                &mut rt.stderr(),
                b"console: unknown argument; --help says what it reads\n",
            );
        }
    }
}
