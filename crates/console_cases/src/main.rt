// Cases 1 to 13 of docs/REQUIREMENTS.md, and a damaged table through the total calls.
// Cases 1 to 11 are scripts, each on a fresh table as the program `console` has it; what is written is held to the file `stdout`,
// which is written from the requirements.
// Words and text stay two parameters: crate memory says why.
#![tactic(auto)]

use source::{ItemKind, KindFilter, LidSymbol};
use std::io::{Print, Stdout};
use table::{Answer, Table};

// What cannot be written is missing in the output, which then is not as the file has it.
fn say(out: Stdout, s: &[u8]) {
    let _ = out.write_all(s);
}

fn say_number(out: Stdout, n: u32) {
    let _ = out.println(n);
}

// The replies to the lines of a script, after those of another, on a fresh table.
fn play(out: Stdout, first: &[u8], script: &[u8]) {
    let mut words = [0u32; 16384];
    let mut text = [0u8; 32768];
    let mut flat = [0u8; 24576];
    let mut pane = [0u8; 32768];
    let mut reply = [0u8; 65536];
    let fresh = Table::fresh();
    let a = console_answers::answer_lines(
        fresh, &mut words, &mut text, first, 0, &mut flat, &mut pane, &mut reply,
    );
    let t = a.table;
    let b = console_answers::answer_lines(
        t, &mut words, &mut text, script, 0, &mut flat, &mut pane, &mut reply,
    );
    let e = b.end;
    say(out, &reply[..e]);
}

// The same on table T.
fn play_t(out: Stdout, script: &[u8]) {
    play(
        out,
        b"[name [Saved.] offset 1]\n[include [Live.] [Saved.]]\n[name [Saved.] late 2]\n[name [Live.] offset 3]\n",
        script,
    );
}

// 0 for an accepted registration, else its refusal's number.
fn code(r: Answer<()>) -> u32 {
    match r.answer {
        Ok(()) => 0,
        Err(x) => u32::from(x),
    }
}

// The Register of a number.
fn register(number: u32) -> LidSymbol {
    LidSymbol {
        kind: ItemKind::Register,
        number: number,
    }
}

// Case 12: case 1 with so many words and bytes.
fn tick(out: Stdout, words: &mut [u32], text: &mut [u8]) {
    let r = Table::fresh().insert(words, text, b"", b"tick", register(5));
    say_number(out, code(r));
}

// The first two calls of table T.
fn half(words: &mut [u32], text: &mut [u8]) -> Table {
    let a = Table::fresh().insert(words, text, b"Saved.", b"offset", register(1));
    let t = a.table;
    let b = t.register_include(words, text, b"Live.", b"Saved.");
    b.table
}

// The other two calls of T.
fn rest(t: Table, words: &mut [u32], text: &mut [u8]) -> Table {
    let a = t.insert(words, text, b"Saved.", b"late", register(2));
    let u = a.table;
    let b = u.insert(words, text, b"Live.", b"offset", register(3));
    b.table
}

// Table T.
fn build(words: &mut [u32], text: &mut [u8]) -> Table {
    let t = half(words, text);
    rest(t, words, text)
}

// 0 for a listing, else its refusal's number.
fn listed(
    t: Table,
    words: &[u32],
    text: &[u8],
    budget: u32,
    flat: &mut [u8],
    pane: &mut [u8],
) -> u32 {
    let request = listing_ask::Request {
        ask: listing_ask::Ask::Names(KindFilter::Every),
        budget: budget,
    };
    let l = t.complete(words, text, request, b"Live.off.", flat, pane);
    match l.answer {
        Ok(_) => 0,
        Err(x) => u32::from(x),
    }
}

// 0 for an answer, else its refusal's number.
fn looked(t: Table, words: &[u32], text: &[u8]) -> u32 {
    let f = t.find(words, text, b"Live.offset.");
    match f.answer {
        Ok(_) => 0,
        Err(x) => u32::from(x),
    }
}

fn scripts(out: Stdout) {
    say(out, b"case 1\n");
    play(out, b"", b"[name [] tick 5]\n");
    say(out, b"case 3\n");
    play_t(out, b"[find [Live.late.]]\n[find [Saved.late.]]\n");
    say(out, b"case 4\n");
    play_t(out, b"[find [Live.offset.]]\n");
    say(out, b"case 5\n");
    play_t(out, b"[complete [Live.off.]]\n");
    say(out, b"case 6\n");
    play_t(out, b"[complete []]\n");
}

fn more_scripts(out: Stdout) {
    say(out, b"case 7\n");
    play_t(out, b"[complete [.]]\n");
    say(out, b"case 8\n");
    play_t(out, b"[alias K [Live.] [Saved.]]\n[find [Live.K.late.]]\n");
    say(out, b"case 9\n");
    play(
        out,
        b"[name [Saved.] offset 1]\n[include [Live.] [Saved.]]\n[name [Saved.] late 2]\n[name [Live.] offset 3]\n[include [] [Saved.]]\n",
        b"[complete [off.]]\n",
    );
    say(out, b"case 10\n");
    play(out, b"", b"[module u [IO.Bus.] io/bus]\n[modules [I.]]\n");
}

// A Timer, a Port and a Register of one number, and what is no item.
fn kinds(out: Stdout) {
    say(out, b"kinds\n");
    play(
        out,
        b"[name [] tick t5]\n[name [] tock p5]\n[name [] took 5]\n",
        b"[find [tick.]]\n[complete [t.]]\n[name [] x t]\n[name [] x x5]\n[name [] x t05]\n",
    );
}

// Case 2: records and text bytes used by T.
fn used(out: Stdout) {
    let mut words = [0u32; 600];
    let mut text = [0u8; 64];
    let t = build(&mut words, &mut text);
    say(out, b"case 2\n");
    say_number(out, t.header.records);
    say_number(out, t.header.text);
}

fn limits(out: Stdout) {
    say(out, b"case 11\n");
    play(out, b"", b"[name [] aaaaaaaaaaaaaaaaaaaaaaaaaaaaaaa 1]\n");
    play(out, b"", b"[name [] aaaaaaaaaaaaaaaaaaaaaaaaaaaaaaaa 1]\n");
    play(
        out,
        b"",
        b"[name [a.b.c.d.e.f.g.h.i.j.k.l.m.n.o.p.] x 1]\n[find [a.b.c.d.e.f.g.h.i.j.k.l.m.n.o.p.x.]]\n",
    );
    play(
        out,
        b"",
        b"[name [a.b.c.d.e.f.g.h.i.j.k.l.m.n.o.p.q.] x 1]\n",
    );
    play(
        out,
        b"",
        b"[name [a.b.c.d.e.f.g.h.i.j.k.l.m.n.o.p.q.r.] x 1]\n",
    );
}

fn rooms(out: Stdout) {
    let mut two = [0u32; 24];
    let mut three = [0u32; 36];
    let mut text = [0u8; 8];
    say(out, b"case 12\n");
    tick(out, &mut two, &mut text);
    tick(out, &mut three, &mut text);
}

fn texts(out: Stdout) {
    let mut words = [0u32; 36];
    let mut three = [0u8; 3];
    let mut four = [0u8; 4];
    tick(out, &mut words, &mut three);
    tick(out, &mut words, &mut four);
}

fn outputs(out: Stdout) {
    let mut words = [0u32; 600];
    let mut text = [0u8; 64];
    let mut flat = [0u8; 48];
    let mut none = [0u8; 47];
    let mut pane = [0u8; 64];
    let t = build(&mut words, &mut text);
    say(out, b"case 13\n");
    say_number(out, listed(t, &words, &text, 1, &mut flat, &mut pane));
    say_number(out, listed(t, &words, &text, 2, &mut flat, &mut pane));
    say_number(out, listed(t, &words, &text, 2, &mut none, &mut pane));
}

fn damaged(out: Stdout) {
    let mut words = [0u32; 600];
    let mut text = [0u8; 64];
    let mut flat = [0u8; 48];
    let mut pane = [0u8; 64];
    let t = build(&mut words, &mut text);
    say(out, b"a damaged table\n");
    say_number(out, looked(t, &words, &text));
    words[6] = 4;
    say_number(out, looked(t, &words, &text));
    words[0] = 99;
    say_number(out, looked(t, &words, &text));
    say_number(out, listed(t, &words, &text, 2, &mut flat, &mut pane));
    let r = t.insert(&mut words, &mut text, b"", b"tick", register(5));
    say_number(out, code(r));
}

fn main(rt: HostRuntime) {
    let out = rt.stdout();
    used(out);
    scripts(out);
    more_scripts(out);
    limits(out);
    rooms(out);
    texts(out);
    outputs(out);
    kinds(out);
    damaged(out);
}
