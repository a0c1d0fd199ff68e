// Calls for tests and benchmarks outside Rattle: slices pass as a pointer and a length, a table as its four numbers, as tests/product declares them in C.
// Each replies what crate table hands back.
#![tactic(auto)]

ghost use Rattle.std.specs.Prelude.{◌≡◌, true, false};
ghost use Rattle.source.specs.Calls.{name, include, opens, alias, module_path};
ghost use Rattle.memory.specs.Sound.{Says};
ghost use Rattle.table.specs.Header.{IsSound};
ghost use Rattle.screen_tests.specs.Replies.{table_of, ask_of, item_of, refusal_of, reply_of, shared_of, RegisterReplies, FindReplies, ListReplies};
ghost use Rattle.screen_tests.specs.Replies.{SharedReplies};

use listing_ask::{Ask, Filter, Request};
use memory_table::Header;
use refusals::Refusal;
use screen_replies::{CompleteReply, NameReply, SharedReply};
use source::LidSymbol;
use table::{Answer, Table};
use table_shared::Sharing;

// A registration's reply: 0 or the number of the refusal, and the table.
#[repr(C)]
#[derive(Clone, Copy)]
pub struct Reply {
    pub refusal: u32,
    pub names: u32,
    pub modules: u32,
    pub records: u32,
    pub text: u32,
}

// What is asked: 0 to 3 names by the number of a filter, 4 to 7 modules by that and four, any other NamespacesOnly.
fn ask_of(n: u32) -> Ask
    ensures { result ≡ ask_of n }
{
    if n < 4 {
        return screen_replies::names_asked(n);
    }
    if n < 8 {
        return screen_replies::modules_asked(n - 4);
    }
    Ask::Modules(Filter::NamespacesOnly)
}

// The item of two numbers: any number is read as a kind.
fn item_of(kind: u32, number: u32) -> LidSymbol
    ensures { result ≡ item_of kind number }
{
    LidSymbol {
        kind: source_item::kind_of(kind),
        number: number,
    }
}

fn refusal_of(a: Result<(), Refusal>) -> u32
    ensures { result ≡ refusal_of a }
{
    match a {
        Ok(()) => 0,
        Err(x) => u32::from(x),
    }
}

fn reply_of(x: Answer<()>) -> Reply
    ensures { result ≡ reply_of x }
{
    let t = x.table;
    let a = x.answer;
    Reply {
        refusal: refusal_of(a),
        names: t.header.names,
        modules: t.header.modules,
        records: t.header.records,
        text: t.header.text,
    }
}

fn shared_of(x: Sharing) -> SharedReply
    ensures { result ≡ shared_of x }
{
    let listing = x.listing;
    screen_replies::shared_reply(screen_replies::lines_reply(listing), x.shared)
}

fn table_of(names: u32, modules: u32, records: u32, used: u32) -> Table
    ensures { result ≡ table_of names modules records used }
{
    Table {
        header: Header {
            names: names,
            modules: modules,
            records: records,
            text: used,
        },
    }
}

// Is the lent memory a sound table?
#[unsafe(no_mangle)]
pub extern "C" fn name_table_sound(
    words: &[u32],
    text: &[u8],
    names: u32,
    modules: u32,
    records: u32,
    used: u32,
) -> bool
    ensures { Says result (IsSound words.now text.now (table_of names modules records used)) }
{
    let t = table_of(names, modules, records, used);
    t.is_sound(words, text)
}

#[unsafe(no_mangle)]
pub extern "C" fn name_table_insert(
    words: &mut [u32],
    text: &mut [u8],
    names: u32,
    modules: u32,
    records: u32,
    used: u32,
    host: &[u8],
    id: &[u8],
    kind: u32,
    number: u32,
) -> Reply
    ensures { RegisterReplies words.old text.old words.new text.new (table_of names modules records used)
        (name host.now id.now (item_of kind number)) result }
{
    let t = table_of(names, modules, records, used);
    reply_of(t.insert(words, text, host, id, item_of(kind, number)))
}

#[unsafe(no_mangle)]
pub extern "C" fn name_table_include(
    words: &mut [u32],
    text: &mut [u8],
    names: u32,
    modules: u32,
    records: u32,
    used: u32,
    host: &[u8],
    query: &[u8],
) -> Reply
    ensures { RegisterReplies words.old text.old words.new text.new (table_of names modules records used)
        (include host.now query.now) result }
{
    let t = table_of(names, modules, records, used);
    reply_of(t.register_include(words, text, host, query))
}

#[unsafe(no_mangle)]
pub extern "C" fn name_table_open_namespace(
    words: &mut [u32],
    text: &mut [u8],
    names: u32,
    modules: u32,
    records: u32,
    used: u32,
    host: &[u8],
    query: &[u8],
) -> Reply
    ensures { RegisterReplies words.old text.old words.new text.new (table_of names modules records used)
        (opens false host.now query.now) result }
{
    let t = table_of(names, modules, records, used);
    reply_of(t.register_open_namespace(words, text, host, query))
}

#[unsafe(no_mangle)]
pub extern "C" fn name_table_open_module(
    words: &mut [u32],
    text: &mut [u8],
    names: u32,
    modules: u32,
    records: u32,
    used: u32,
    host: &[u8],
    query: &[u8],
) -> Reply
    ensures { RegisterReplies words.old text.old words.new text.new (table_of names modules records used)
        (opens true host.now query.now) result }
{
    let t = table_of(names, modules, records, used);
    reply_of(t.register_open_module(words, text, host, query))
}

#[unsafe(no_mangle)]
pub extern "C" fn name_table_alias(
    words: &mut [u32],
    text: &mut [u8],
    names: u32,
    modules: u32,
    records: u32,
    used: u32,
    key: &[u8],
    host: &[u8],
    query: &[u8],
) -> Reply
    ensures { RegisterReplies words.old text.old words.new text.new (table_of names modules records used)
        (alias key.now host.now query.now) result }
{
    let t = table_of(names, modules, records, used);
    reply_of(t.register_alias(words, text, key, host, query))
}

#[unsafe(no_mangle)]
pub extern "C" fn name_table_module(
    words: &mut [u32],
    text: &mut [u8],
    names: u32,
    modules: u32,
    records: u32,
    used: u32,
    loaded: bool,
    query: &[u8],
    path: &[u8],
) -> Reply
    ensures { RegisterReplies words.old text.old words.new text.new (table_of names modules records used)
        (module_path loaded query.now path.now) result }
{
    let t = table_of(names, modules, records, used);
    reply_of(t.register_module_path(words, text, loaded, query, path))
}

#[unsafe(no_mangle)]
pub extern "C" fn name_table_find(
    words: &[u32],
    text: &[u8],
    names: u32,
    modules: u32,
    records: u32,
    used: u32,
    query: &[u8],
) -> NameReply
    ensures { FindReplies words.now text.now (table_of names modules records used) query.now result }
{
    let t = table_of(names, modules, records, used);
    screen_replies::name_reply(t.find(words, text, query))
}

#[unsafe(no_mangle)]
pub extern "C" fn name_table_complete(
    words: &[u32],
    text: &[u8],
    names: u32,
    modules: u32,
    records: u32,
    used: u32,
    ask: u32,
    query: &[u8],
    budget: u32,
    flat: &mut [u8],
    out: &mut [u8],
) -> CompleteReply
    ensures { ListReplies words.now text.now (table_of names modules records used) ask query.now budget
        flat.old flat.new out.old out.new result }
{
    let t = table_of(names, modules, records, used);
    let request = Request {
        ask: ask_of(ask),
        budget: budget,
    };
    screen_replies::lines_reply(t.complete(words, text, request, query, flat, out))
}

// The same, with the length of the beginning that the lines share.
#[unsafe(no_mangle)]
pub extern "C" fn name_table_complete_shared(
    words: &[u32],
    text: &[u8],
    names: u32,
    modules: u32,
    records: u32,
    used: u32,
    ask: u32,
    query: &[u8],
    budget: u32,
    flat: &mut [u8],
    out: &mut [u8],
) -> SharedReply
    ensures { SharedReplies words.now text.now (table_of names modules records used) ask query.now budget
        flat.old flat.new out.old out.new result }
{
    let t = table_of(names, modules, records, used);
    let request = Request {
        ask: ask_of(ask),
        budget: budget,
    };
    shared_of(table_shared::complete(t, words, text, request, query, flat, out))
}

// For callers whose memory is sound: no test.
#[unsafe(no_mangle)]
pub extern "C" fn name_table_insert_sound(
    words: &mut [u32],
    text: &mut [u8],
    names: u32,
    modules: u32,
    records: u32,
    used: u32,
    host: &[u8],
    id: &[u8],
    kind: u32,
    number: u32,
) -> Reply
    requires { IsSound words.old text.old (table_of names modules records used) }
    ensures { RegisterReplies words.old text.old words.new text.new (table_of names modules records used)
        (name host.now id.now (item_of kind number)) result }
{
    let t = table_of(names, modules, records, used);
    reply_of(t.insert_sound(words, text, host, id, item_of(kind, number)))
}

#[unsafe(no_mangle)]
pub extern "C" fn name_table_find_sound(
    words: &[u32],
    text: &[u8],
    names: u32,
    modules: u32,
    records: u32,
    used: u32,
    query: &[u8],
) -> NameReply
    requires { IsSound words.now text.now (table_of names modules records used) }
    ensures { FindReplies words.now text.now (table_of names modules records used) query.now result }
{
    let t = table_of(names, modules, records, used);
    screen_replies::name_reply(t.find_sound(words, text, query))
}

#[unsafe(no_mangle)]
pub extern "C" fn name_table_complete_sound(
    words: &[u32],
    text: &[u8],
    names: u32,
    modules: u32,
    records: u32,
    used: u32,
    ask: u32,
    query: &[u8],
    budget: u32,
    flat: &mut [u8],
    out: &mut [u8],
) -> CompleteReply
    requires { IsSound words.now text.now (table_of names modules records used) }
    ensures { ListReplies words.now text.now (table_of names modules records used) ask query.now budget
        flat.old flat.new out.old out.new result }
{
    let t = table_of(names, modules, records, used);
    let request = Request {
        ask: ask_of(ask),
        budget: budget,
    };
    screen_replies::lines_reply(t.complete_sound(words, text, request, query, flat, out))
}

#[unsafe(no_mangle)]
pub extern "C" fn name_table_complete_shared_sound(
    words: &[u32],
    text: &[u8],
    names: u32,
    modules: u32,
    records: u32,
    used: u32,
    ask: u32,
    query: &[u8],
    budget: u32,
    flat: &mut [u8],
    out: &mut [u8],
) -> SharedReply
    requires { IsSound words.now text.now (table_of names modules records used) }
    ensures { SharedReplies words.now text.now (table_of names modules records used) ask query.now budget
        flat.old flat.new out.old out.new result }
{
    let t = table_of(names, modules, records, used);
    let request = Request {
        ask: ask_of(ask),
        budget: budget,
    };
    shared_of(table_shared::complete_sound(t, words, text, request, query, flat, out))
}
