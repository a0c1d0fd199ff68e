// The exported layer for screen code in C: numbers and bytes in, numbers and bytes out.
// A slice passes as a pointer and a length. What the calls share is crate screen_calls.
// Every exported call answers for whatever bytes are lent.
#![tactic(auto)]

ghost use Rattle.std.specs.Prelude.{true, false};
ghost use Rattle.std.proofs.Math.Option.{some};
ghost use Rattle.source.specs.Calls.{name, include, opens, alias, module_path};
ghost use Rattle.source.specs.Items.{kind_for};
ghost use Rattle.screen_replies.specs.Filters.{names_for, modules_for};
ghost use Rattle.screen_calls.specs.Completions.{RepliesLines, RepliesShared};
ghost use Rattle.screen_calls.specs.Replies.{flag_for, chosen, Replies, RepliesName, RepliesModule};

use listing_ask::Request;
use register_kind::{CallKind, Entry};
use screen_replies::{CompleteReply, ModuleReply, NameReply, SharedReply};

// ---- Registrations

// Registers a name with its item, by the numbers of its kind and itself.
#[unsafe(no_mangle)]
pub extern "C" fn name_console_insert_item(
    state: &mut [u8],
    words: &mut [u8],
    text: &mut [u8],
    host: &[u8],
    id: &[u8],
    kind: u32,
    number: u32,
) -> u32
    ensures { Replies state.old words.old text.old state.new words.new text.new
        (chosen (λ k. name host.now id.now (record { kind = k; number = number })) (kind_for kind)) result }
{
    if source_item::is_kind(kind) {
        let entry = Entry {
            kind: CallKind::Name(source_item::kind_of(kind), number),
        };
        return screen_calls::register(state, words, text, entry, host, id, &host[..0]);
    }
    screen_calls::malformed(state, words, text)
}

// Registers an include.
#[unsafe(no_mangle)]
pub extern "C" fn name_console_include(
    state: &mut [u8],
    words: &mut [u8],
    text: &mut [u8],
    host: &[u8],
    query: &[u8],
) -> u32
    ensures { Replies state.old words.old text.old state.new words.new text.new
        (some (include host.now query.now)) result }
{
    let entry = Entry {
        kind: CallKind::Include,
    };
    screen_calls::register(state, words, text, entry, host, query, &host[..0])
}

// Registers an open of a namespace.
#[unsafe(no_mangle)]
pub extern "C" fn name_console_open_namespace(
    state: &mut [u8],
    words: &mut [u8],
    text: &mut [u8],
    host: &[u8],
    query: &[u8],
) -> u32
    ensures { Replies state.old words.old text.old state.new words.new text.new
        (some (opens false host.now query.now)) result }
{
    let entry = Entry {
        kind: CallKind::Open,
    };
    screen_calls::register(state, words, text, entry, host, query, &host[..0])
}

// Registers an open of a module, which is an include.
#[unsafe(no_mangle)]
pub extern "C" fn name_console_open_module(
    state: &mut [u8],
    words: &mut [u8],
    text: &mut [u8],
    host: &[u8],
    query: &[u8],
) -> u32
    ensures { Replies state.old words.old text.old state.new words.new text.new
        (some (opens true host.now query.now)) result }
{
    let entry = Entry {
        kind: CallKind::Include,
    };
    screen_calls::register(state, words, text, entry, host, query, &host[..0])
}

// Registers an alias.
#[unsafe(no_mangle)]
pub extern "C" fn name_console_alias(
    state: &mut [u8],
    words: &mut [u8],
    text: &mut [u8],
    key: &[u8],
    host: &[u8],
    query: &[u8],
) -> u32
    ensures { Replies state.old words.old text.old state.new words.new text.new
        (some (alias key.now host.now query.now)) result }
{
    let entry = Entry {
        kind: CallKind::Alias,
    };
    screen_calls::register(state, words, text, entry, host, query, key)
}

// Registers a module path: loaded if `loaded` is 1, not loaded if it is 0; a loaded Module stays loaded.
#[unsafe(no_mangle)]
pub extern "C" fn name_console_module(
    state: &mut [u8],
    words: &mut [u8],
    text: &mut [u8],
    loaded: u32,
    query: &[u8],
    path: &[u8],
) -> u32
    ensures { Replies state.old words.old text.old state.new words.new text.new
        (chosen (λ b. module_path b query.now path.now) (flag_for loaded)) result }
{
    if loaded < 2 {
        let entry = Entry {
            kind: CallKind::Module(loaded == 1),
        };
        return screen_calls::register(state, words, text, entry, query, path, &query[..0]);
    }
    screen_calls::malformed(state, words, text)
}

// ---- Look-ups

// Looks a name up.
#[unsafe(no_mangle)]
pub extern "C" fn name_console_find_item(
    state: &[u8],
    words: &[u8],
    text: &[u8],
    query: &[u8],
) -> NameReply
    ensures { RepliesName state.now words.now text.now query.now result }
{
    screen_calls::find_item(state, words, text, query)
}

// Looks a module or namespace up.
#[unsafe(no_mangle)]
pub extern "C" fn name_console_find_module(
    state: &[u8],
    words: &[u8],
    text: &[u8],
    query: &[u8],
) -> ModuleReply
    ensures { RepliesModule state.now words.now text.now query.now result }
{
    screen_calls::find_module(state, words, text, query)
}

// ---- Completions

// Completes a name, of every kind if `kind` is 0, else of the kind of that number: lines of 48 bytes into `lines`, their texts into `out`.
#[unsafe(no_mangle)]
pub extern "C" fn name_console_complete_names(
    state: &[u8],
    words: &[u8],
    text: &[u8],
    kind: u32,
    query: &[u8],
    budget: u32,
    lines: &mut [u8],
    out: &mut [u8],
) -> CompleteReply
    ensures { RepliesLines state.now words.now text.now (names_for kind) query.now budget lines.old
        lines.new out.old out.new result }
{
    if screen_replies::is_filter(kind) {
        let request = Request {
            ask: screen_replies::names_asked(kind),
            budget: budget,
        };
        return screen_calls::complete(state, words, text, request, query, lines, out);
    }
    screen_replies::no_lines(screen_calls::malformed(state, words, text))
}

// Completes a module or namespace: all if `filter` is 0, those loaded if 1, modules if 2, namespaces if 3.
#[unsafe(no_mangle)]
pub extern "C" fn name_console_complete_modules(
    state: &[u8],
    words: &[u8],
    text: &[u8],
    filter: u32,
    query: &[u8],
    budget: u32,
    lines: &mut [u8],
    out: &mut [u8],
) -> CompleteReply
    ensures { RepliesLines state.now words.now text.now (modules_for filter) query.now budget lines.old
        lines.new out.old out.new result }
{
    if screen_replies::is_filter(filter) {
        let request = Request {
            ask: screen_replies::modules_asked(filter),
            budget: budget,
        };
        return screen_calls::complete(state, words, text, request, query, lines, out);
    }
    screen_replies::no_lines(screen_calls::malformed(state, words, text))
}

// ---- Completions with what their lines share

// Completes a name, and says how many bytes the beginning has that all lines share.
#[unsafe(no_mangle)]
pub extern "C" fn name_console_complete_names_shared(
    state: &[u8],
    words: &[u8],
    text: &[u8],
    kind: u32,
    query: &[u8],
    budget: u32,
    lines: &mut [u8],
    out: &mut [u8],
) -> SharedReply
    ensures { RepliesShared state.now words.now text.now (names_for kind) query.now budget lines.old
        lines.new out.old out.new result }
{
    let r = name_console_complete_names(state, words, text, kind, query, budget, lines, out);
    screen_calls::with_shared(r, lines, out)
}

// The same of a module or namespace, by the number of a filter.
#[unsafe(no_mangle)]
pub extern "C" fn name_console_complete_modules_shared(
    state: &[u8],
    words: &[u8],
    text: &[u8],
    filter: u32,
    query: &[u8],
    budget: u32,
    lines: &mut [u8],
    out: &mut [u8],
) -> SharedReply
    ensures { RepliesShared state.now words.now text.now (modules_for filter) query.now budget
        lines.old lines.new out.old out.new result }
{
    let r = name_console_complete_modules(state, words, text, filter, query, budget, lines, out);
    screen_calls::with_shared(r, lines, out)
}
