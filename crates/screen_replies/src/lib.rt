// Replies as numbers, by what crate table hands back, and what is asked by number.
#![tactic(auto)]

ghost use Rattle.std.specs.Prelude.{◌<◌, ◌≡◌};
ghost use Rattle.std.proofs.Math.Option.{some};
ghost use Rattle.source.specs.Calls.{refused};
ghost use Rattle.table_roots.specs.Answers.{name_found};
ghost use Rattle.screen_replies.specs.Filters.{names_for, modules_for, is_asked};
ghost use Rattle.screen_replies.specs.Replies.{name_reply, flag, no_module, symbol_reply, module_reply, no_lines, lines_reply, shared_reply};

use listing::Listed;
use listing_ask::{Ask, Filter};
use memory::ModSymbol;
use source::{KindFilter, LidSymbol};
use table::Answer;

// The answer of a look-up that finds nothing: no refusal has this number.
pub const NONE: u32 = 4294967295;

// The reply to a look-up of a name: 0 with the kind and the number of its item, NONE, else the number of the refusal.
// What does not apply is 0.
#[repr(C)]
#[derive(Clone, Copy)]
pub struct NameReply {
    pub answer: u32,
    pub kind: u32,
    pub number: u32,
}

// The reply to a look-up of a module or namespace: 0 with its sort (0 a Module, 1 a Namespace), the spans of its full name and
// path in the used text, and 1 if it is loaded; NONE, else the number of the refusal. What does not apply is 0.
#[repr(C)]
#[derive(Clone, Copy)]
pub struct ModuleReply {
    pub answer: u32,
    pub sort: u32,
    pub name_start: u32,
    pub name_len: u32,
    pub path_start: u32,
    pub path_len: u32,
    pub loaded: u32,
}

// The reply to a completion: 0 with the lines written and the tries entered, else the number of the refusal and zeros.
#[repr(C)]
#[derive(Clone, Copy)]
pub struct CompleteReply {
    pub answer: u32,
    pub lines: u32,
    pub entered: u32,
}

// The reply to a completion with its shared length: that of a completion, and the length of the beginning that its lines share.
#[repr(C)]
#[derive(Clone, Copy)]
pub struct SharedReply {
    pub answer: u32,
    pub lines: u32,
    pub entered: u32,
    pub shared: u32,
}

// The reply of a number alone.
pub fn no_name(answer: u32) -> NameReply
    ensures { result ≡ name_reply (refused answer) }
{
    NameReply {
        answer: answer,
        kind: 0,
        number: 0,
    }
}

// The reply of a number alone.
pub fn no_module(answer: u32) -> ModuleReply
    ensures { result ≡ no_module answer }
{
    ModuleReply {
        answer: answer,
        sort: 0,
        name_start: 0,
        name_len: 0,
        path_start: 0,
        path_len: 0,
        loaded: 0,
    }
}

// The reply of crate table's answer.
pub fn name_reply(x: Answer<Option<LidSymbol>>) -> NameReply
    ensures { result ≡ name_reply (name_found x.answer) }
{
    match x.answer {
        Ok(Some(item)) => NameReply {
            answer: 0,
            kind: u32::from(item.kind),
            number: item.number,
        },
        Ok(None) => no_name(NONE),
        Err(x) => no_name(u32::from(x)),
    }
}

// A yes or no as a number.
fn flag_of(b: bool) -> u32
    ensures { result ≡ flag b }
{
    u32::from(b)
}

// The reply of a module or namespace.
fn symbol_reply(s: ModSymbol) -> ModuleReply
    ensures { result ≡ symbol_reply s }
{
    match s {
        ModSymbol::Module(name, path, loaded) => ModuleReply {
            answer: 0,
            sort: 0,
            name_start: name.start,
            name_len: name.len,
            path_start: path.start,
            path_len: path.len,
            loaded: flag_of(loaded),
        },
        ModSymbol::Namespace(name, loaded) => ModuleReply {
            answer: 0,
            sort: 1,
            name_start: name.start,
            name_len: name.len,
            path_start: 0,
            path_len: 0,
            loaded: flag_of(loaded),
        },
    }
}

// The reply of crate table's answer.
pub fn module_reply(x: Answer<Option<ModSymbol>>) -> ModuleReply
    ensures { result ≡ module_reply x.answer }
{
    match x.answer {
        Ok(Some(s)) => symbol_reply(s),
        Ok(None) => no_module(NONE),
        Err(x) => no_module(u32::from(x)),
    }
}

// The reply of a number alone.
pub fn no_lines(answer: u32) -> CompleteReply
    ensures { result ≡ no_lines answer }
{
    CompleteReply {
        answer: answer,
        lines: 0,
        entered: 0,
    }
}

// The reply of crate table's answer.
pub fn lines_reply(x: Answer<Listed>) -> CompleteReply
    ensures { result ≡ lines_reply x.answer }
{
    match x.answer {
        Ok(l) => CompleteReply {
            answer: 0,
            lines: l.lines,
            entered: l.entered,
        },
        Err(x) => no_lines(u32::from(x)),
    }
}

// The reply to a completion, and a length besides.
pub fn shared_reply(r: CompleteReply, shared: u32) -> SharedReply
    ensures { result ≡ shared_reply r shared }
{
    SharedReply {
        answer: r.answer,
        lines: r.lines,
        entered: r.entered,
        shared: shared,
    }
}

// Whether a number is a filter's: names and modules have four each.
pub fn is_filter(n: u32) -> bool
    ensures { (result ≡ is_asked (names_for n)) × (result ≡ is_asked (modules_for n)) }
{
    n < 4
}

// What a filter's number asks of the names.
pub fn names_asked(filter: u32) -> Ask
    requires { filter < 4 }
    ensures { names_for filter ≡ some result }
{
    if filter == 0 {
        return Ask::Names(KindFilter::Every);
    }
    if filter == 1 {
        return Ask::Names(KindFilter::Timers);
    }
    if filter == 2 {
        return Ask::Names(KindFilter::Ports);
    }
    Ask::Names(KindFilter::Registers)
}

// What it asks of the modules.
pub fn modules_asked(filter: u32) -> Ask
    requires { filter < 4 }
    ensures { modules_for filter ≡ some result }
{
    if filter == 0 {
        return Ask::Modules(Filter::All);
    }
    if filter == 1 {
        return Ask::Modules(Filter::Loaded);
    }
    if filter == 2 {
        return Ask::Modules(Filter::ModulesOnly);
    }
    Ask::Modules(Filter::NamespacesOnly)
}
