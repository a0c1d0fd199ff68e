// A registration over a header: the rows that it must pass, and what it writes.
// Words and text stay two parameters: crate memory says why.
#![tactic(auto)]

ghost use Rattle.std.specs.Prelude.{◌≡◌, false, cond, [], ◌∷◌, ◌+◌, ◌≤◌, length};
ghost use Rattle.source.specs.Limits.{most_used};
ghost use Rattle.source.specs.Calls.{a_name, malformed, arguments, after};
ghost use Rattle.refusals.specs.Rows.{Flagged, AllFlagged};
ghost use Rattle.memory.specs.Layout.{names, trieˢ};
ghost use Rattle.memory_table.specs.Table.{state_of, Sound, root_at};
ghost use Rattle.memory.specs.Sound.{At};
ghost use Rattle.register_kind.specs.Shapes.{call_of, argument_as};
ghost use Rattle.register_plan.specs.Plans.{Carries};
ghost use Rattle.register_way.specs.Way.{which_by};
ghost use Rattle.register.specs.Checks.{NoKey, Passes, Checks};
ghost use Rattle.register.specs.Writes.{TextsLaid, with_root, Accepts};

use memory::Span;
use memory_table::Header;
use refusals::{Capacity, Demand, Flags, Refusal};
use register_change::Descent;
use register_kind::{CallKind, Entry, Form};
use register_leaf::Change;
pub use register_way::Way;

// The flags of the id, the included query or the file path.
fn other_flags(form: Form, other: &[u8]) -> Flags
    ensures { Flagged (argument_as form other.now) result }
{
    match form {
        Form::Name => refusals::name_flags(other),
        Form::Import => refusals::query_flags(other),
        Form::Module(_) => refusals::path_flags(other),
    }
}

// The flags of the key, where there is one.
fn key_flags(keyed: bool, key: &[u8]) -> Flags
    ensures { AllFlagged (cond keyed (a_name key.now ∷ []) []) result }
{
    if keyed {
        return refusals::name_flags(key);
    }
    refusals::no_flags()
}

// The flags of all arguments.
fn flags_of(kind: CallKind, host: &[u8], other: &[u8], key: &[u8]) -> Flags
    ensures { AllFlagged (arguments (call_of kind host.now other.now key.now)) result }
{
    let s = register_kind::shape_of(kind);
    let k = key_flags(s.keyed, key);
    let h = refusals::query_flags(host);
    let o = other_flags(s.form, other);
    refusals::either(k, refusals::either(h, o))
}

// The trie that a registration includes; 0 where it includes none.
fn included(words: &[u32], text: &[u8], root: u32, form: Form, other: &[u8]) -> u32
    requires at { At words.now text.now names trieˢ root }
    requires other_value { malformed (argument_as form other.now) ≡ false }
    ensures { Carries form words.now text.now root other.now result }
{
    match form {
        Form::Name | Form::Module(_) => 0,
        Form::Import => find_trie::trie_descend(words, text, root, other),
    }
}

// The root that a form changes.
fn root_of(h: Header, form: Form) -> u32
    ensures { result ≡ root_at (which_by form) h }
{
    match form {
        Form::Name | Form::Import => h.names,
        Form::Module(_) => h.modules,
    }
}

// Rows 2 to 8. Of a registration that passes them, the included trie and the way to its host are noted, for its writing.
// The way is lent: by value the compiler moves it with memmove, and an archive for C needs memcpy and memset alone.
pub fn check(
    words: &[u32],
    text: &[u8],
    h: Header,
    entry: Entry,
    host: &[u8],
    other: &[u8],
    key: &[u8],
    way: &mut Way,
) -> Result<(), Refusal>
    requires sound { Sound words.now text.now h }
    requires no_key { NoKey entry.kind key.now }
    ensures { Checks words.now text.now h entry.kind host.now other.now key.now way.new result }
{
    let kind = entry.kind;
    refusals::admit(flags_of(kind, host, other, key))?;
    let form = register_kind::shape_of(kind).form;
    way.included = included(words, text, h.names, form, other);
    let root = root_of(h, form);
    let p = register_plan::plan_of(words, text, root, kind, host, other, key, way);
    let demand = Demand {
        crowded: p.cost.crowded,
        deep: p.deep,
        records: p.cost.records,
        text: host.len() + other.len() + key.len(),
    };
    let capacity = Capacity {
        words: words.len(),
        records: h.records,
        text: text.len(),
        used: h.text,
    };
    refusals::afford(demand, capacity)?;
    Ok(())
}

// Writes the texts of a registration after the used ones.
fn put_texts(text: &mut [u8], used: u32, host: &[u8], other: &[u8], key: &[u8])
    requires key_in_bounds { used + length host.now + length other.now + length key.now ≤ length text.old }
    requires key_bound { used + length host.now + length other.now + length key.now ≤ most_used }
    ensures { TextsLaid text.old text.new used host.now other.now key.now }
{
    let start = used + host.len() as u32;
    let end = start + other.len() as u32;
    memory_access::put_text(text, used, host);
    memory_access::put_text(text, start, other);
    memory_access::put_text(text, end, key);
}

// The header after a registration: `link` is the new root.
fn changed(h: Header, form: Form, link: u32, records: u32, text: u32) -> Header
    ensures { result ≡ with_root (which_by form) h link records text }
{
    match form {
        Form::Name | Form::Import => Header {
            names: link,
            modules: h.modules,
            records,
            text,
        },
        Form::Module(_) => Header {
            names: h.names,
            modules: link,
            records,
            text,
        },
    }
}

// Writes a registration that passes every row, by the way that its check has noted.
pub fn write(
    words: &mut [u32],
    text: &mut [u8],
    h: Header,
    entry: Entry,
    host: &[u8],
    other: &[u8],
    key: &[u8],
    way: &Way,
) -> Header
    requires { Passes words.old text.old h entry.kind host.now other.now key.now way.now }
    ensures { Accepts words.old text.old words.new text.new h result
        (call_of entry.kind host.now other.now key.now)
        (after (state_of words.old text.old h) (call_of entry.kind host.now other.now key.now)) }
{
    let kind = entry.kind;
    let len = other.len() as u32;
    let size = key.len() as u32;
    let start = h.text + host.len() as u32;
    let end = start + len;
    put_texts(text, h.text, host, other, key);
    let change = Change {
        kind,
        text: Span { start, len },
        key: Span {
            start: end,
            len: size,
        },
        inc: way.included,
    };
    let form = register_kind::shape_of(kind).form;
    let root = root_of(h, form);
    let d = Descent {
        from: h.text,
        end: start,
        change,
    };
    let b = register_change::trie_mutate(words, text, h.records, root, h.text, d, &way.steps);
    changed(h, form, b.link, b.records, end + size)
}
