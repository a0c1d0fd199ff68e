// Look-up and completion in a sound memory, each on the root that is asked.
// Words and text stay two parameters: crate memory says why.
#![tactic(auto)]

ghost use Rattle.std.specs.Prelude.{◌≡◌, true};
ghost use Rattle.source.specs.Calls.{look_up};
ghost use Rattle.memory.specs.Layout.{names, trieˢ, what};
ghost use Rattle.memory_table.specs.Table.{Sound, used_words, used_text};
ghost use Rattle.find_trie.specs.Tries.{AnyTrie};
ghost use Rattle.table_roots.specs.Answers.{LookedUp, name_found, FindsModuleOn};
ghost use Rattle.listing.specs.Completes.{CompletesOn};
ghost use Rattle.table_roots.specs.Completions.{root_for};

use listing::Listed;
use listing_ask::{Ask, Request};
use memory::ModSymbol;
use memory_table::Header;
use refusals::Refusal;
use source::LidSymbol;

// A look-up on a root: the branch of bindings that it ends at, if there is one.
fn look_up(words: &[u32], text: &[u8], root: u32, query: &[u8]) -> Result<Option<u32>, Refusal>
    requires { AnyTrie words.now text.now root }
    ensures { LookedUp words.now text.now root query.now result }
{
    refusals::admit(refusals::look_up_flags(query))?;
    Ok(find_trie::trie_find_exact(words, text, root, query))
}

// Look-up of a name: its item, if there is one.
pub fn find(
    words: &[u32],
    text: &[u8],
    header: Header,
    query: &[u8],
) -> Result<Option<LidSymbol>, Refusal>
    requires { Sound words.now text.now header }
    ensures { name_found result
        ≡ look_up true (what names words.now text.now header.names trieˢ) query.now }
{
    let found = look_up(words, text, header.names, query)?;
    match found {
        Some(link) => Ok(Some(memory_access::lid_of(words, link))),
        None => Ok(None),
    }
}

// Look-up of a module or namespace, if there is one. Its texts are in the used text.
pub fn find_module(
    words: &[u32],
    text: &[u8],
    header: Header,
    query: &[u8],
) -> Result<Option<ModSymbol>, Refusal>
    requires { Sound words.now text.now header }
    ensures { FindsModuleOn words.now text.now header query.now result }
{
    let found = look_up(words, text, header.modules, query)?;
    match found {
        Some(link) => Ok(Some(memory_access::branch_of(words, link).symbol)),
        None => Ok(None),
    }
}

// The root that is asked.
fn root_for(header: Header, ask: Ask) -> u32
    ensures { result ≡ root_for header ask }
{
    match ask {
        Ask::Names(f) => header.names,
        Ask::Modules(f) => header.modules,
    }
}

// A completion, from the used records and the used text alone. Lines go into `flat`, 48 bytes to a line, their texts into `out`.
pub fn complete(
    words: &[u32],
    text: &[u8],
    header: Header,
    request: Request,
    query: &[u8],
    flat: &mut [u8],
    out: &mut [u8],
) -> Result<Listed, Refusal>
    requires { Sound words.now text.now header }
    ensures { CompletesOn (used_words words.now header) (used_text text.now header) request
        (root_for header request.ask) query.now flat.old flat.new out.old out.new result }
{
    refusals::admit(refusals::completion_flags(query))?;
    let root = root_for(header, request.ask);
    let end = header.records as usize * memory::ROW;
    let used = header.text as usize;
    let records = &words[..end];
    let texts = &text[..used];
    listing::complete(records, texts, request, root, query, flat, out)
}
