// The calls on a table: a header by value, with the lent words and text. Each hands the table back with its answer.
// Each call has a form for callers that have proved the memory sound, and a total one that tests it first. The memory is lent anew at each call,
// so that no type can carry that it is sound; what the total ones share is the test and one refusal, which a closure would not make shorter.
// Words and text stay two parameters: crate memory says why.
#![tactic(auto)]

mod registers;

ghost use Rattle.std.specs.Prelude.{true};
ghost use Rattle.memory.specs.Sound.{Says};
ghost use Rattle.register_kind.specs.Shapes.{call_of};
ghost use Rattle.table.specs.Header.{IsSound, Fresh};
ghost use Rattle.table.specs.Answers.{Finds, FindsModule};
ghost use Rattle.table.specs.Completions.{Completes};
ghost use Rattle.table.specs.Registrations.{Answers, Total};

use listing::Listed;
use listing_ask::Request;
use memory::ModSymbol;
use memory_table::Header;
use refusals::Refusal;
use register::Way;
use register_kind::Entry;
use source::LidSymbol;

// A table: its header by value.
#[derive(Clone, Copy)]
pub struct Table {
    pub header: Header,
}

// The table that a call hands back, with its answer: a value, or a refusal.
#[derive(Clone, Copy)]
pub struct Answer<T> {
    pub table: Table,
    pub answer: Result<T, Refusal>,
}

impl Table {
    // The fresh table.
    pub fn fresh() -> Table
        ensures { Fresh result }
    {
        Table {
            header: Header {
                names: 0,
                modules: 0,
                records: 0,
                text: 0,
            },
        }
    }

    // Is the lent memory a sound table?
    pub fn is_sound(self, words: &[u32], text: &[u8]) -> bool
        ensures { Says result (IsSound words.now text.now self) }
    {
        sound::sound(words, text, self.header)
    }

    // The same, with little stack. Linear for small tables (`SMALL` of crate sound).
    pub fn is_sound_small(self, words: &[u32], text: &[u8]) -> bool
        ensures { Says result (IsSound words.now text.now self) }
    {
        sound::sound_small(words, text, self.header)
    }

    // Completion of names, or of modules and namespaces, in a sound memory. Lines go into `flat`, 48 bytes to a line, their texts into `out`.
    pub fn complete_sound(
        self,
        words: &[u32],
        text: &[u8],
        request: Request,
        query: &[u8],
        flat: &mut [u8],
        out: &mut [u8],
    ) -> Answer<Listed>
        requires { IsSound words.now text.now self }
        ensures { Completes words.now text.now self request query.now
            flat.old flat.new out.old out.new result }
    {
        let answer = table_roots::complete(words, text, self.header, request, query, flat, out);
        Answer {
            table: self,
            answer: answer,
        }
    }

    // The same, in any memory.
    pub fn complete(
        self,
        words: &[u32],
        text: &[u8],
        request: Request,
        query: &[u8],
        flat: &mut [u8],
        out: &mut [u8],
    ) -> Answer<Listed>
        ensures { Completes words.now text.now self request query.now
            flat.old flat.new out.old out.new result }
    {
        if self.is_sound(words, text) {
            return self.complete_sound(words, text, request, query, flat, out);
        }
        Answer {
            table: self,
            answer: Err(Refusal::Unsound),
        }
    }

    // Look-up of a name, in a sound memory.
    pub fn find_sound(self, words: &[u32], text: &[u8], query: &[u8]) -> Answer<Option<LidSymbol>>
        requires { IsSound words.now text.now self }
        ensures { Finds words.now text.now self query.now result }
    {
        let answer = table_roots::find(words, text, self.header, query);
        Answer {
            table: self,
            answer: answer,
        }
    }

    // The same, in any memory.
    pub fn find(self, words: &[u32], text: &[u8], query: &[u8]) -> Answer<Option<LidSymbol>>
        ensures { Finds words.now text.now self query.now result }
    {
        if self.is_sound(words, text) {
            return self.find_sound(words, text, query);
        }
        Answer {
            table: self,
            answer: Err(Refusal::Unsound), // of a look-up of a name
        }
    }

    // Look-up of a module or namespace, in a sound memory.
    pub fn find_module_sound(
        self,
        words: &[u32],
        text: &[u8],
        query: &[u8],
    ) -> Answer<Option<ModSymbol>>
        requires { IsSound words.now text.now self }
        ensures { FindsModule words.now text.now self query.now result }
    {
        let answer = table_roots::find_module(words, text, self.header, query);
        Answer {
            table: self,
            answer: answer,
        }
    }

    // The same, in any memory.
    pub fn find_module(self, words: &[u32], text: &[u8], query: &[u8]) -> Answer<Option<ModSymbol>>
        ensures { FindsModule words.now text.now self query.now result }
    {
        if self.is_sound(words, text) {
            return self.find_module_sound(words, text, query);
        }
        Answer {
            table: self,
            answer: Err(Refusal::Unsound),
        }
    }

    // A registration by its kind, in a sound memory: host or module query; id, included query or file path; key.
    // A key that the kind does not use is ignored.
    pub fn register_sound(
        self,
        words: &mut [u32],
        text: &mut [u8],
        entry: Entry,
        host: &[u8],
        other: &[u8],
        key: &[u8],
    ) -> Answer<()>
        requires { IsSound words.old text.old self }
        ensures { Answers true words.old text.old words.new text.new self
            (call_of entry.kind host.now other.now key.now) result }
    {
        let kind = entry.kind;
        let n = register_kind::key_size(kind, key.len());
        let key = &key[..n];
        let mut way = Way::new(0);
        match register::check(words, text, self.header, entry, host, other, key, &mut way) {
            Err(x) => Answer {
                table: self,
                answer: Err(x),
            },
            Ok(()) => {
                let h = register::write(words, text, self.header, entry, host, other, key, &way);
                Answer {
                    table: Table { header: h },
                    answer: Ok(()),
                }
            }
        }
    }

    // The same, in any memory.
    pub fn register(
        self,
        words: &mut [u32],
        text: &mut [u8],
        entry: Entry,
        host: &[u8],
        other: &[u8],
        key: &[u8],
    ) -> Answer<()>
        ensures { Total words.old text.old words.new text.new self
            (call_of entry.kind host.now other.now key.now) result }
    {
        if self.is_sound(words, text) {
            return self.register_sound(words, text, entry, host, other, key);
        }
        Answer {
            table: self,
            answer: Err(Refusal::Unsound),
        }
    }
}
