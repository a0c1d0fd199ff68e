// Registrations under the source's names, each by the two doors that docs/PROMISES.md names. What they ask differs, so that they are not one generic call.
ghost use Rattle.std.specs.Prelude.{true, false};
ghost use Rattle.source.specs.Calls.{name, include, opens, alias, module_path};
ghost use Rattle.table.specs.Header.{IsSound};
ghost use Rattle.table.specs.Registrations.{Answers, Total};

use crate::{Answer, Table};
use register_kind::{CallKind, Entry};
use source::LidSymbol;

impl Table {
    // The source's insert: a name with its item.
    pub fn insert(
        self,
        words: &mut [u32],
        text: &mut [u8],
        host: &[u8],
        id: &[u8],
        item: LidSymbol,
    ) -> Answer<()>
        ensures { Total words.old text.old words.new text.new self (name host.now id.now item) result }
    {
        let kind = item.kind;
        let entry = Entry {
            kind: CallKind::Name(kind, item.number),
        };
        self.register(words, text, entry, host, id, &host[..0])
    }

    // The same, in a sound memory.
    pub fn insert_sound(
        self,
        words: &mut [u32],
        text: &mut [u8],
        host: &[u8],
        id: &[u8],
        item: LidSymbol,
    ) -> Answer<()>
        requires { IsSound words.old text.old self }
        ensures { Answers true words.old text.old words.new text.new self
            (name host.now id.now item) result }
    {
        let kind = item.kind;
        let entry = Entry {
            kind: CallKind::Name(kind, item.number),
        };
        self.register_sound(words, text, entry, host, id, &host[..0])
    }

    // The source's register_include.
    pub fn register_include(
        self,
        words: &mut [u32],
        text: &mut [u8],
        host: &[u8],
        query: &[u8],
    ) -> Answer<()>
        ensures { Total words.old text.old words.new text.new self (include host.now query.now) result }
    {
        let entry = Entry {
            kind: CallKind::Include,
        };
        self.register(words, text, entry, host, query, &host[..0])
    }

    // The same, in a sound memory.
    pub fn register_include_sound(
        self,
        words: &mut [u32],
        text: &mut [u8],
        host: &[u8],
        query: &[u8],
    ) -> Answer<()>
        requires { IsSound words.old text.old self }
        ensures { Answers true words.old text.old words.new text.new self
            (include host.now query.now) result }
    {
        let entry = Entry {
            kind: CallKind::Include,
        };
        self.register_sound(words, text, entry, host, query, &host[..0])
    }

    // The source's register_open of a namespace.
    pub fn register_open_namespace(
        self,
        words: &mut [u32],
        text: &mut [u8],
        host: &[u8],
        query: &[u8],
    ) -> Answer<()>
        ensures { Total words.old text.old words.new text.new self (opens false host.now query.now)
            result }
    {
        let entry = Entry {
            kind: CallKind::Open,
        };
        self.register(words, text, entry, host, query, &host[..0])
    }

    // The same, in a sound memory.
    pub fn register_open_namespace_sound(
        self,
        words: &mut [u32],
        text: &mut [u8],
        host: &[u8],
        query: &[u8],
    ) -> Answer<()>
        requires { IsSound words.old text.old self }
        ensures { Answers true words.old text.old words.new text.new self
            (opens false host.now query.now) result }
    {
        let entry = Entry {
            kind: CallKind::Open,
        };
        self.register_sound(words, text, entry, host, query, &host[..0])
    }

    // The source's register_open of a module: what register_include does.
    pub fn register_open_module(
        self,
        words: &mut [u32],
        text: &mut [u8],
        host: &[u8],
        query: &[u8],
    ) -> Answer<()>
        ensures { Total words.old text.old words.new text.new self (opens true host.now query.now)
            result }
    {
        let entry = Entry {
            kind: CallKind::Include,
        };
        self.register(words, text, entry, host, query, &host[..0])
    }

    // The same, in a sound memory.
    pub fn register_open_module_sound(
        self,
        words: &mut [u32],
        text: &mut [u8],
        host: &[u8],
        query: &[u8],
    ) -> Answer<()>
        requires { IsSound words.old text.old self }
        ensures { Answers true words.old text.old words.new text.new self
            (opens true host.now query.now) result }
    {
        let entry = Entry {
            kind: CallKind::Include,
        };
        self.register_sound(words, text, entry, host, query, &host[..0])
    }

    // The source's register_alias.
    pub fn register_alias(
        self,
        words: &mut [u32],
        text: &mut [u8],
        key: &[u8],
        host: &[u8],
        query: &[u8],
    ) -> Answer<()>
        ensures { Total words.old text.old words.new text.new self
            (alias key.now host.now query.now) result }
    {
        let entry = Entry {
            kind: CallKind::Alias,
        };
        self.register(words, text, entry, host, query, key)
    }

    // The same, in a sound memory.
    pub fn register_alias_sound(
        self,
        words: &mut [u32],
        text: &mut [u8],
        key: &[u8],
        host: &[u8],
        query: &[u8],
    ) -> Answer<()>
        requires { IsSound words.old text.old self }
        ensures { Answers true words.old text.old words.new text.new self
            (alias key.now host.now query.now) result }
    {
        let entry = Entry {
            kind: CallKind::Alias,
        };
        self.register_sound(words, text, entry, host, query, key)
    }

    // The source's register_module_path, but a loaded Module stays loaded.
    pub fn register_module_path(
        self,
        words: &mut [u32],
        text: &mut [u8],
        loaded: bool,
        query: &[u8],
        path: &[u8],
    ) -> Answer<()>
        ensures { Total words.old text.old words.new text.new self
            (module_path loaded query.now path.now) result }
    {
        let entry = Entry {
            kind: CallKind::Module(loaded),
        };
        self.register(words, text, entry, query, path, &query[..0])
    }

    // The same, in a sound memory.
    pub fn register_module_path_sound(
        self,
        words: &mut [u32],
        text: &mut [u8],
        loaded: bool,
        query: &[u8],
        path: &[u8],
    ) -> Answer<()>
        requires { IsSound words.old text.old self }
        ensures { Answers true words.old text.old words.new text.new self
            (module_path loaded query.now path.now) result }
    {
        let entry = Entry {
            kind: CallKind::Module(loaded),
        };
        self.register_sound(words, text, entry, query, path, &query[..0])
    }
}
