// The kinds of registration, and what each is made of.
#![tactic(auto)]

ghost use Rattle.std.specs.Prelude.{◌≡◌, ◌≤◌};
ghost use Rattle.register_kind.specs.Shapes.{shape_of, key_size};

use source::ItemKind;

// The kind of a registration.
#[derive(Clone, Copy)]
pub enum CallKind {
    // The source's insert: a name with its item, its kind and number.
    Name(ItemKind, u32),
    // register_include, register_open_module: the included bindings, under their label.
    Include,
    // register_open_namespace: the included namespaces, under their label.
    Open,
    // register_alias: at the key a trie of the included bindings.
    Alias,
    // register_module_path: loaded or not.
    Module(bool),
}

// What is registered apart from its texts: its kind.
#[derive(Clone, Copy)]
pub struct Entry {
    pub kind: CallKind,
}

// What a registration is of: a name, whose second text is an id; an import, whose second text is the included query;
// a module path, loaded or not, whose second text is a file path. A module path changes the table of modules, the others that of names.
#[derive(Clone, Copy)]
pub enum Form {
    Name,
    Import,
    Module(bool),
}

// What a kind is made of: its form, and whether it has a key.
#[derive(Clone, Copy)]
pub struct Shape {
    pub form: Form,
    pub keyed: bool,
}

// The table of kinds: one row for each.
pub fn shape_of(kind: CallKind) -> Shape
    ensures { result ≡ shape_of kind }
{
    match kind {
        CallKind::Name(_, _) => Shape {
            form: Form::Name,
            keyed: false,
        },
        CallKind::Include => Shape {
            form: Form::Import,
            keyed: false,
        },
        CallKind::Open => Shape {
            form: Form::Import,
            keyed: false,
        },
        CallKind::Alias => Shape {
            form: Form::Import,
            keyed: true,
        },
        CallKind::Module(loaded) => Shape {
            form: Form::Module(loaded),
            keyed: false,
        },
    }
}

// How many bytes of the key count: all where the kind has one, else none.
pub fn key_size(kind: CallKind, key: usize) -> usize
    ensures { (result ≡ key_size kind key) × (result ≤ key) }
{
    let s = shape_of(kind);
    if s.keyed {
        return key;
    }
    0
}
