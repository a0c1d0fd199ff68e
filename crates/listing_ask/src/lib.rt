// What a completion asks: names, or modules and namespaces, with a filter; and what the filter of modules keeps.
#![tactic(auto)]

ghost use Rattle.std.specs.Prelude.{◌≡◌};
ghost use Rattle.source.specs.Text.{Str};
ghost use Rattle.source.specs.Table.{Module, Namespace};
ghost use Rattle.source.specs.Calls as C;
ghost use Rattle.memory.specs.Layout.{pick};
ghost use Rattle.listing_ask.specs.Ask.{filter_in};

use source::KindFilter;

// The filter of modules: Loaded is of either sort. That of names is source's KindFilter.
#[derive(Clone, Copy, PartialEq, Eq)]
pub enum Filter {
    All,
    Loaded,
    ModulesOnly,
    NamespacesOnly,
}

// What a completion asks: names, or modules and namespaces, with a filter.
#[derive(Clone, Copy, PartialEq, Eq)]
pub enum Ask {
    Names(KindFilter),
    Modules(Filter),
}

// What a completion is asked, beside its query: which lines, and how many tries it may enter.
#[derive(Clone, Copy, PartialEq, Eq)]
pub struct Request {
    pub ask: Ask,
    pub budget: u32,
}

// Whether the filter keeps a symbol: a module where `m`, else a namespace, loaded or not.
pub fn keeps(f: Filter, m: bool, loaded: bool) -> bool
    ensures { (name path : Str)
        → result ≡ C.keeps (filter_in f) (pick m (Module name path loaded) (Namespace name loaded)) }
{
    match f {
        Filter::All => true,
        Filter::Loaded => loaded,
        Filter::ModulesOnly => m,
        Filter::NamespacesOnly => !m,
    }
}
