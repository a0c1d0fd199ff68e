// Planning: the records that a registration would build, and whether a list would be too heavy or a root too deep.
// It goes down the host's path and reads what stands there; what the change will need of it is noted in the way.
// Words and text stay two parameters: crate memory says why.
#![tactic(auto)]

ghost use Rattle.std.specs.Prelude.{◌≡◌, [], ◌+◌, ◌≤◌, ◌<◌, length};
ghost use Rattle.source.specs.Limits.{most_segments};
ghost use Rattle.source.specs.Text.{segments};
ghost use Rattle.register_kind.specs.Shapes.{shape_of};
ghost use Rattle.register_kind.specs.declared.CallKind.TheVariants.{Include, Open, Module};
ghost use Rattle.memory.specs.Layout.{names, modules, trieˢ};
ghost use Rattle.memory.specs.Sound.{At};
ghost use Rattle.find_trie.specs.Tries.{AnyTrie};
ghost use Rattle.register_plan.specs.Plans.{both, insertion, import, Light, Stepped, Inserted, Path, Carries, KindPlanned, NamePlanned, IncludePlanned};
ghost use Rattle.register_plan.specs.Plans.{OpenPlanned, AliasPlanned};
ghost use Rattle.register_plan.specs.Plans.{ModulePlanned};
ghost use Rattle.register_way.specs.Way.{which_by, Leads, NameNoted, AliasNoted, PathNoted, WayNoted};

use find_list::NamesPlace;
use register_kind::CallKind;
use register_way::{Step, Way};

// What a change makes: the records that it builds, whether some new list weighs over 96.
#[derive(Clone, Copy)]
pub struct Cost {
    pub records: u32,
    pub crowded: bool,
}

// That of no change.
const NOTHING: Cost = Cost {
    records: 0,
    crowded: false,
};

impl Cost {
    // That of two changes.
    fn and(self, other: Cost) -> Cost
        requires { self.records + other.records ≤ u32.MAX }
        ensures { result ≡ both self other }
    {
        Cost {
            records: self.records + other.records,
            crowded: self.crowded | other.crowded,
        }
    }

    // That of an insertion into a list, and of the trie over it.
    fn insertion(place: NamesPlace) -> Cost
        requires { place.count + 2 ≤ u32.MAX }
        ensures { result ≡ insertion place.count place.weight }
    {
        Cost {
            records: place.count + 2,
            crowded: memory::HEAVIEST < place.weight,
        }
    }

    // That of an import of the list `inner` in front of `list`, and of the trie over it.
    fn import(words: &[u32], inner: u32, list: u32) -> Cost
        requires { Light words.now inner × Light words.now list }
        ensures { result ≡ import words.now inner list }
    {
        let weight = memory_access::weight_of(words, inner)
            + memory_access::weight_of(words, list)
            + 1;
        Cost {
            records: 2,
            crowded: memory::HEAVIEST < weight,
        }
    }
}

// One step down the path of a host: the trie that it goes to, and what it makes.
#[derive(Clone, Copy)]
struct StepDown {
    link: u32,
    cost: Cost,
}

// The step after `steps` others, which it notes.
fn plan_step(words: &[u32], text: &[u8], trie: u32, s: &[u8], way: &mut Way, steps: u32) -> StepDown
    requires { AnyTrie words.now text.now trie × (steps < most_segments) }
    ensures { Stepped words.now text.now trie s.now way.old way.new steps result.link result.cost }
{
    let t = memory_access::trie_of(words, trie);
    let p = find_list::names_place(words, text, t.namespaces, s);
    let link = memory_access::trie_held(words, p.holder.unwrap_or(0));
    way.note_step(
        steps,
        Step {
            below: link,
            count: p.count,
        },
    );
    StepDown {
        link: link,
        cost: Cost::insertion(p),
    }
}

// The host of a query: its trie, the number of segments, and what the steps down to it make.
#[derive(Clone, Copy)]
struct Walk {
    link: u32,
    segments: u32,
    cost: Cost,
}

fn plan_path(words: &[u32], text: &[u8], root: u32, host: &[u8], way: &mut Way) -> Walk
    requires at { At words.now text.now names trieˢ root }
    requires host_value { length (segments host.now) ≤ most_segments }
    ensures path { Path words.now text.now root (segments host.now) result.link result.segments result.cost }
    ensures leads { Leads words.now text.now names root (segments host.now) way.old way.new result.segments
        result.link [] }
{
    let mut link = root;
    let mut segments = 0;
    let mut cost = NOTHING;
    for s in text_query::segments_of(host) {
        let step = plan_step(words, text, link, s, way, segments);
        link = step.link;
        segments += 1;
        cost = cost.and(step.cost);
    }
    Walk {
        link: link,
        segments: segments,
        cost: cost,
    }
}

// What a call would make: its cost, and whether the new root is over 16 deep.
#[derive(Clone, Copy)]
pub struct Plan {
    pub cost: Cost,
    pub deep: bool,
}

// The plan of a name.
fn plan_name(words: &[u32], text: &[u8], root: u32, host: &[u8], id: &[u8], way: &mut Way) -> Plan
    requires at { At words.now text.now names trieˢ root }
    requires host_value { length (segments host.now) ≤ most_segments }
    ensures name_planned { NamePlanned words.now text.now root host.now id.now result }
    ensures name_noted { NameNoted words.now text.now root host.now id.now way.old way.new }
{
    let p = plan_path(words, text, root, host, way);
    let t = memory_access::trie_of(words, p.link);
    let b = find_list::names_place(words, text, t.bindings, id);
    way.note_host(p.segments, b.count);
    Plan {
        cost: p.cost.and(Cost::insertion(b)),
        deep: memory::DEEPEST < p.segments,
    }
}

// The plan of an include. The included trie is `inc`.
fn plan_include(words: &[u32], text: &[u8], root: u32, host: &[u8], inc: u32, way: &mut Way) -> Plan
    requires at { At words.now text.now names trieˢ root × At words.now text.now names trieˢ inc }
    requires host_value { length (segments host.now) ≤ most_segments }
    ensures include_planned { IncludePlanned words.now text.now root inc host.now result }
    ensures path_noted { PathNoted Include words.now text.now names root host.now way.old way.new }
{
    let p = plan_path(words, text, root, host, way);
    let t = memory_access::trie_of(words, p.link);
    let i = memory_access::trie_of(words, inc);
    Plan {
        cost: p.cost.and(Cost::import(words, i.bindings, t.bindings)),
        deep: memory::DEEPEST < p.segments,
    }
}

// The plan of an open of a namespace. The included trie is `inc`.
// Not one function with plan_include: beside the lists the depth differs, and so do the source's functions (IncludePlanned, OpenPlanned).
fn plan_open(words: &[u32], text: &[u8], root: u32, host: &[u8], inc: u32, way: &mut Way) -> Plan
    requires at { At words.now text.now names trieˢ root × At words.now text.now names trieˢ inc }
    requires host_value { length (segments host.now) ≤ most_segments }
    ensures open_planned { OpenPlanned words.now text.now root inc host.now result }
    ensures path_noted { PathNoted Open words.now text.now names root host.now way.old way.new }
{
    let p = plan_path(words, text, root, host, way);
    let t = memory_access::trie_of(words, p.link);
    let i = memory_access::trie_of(words, inc);
    Plan {
        cost: p.cost.and(Cost::import(words, i.namespaces, t.namespaces)),
        deep: memory::DEEPEST < p.segments + i.depth,
    }
}

// The plan of an alias. The included trie is `inc`.
fn plan_alias(
    words: &[u32],
    text: &[u8],
    root: u32,
    key: &[u8],
    host: &[u8],
    inc: u32,
    way: &mut Way,
) -> Plan
    requires at { At words.now text.now names trieˢ root × At words.now text.now names trieˢ inc }
    requires host_value { length (segments host.now) ≤ most_segments }
    ensures alias_planned { AliasPlanned words.now text.now root inc key.now host.now result }
    ensures alias_noted { AliasNoted words.now text.now root key.now host.now way.old way.new }
{
    let p = plan_path(words, text, root, host, way);
    let t = memory_access::trie_of(words, p.link);
    let i = memory_access::trie_of(words, inc);
    let a = find_list::names_place(words, text, t.namespaces, key);
    way.note_host(p.segments, a.count);
    let made = Cost::insertion(a).and(Cost::import(words, i.bindings, 0));
    Plan {
        cost: p.cost.and(made),
        deep: memory::DEEPEST < p.segments + 1,
    }
}

// What ins makes of the bindings of a trie.
fn plan_ins(words: &[u32], text: &[u8], trie: u32, s: &[u8], last: bool, loaded: bool) -> Cost
    requires { At words.now text.now modules trieˢ trie }
    ensures { Inserted words.now text.now trie s.now last loaded result }
{
    let t = memory_access::trie_of(words, trie);
    let p = find_list::names_place(words, text, t.bindings, s);
    if last | find_trie::ns_inserts(words, p.holder, loaded) {
        return Cost {
            records: p.count + 1,
            crowded: memory::HEAVIEST < p.weight,
        };
    }
    NOTHING
}

// The plan of a module path.
fn plan_module(
    words: &[u32],
    text: &[u8],
    root: u32,
    query: &[u8],
    loaded: bool,
    way: &mut Way,
) -> Plan
    requires at { At words.now text.now modules trieˢ root }
    requires query_value { length (segments query.now) ≤ most_segments }
    ensures module_planned { ModulePlanned words.now text.now root loaded query.now result }
    ensures path_noted { PathNoted (Module loaded) words.now text.now modules root query.now way.old way.new }
{
    let mut link = root;
    let mut segments: u32 = 0;
    let mut cost = NOTHING;
    let mut left = text_query::segments_of(query);
    while let Some(s) = left.next() {
        let last = left.rest.is_empty();
        let step = plan_step(words, text, link, s, way, segments);
        let put = plan_ins(words, text, link, s, last, loaded);
        link = step.link;
        segments += 1;
        cost = cost.and(step.cost.and(put));
    }
    Plan {
        cost: cost,
        deep: memory::DEEPEST < segments,
    }
}

// The plan of a registration on the root of its table, where the trie that it includes is noted in the way; its steps are noted after it.
pub fn plan_of(
    words: &[u32],
    text: &[u8],
    root: u32,
    kind: CallKind,
    host: &[u8],
    other: &[u8],
    key: &[u8],
    way: &mut Way,
) -> Plan
    requires at { At words.now text.now (which_by (shape_of kind).form) trieˢ root }
    requires host_value { length (segments host.now) ≤ most_segments }
    requires carries { Carries (shape_of kind).form words.now text.now root other.now way.old.included }
    ensures kind_planned { KindPlanned kind words.now text.now root host.now other.now key.now result }
    ensures way_noted { WayNoted kind words.now text.now root host.now other.now key.now way.old way.new }
{
    let inc = way.included;
    match kind {
        CallKind::Name(_, _) => plan_name(words, text, root, host, other, way),
        CallKind::Include => plan_include(words, text, root, host, inc, way),
        CallKind::Open => plan_open(words, text, root, host, inc, way),
        CallKind::Alias => plan_alias(words, text, root, key, host, inc, way),
        CallKind::Module(loaded) => plan_module(words, text, root, host, loaded, way),
    }
}
