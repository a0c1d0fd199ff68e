// A run of a completion: the path to the trie at hand, what it has taken, and what it may take.
// The links that a path holds: no trie is deeper than memory::DEEPEST.
pub const LINKS: usize = 16;

// The path to a trie: the branches of namespaces from the root on, how many they are, the bytes of their keys with a dot after each,
// and the collection of the outermost label of the first, 0 for none. Any numbers: a function that reads one requires of it what it needs.
#[derive(Clone, Copy)]
pub struct Path {
    pub links: [usize; LINKS],
    pub n: usize,
    pub len: usize,
    pub label: usize,
}

// What a completion has taken: tries entered, lines, bytes.
#[derive(Clone, Copy)]
pub struct Tally {
    pub entered: usize,
    pub lines: usize,
    pub bytes: usize,
}

// What it may take. Any numbers, since `start` is asked of any: a listing requires what 32 bits hold (`Small`).
#[derive(Clone, Copy)]
pub struct Limits {
    pub budget: usize,
    pub lines: usize,
    pub bytes: usize,
}

// A run. The path and the tally change on the way, the limits stay.
#[derive(Clone, Copy)]
pub struct Run {
    pub path: Path,
    pub tally: Tally,
    pub limits: Limits,
}
