// The notes of a walk: branches still to come, and marks of those whose notes were dropped.
// Where the notes are full they are dropped, and the first of them is marked. Marks are near or far, a far one for as many near ones as there is room for.
#![tactic(auto)]

ghost use Rattle.std.specs.Prelude.{◌≡◌, ◌<◌, []};
ghost use Rattle.match_marks.specs.Marks.{put, put_out, Taken, none, marked, noted, MarkTaken, NoteTaken};

use std::marker::Model;

// At most `N` links, the last one on top.
#[derive(Drop)]
struct Stack<const N: usize> {
    links: [u32; N],
    count: usize,
}

impl<const N: usize> Model for Stack<N> {
    ghost use Rattle.std.specs.Prelude.{ℕ, List, take, ◌<◌, ◌≤◌};

    ghost Value = { List ℕ };

    ghost view = { λ s. take s.count s.links };

    ghost invariant = { λ s. (0 < N) × (s.count ≤ N) };
}

impl<const N: usize> Stack<N> {
    fn new() -> Self
        requires { 0 < N }
        ensures { result ≡ [] }
    {
        Stack {
            links: [0; N],
            count: 0,
        }
    }

    fn clear(&mut self)
        ensures { self.new ≡ [] }
    {
        self.count = 0;
    }

    // Puts a link on top. Where the stack is full the others are dropped, and the first of them is given.
    fn put(&mut self, link: u32) -> Option<u32>
        ensures links { self.new ≡ put N self.old link }
        ensures out { result ≡ put_out N self.old }
    {
        let mut out = None;
        if self.count == N {
            out = Some(self.links[0]);
            self.count = 0;
        }
        self.links[self.count] = link;
        self.count += 1;
        out
    }

    // Takes the top.
    fn take(&mut self) -> Option<u32>
        ensures { Taken self.old self.new result }
    {
        if self.count == 0 {
            return None;
        }
        self.count -= 1;
        Some(self.links[self.count])
    }
}

// Of a chain to the left as many branches as the product of the three sizes are given for each walk from the root.
#[derive(Drop)]
pub struct Notes {
    branches: Stack<32>,
    near: Stack<14>,
    far: Stack<15>,
    // Whether notes were ever dropped.
    dropped: bool,
}

impl Notes {
    pub fn new() -> Self
        ensures { result ≡ none }
    {
        Notes {
            branches: Stack::new(),
            near: Stack::new(),
            far: Stack::new(),
            dropped: false,
        }
    }

    pub fn clear(&mut self)
        ensures { self.new ≡ none }
    {
        self.branches.clear();
        self.near.clear();
        self.far.clear();
        self.dropped = false;
    }

    // Whether notes were ever dropped: then more may be to come than the notes say.
    pub fn dropped(&self) -> bool
        ensures { result ≡ self.now.dropped }
    {
        self.dropped
    }

    // Marks a branch. Where the near marks are full their first becomes a far one, and the others are dropped.
    fn mark(&mut self, branch: u32)
        ensures { self.new ≡ marked self.old branch }
    {
        if let Some(first) = self.near.put(branch) {
            self.far.put(first);
        }
    }

    // Notes a branch after the others. Where the notes are full the others are dropped, and the first of them is marked.
    pub fn note(&mut self, branch: u32)
        ensures { self.new ≡ noted self.old branch }
    {
        if let Some(first) = self.branches.put(branch) {
            self.mark(first);
            self.dropped = true;
        }
    }

    // Takes the last note, the branch that comes first.
    pub fn take_note(&mut self) -> Option<u32>
        ensures { NoteTaken self.old self.new result }
    {
        self.branches.take()
    }

    // Takes the last mark, a near one where there is one. (The closure of an `or_else` would need clauses of its own.)
    pub fn take_mark(&mut self) -> Option<u32>
        ensures { MarkTaken self.old self.new result }
    {
        match self.near.take() {
            Some(mark) => Some(mark),
            None => self.far.take(),
        }
    }
}
