// A registration's way: what planning finds down the host's path, noted for the change.
#![tactic(auto)]

ghost use Rattle.std.specs.Prelude.{◌≡◌, ◌+◌, ◌≤◌, ◌<◌, length};
ghost use Rattle.source.specs.Limits.{most_segments};

// How many steps a way has: one for each of 17 segments at most, then one more for the host itself.
pub const STEPS_MOST: usize = 18;

// A step: the trie below the segment, and how many branches its insertion builds. At the host the first is of no account,
// and the second is of what is inserted there: the id of a name into its bindings, the key of an alias into its namespaces.
#[derive(Clone, Copy)]
pub struct Step {
    pub below: u32,
    pub count: u32,
}

// The included trie, 0 for none; the steps down to the host.
#[derive(Clone, Copy)]
pub struct Way {
    pub included: u32,
    pub steps: [Step; STEPS_MOST],
    pub ghost whole: { length steps ≡ most_segments + 1 },
}

impl Way {
    ghost use Rattle.register_way.specs.Way.{NotesStep, NotesHost};

    // A way of which the included trie alone is noted.
    pub fn new(included: u32) -> Way
        ensures { result.included ≡ included }
    {
        Way {
            included: included,
            steps: [Step { below: 0, count: 0 }; STEPS_MOST],
        }
    }

    // Notes the step after `steps` others.
    pub fn note_step(&mut self, steps: u32, step: Step)
        requires { steps < most_segments }
        ensures { NotesStep self.old self.new steps step }
    {
        self.steps[steps as usize] = step;
    }

    // Notes at the host, after its steps, how many branches the insertion there builds.
    pub fn note_host(&mut self, steps: u32, count: u32)
        requires { steps ≤ most_segments }
        ensures { NotesHost self.old self.new steps count }
    {
        self.steps[steps as usize].count = count;
    }
}
