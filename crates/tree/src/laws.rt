// What holds of every tree and of every run.
ghost use Rattle.std.specs.Prelude.{◌≡◌, ◌≤◌, List};
ghost use Rattle.tree.specs.Calls.{Call};
ghost use Rattle.tree.specs.Laws.{Ends, Holds, marks_left, Suffices};
ghost use Rattle.tree.specs.Runs.{Making, Accepted};
ghost use Rattle.tree.specs.declared.shape.Shape.{Shape};

// Over 1 to 4,096 pages, with groups of 2 and more: the root's layer is the first above the pages that has one node, and there are at most 13 layers.
pub fn layers_end_at_the_root()
    ensures { (s : Shape) → 2 ≤ s.fanout → 1 ≤ s.pages → s.pages ≤ 4096 → Ends s }
{}

// The law of every run: of every image and every node hash, and of any calls in any order.
pub fn runs_hold()
    ensures { (m : Making) → Accepted m → (calls : List Call) → Holds m calls }
{}

// What an estimate answers, once no node is marked, is enough for puts on the pages that it was given, in every run.
pub fn estimates_suffice()
    ensures { (m : Making) → Accepted m → (calls more : List Call) → marks_left m calls ≡ 0 → Suffices m calls more }
{}
