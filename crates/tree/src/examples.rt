// A small run, and what the definitions give of it.
ghost use Rattle.std.specs.Prelude.{◌≡◌, [], ◌∷◌, Ok, Err};
ghost use Rattle.fault.specs.Faults.{fault};
ghost use Rattle.fault.specs.declared.refusal.Refusal.TheVariants.{NodeMarked};
ghost use Rattle.tree.specs.declared.answer.Reply.TheVariants.{Counted};
ghost use Rattle.tree.specs.Calls.{Root, Stale, estimate_answer};
ghost use Rattle.tree.specs.Examples.{small, worked, edited, reworked};
ghost use Rattle.tree.specs.Runs.{Accepted, answer_to, buffer_after, view_after};

// A run over three pages that can be followed by hand.
pub fn small_run_holds()
    ensures accepted { Accepted small }
    ensures root { buffer_after small worked (Root (0 ∷ [])) ≡ 59 ∷ [] }
    ensures estimated { estimate_answer (view_after small worked) (2 ∷ []) ≡ Ok 3 }
    ensures stale { answer_to small edited Stale ≡ Ok (Counted 3) }
    ensures waits { answer_to small edited (Root (0 ∷ [])) ≡ Err (fault NodeMarked 0) }
    ensures again { buffer_after small reworked (Root (0 ∷ [])) ≡ 60 ∷ [] }
{}
