// Known figures of trees, as the definitions give them.
#![tactic(auto)]

ghost use Rattle.std.specs.Prelude.{◌≡◌, ℕ, ◌*◌, ◌≤◌, [], ◌∷◌, Ok, Err};
ghost use Rattle.bench.specs.Buffers.{extent_over};
ghost use Rattle.fault.specs.Faults.{fault};
ghost use Rattle.fault.specs.declared.refusal.Refusal.TheVariants.{DepthLimit};
ghost use Rattle.label.specs.Examples.{example};
ghost use Rattle.nodehash.specs.Hashing.{depth_limit, node};
ghost use Rattle.tree.specs.Runs.{Making, check_answer};
ghost use Rattle.tree.specs.Shapes.{layer_count, node_count};
ghost use Rattle.figures.specs.Figures.{FivePages, TenPages, all_blocks, blocks_of_nodes, keyed, layer_sizes, nodes_above, shaped};

// How large trees are: over 5 pages in groups of 2, over one page, and over 4,096 pages in groups of 2 and of 16.
// A tree of 4 layers is accepted under a depth of 4, and refused with 44 under a depth of 3.
pub fn sizes_hold()
    ensures five_pages { layer_sizes (shaped 2 5) ≡ 5 ∷ 3 ∷ 2 ∷ 1 ∷ [] }
    ensures depth_four { (m : Making) → FivePages m → depth_limit m.hash ≡ 4 → check_answer m ≡ Ok tt }
    ensures depth_three { (m : Making) → FivePages m → depth_limit m.hash ≡ 3 → check_answer m ≡ Err (fault DepthLimit 0) }
    ensures one_page { (f : ℕ) → 2 ≤ f → layer_sizes (shaped f 1) ≡ 1 ∷ 1 ∷ [] }
    ensures one_nodes { (f : ℕ) → 2 ≤ f → node_count (shaped f 1) ≡ 2 }
    ensures most_layers { layer_count (shaped 2 4096) ≡ 13 }
    ensures most_nodes { node_count (shaped 2 4096) ≡ 8191 }
    ensures wide_layers { layer_count (shaped 16 4096) ≡ 4 }
    ensures wide_nodes { node_count (shaped 16 4096) ≡ 4369 }
{}

// 10,000 bytes under the example's label: 10 pages, the last of 784 bytes, in 14 nodes, of 83 blocks in all, and of 93 with a key of 16 bytes.
// Which nodes stand above page 9, above pages 0 and 1, and above pages 0 and 4; their blocks; and what is estimated of two pages.
pub fn example_holds()
    ensures extent { extent_over 1024 10000 ≡ record { size = 1024; count = 10; last = 784 } }
    ensures nodes { node_count (shaped 4 10) ≡ 14 }
    ensures blocks { (t : TenPages example) → all_blocks t ≡ 83 }
    ensures keyed_blocks { (t : TenPages keyed) → all_blocks t ≡ 93 }
    ensures nine { nodes_above (9 ∷ []) ≡ node 0 9 ∷ node 1 2 ∷ node 2 0 ∷ [] }
    ensures nine_blocks { (t : TenPages example) → blocks_of_nodes t (nodes_above (9 ∷ [])) ≡ 7 ∷ 1 ∷ 1 ∷ [] }
    ensures zero_one { nodes_above (0 ∷ 1 ∷ []) ≡ node 0 0 ∷ node 0 1 ∷ node 1 0 ∷ node 2 0 ∷ [] }
    ensures zero_one_blocks { (t : TenPages example) → blocks_of_nodes t (nodes_above (0 ∷ 1 ∷ [])) ≡ 8 ∷ 8 ∷ 1 ∷ 1 ∷ [] }
    ensures zero_four { nodes_above (0 ∷ 4 ∷ []) ≡ node 0 0 ∷ node 0 4 ∷ node 1 0 ∷ node 1 1 ∷ node 2 0 ∷ [] }
    ensures zero_four_blocks { (t : TenPages example) → blocks_of_nodes t (nodes_above (0 ∷ 4 ∷ [])) ≡ 8 ∷ 8 ∷ 1 ∷ 1 ∷ 1 ∷ [] }
    ensures two_pages { 2 * layer_count (shaped 4 10) ≡ 6 }
{}
