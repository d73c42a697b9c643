// Two parameter blocks, worked out.
ghost use Rattle.std.specs.Prelude.{◌≡◌, take};
ghost use Rattle.label.specs.Examples.{example};
ghost use Rattle.blake2_node.specs.Examples.{example_s, front_b, front_s};
ghost use Rattle.blake2_node.specs.Parameters.{parameter_block};
ghost use Rattle.nodehash.specs.Hashing.{node};

// The definition gives these bytes for node 1:2 under a label of BLAKE2b, and for node 1:1 under one of BLAKE2s.
pub fn parameter_blocks_hold()
    ensures b { take 18 (parameter_block example (node 1 2)) ≡ front_b }
    ensures s { take 16 (parameter_block example_s (node 1 1)) ≡ front_s }
{}
