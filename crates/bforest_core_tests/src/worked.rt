//! Sizes of trees that were worked out by hand, against the definitions in the contracts. The bodies are empty: the clauses are evaluated.
ghost use Rattle.bforest_core.specs.Sizes.{need, shrink};
ghost use Rattle.bforest_core_tests.specs.Worked.{grown};
ghost use Rattle.std.specs.List.{range_with_len};
ghost use Rattle.std.specs.Prelude.{[], replicate, ◌∷◌, ◌≡◌};

fn thirty_six_keys_each_put_in_first()
    ensures { grown 7 (replicate 36 0) []
        ≡ (4 ∷ 4 ∷ 4 ∷ 4 ∷ 4 ∷ 4 ∷ 4 ∷ 4 ∷ 4 ∷ []) ∷ (5 ∷ 4 ∷ []) ∷ (2 ∷ []) ∷ [] }
{}

fn thirty_six_keys_each_put_in_last()
    ensures { grown 7 (range_with_len 0 36) []
        ≡ (4 ∷ 4 ∷ 4 ∷ 4 ∷ 4 ∷ 4 ∷ 4 ∷ 4 ∷ 4 ∷ []) ∷ (4 ∷ 5 ∷ []) ∷ (2 ∷ []) ∷ [] }
{}

fn nodes_for_the_36th_key()
    ensures { need 7 35 (grown 7 (range_with_len 0 35) []) ≡ 3 }
{}

fn four_keys_in_the_least_leaves()
    ensures { grown 3 (range_with_len 0 4) [] ≡ (2 ∷ 2 ∷ []) ∷ (2 ∷ []) ∷ [] }
{}

// The leaf of the keys 13 to 16 goes into the one behind it, under another parent; then its parent goes into its neighbour, and the root is
// discarded.
fn thirty_six_keys_without_the_sixteenth()
    ensures { shrink 7 15 (grown 7 (range_with_len 0 36) [])
        ≡ (4 ∷ 4 ∷ 4 ∷ 7 ∷ 4 ∷ 4 ∷ 4 ∷ 4 ∷ []) ∷ (8 ∷ []) ∷ [] }
{}

// Three entries and seven are too many for one leaf.
fn a_leaf_filled_from_the_next()
    ensures { shrink 7 0 ((4 ∷ 7 ∷ []) ∷ (2 ∷ []) ∷ []) ≡ (5 ∷ 5 ∷ []) ∷ (2 ∷ []) ∷ [] }
{}

fn a_last_leaf_without_its_only_entry()
    ensures { shrink 7 4 ((4 ∷ 1 ∷ []) ∷ (2 ∷ []) ∷ []) ≡ (4 ∷ []) ∷ [] }
{}

fn a_last_leaf_under_half()
    ensures { shrink 7 7 ((4 ∷ 4 ∷ []) ∷ (2 ∷ []) ∷ []) ≡ (4 ∷ 3 ∷ []) ∷ (2 ∷ []) ∷ [] }
{}

fn a_tree_without_its_only_entry()
    ensures { shrink 7 0 ((1 ∷ []) ∷ []) ≡ [] }
{}

#[test]
fn sizes_are_those_worked_by_hand() {
    thirty_six_keys_each_put_in_first();
    thirty_six_keys_each_put_in_last();
    nodes_for_the_36th_key();
    four_keys_in_the_least_leaves();
    thirty_six_keys_without_the_sixteenth();
    a_leaf_filled_from_the_next();
    a_last_leaf_without_its_only_entry();
    a_last_leaf_under_half();
    a_tree_without_its_only_entry();
}
