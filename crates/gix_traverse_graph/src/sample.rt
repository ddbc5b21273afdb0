//! A sample history: lists that the definitions allow and refuse, and that the slow tests find.

ghost use Rattle.std.specs.Prelude.{◌≡◌, ℕ, List, [], ◌∷◌, Some, true, false};
ghost use Rattle.gix_traverse_graph.specs.Walks.{InBreadth, InTopological, InDate, ByNewest, ByOldest};
ghost use Rattle.gix_traverse_graph.specs.Sample.{graph_of, history, skewed, line, slow_list, topological_rows, date_rows, newest_rows, oldest_rows, from_8, from_8_less_7, from_8_less_8, from_8_by_first, from_8_past_6, from_8_since_4, from_3_less_4, from_2_since_4};

/// The lists that the plain tests and the enumeration find.
pub fn slow_rows()
    ensures all { slow_list history from_8 ≡ Some (8 ∷ 6 ∷ 7 ∷ 5 ∷ 4 ∷ 3 ∷ 2 ∷ 1 ∷ []) }
    ensures hidden { slow_list history from_8_less_7 ≡ Some (8 ∷ 6 ∷ 5 ∷ 3 ∷ []) }
    ensures first { slow_list history from_8_by_first ≡ Some (8 ∷ 6 ∷ 5 ∷ 3 ∷ 1 ∷ []) }
    ensures skewed { slow_list skewed from_3_less_4 ≡ Some (3 ∷ []) }
    ensures topological { topological_rows history from_8 (8 ∷ 7 ∷ 4 ∷ 2 ∷ 6 ∷ 5 ∷ 3 ∷ 1 ∷ [])
        ≡ true }
    ensures topological_not { topological_rows history from_8 (8 ∷ 6 ∷ 5 ∷ 3 ∷ 7 ∷ 4 ∷ 2 ∷ 1 ∷ [])
        ≡ false }
    ensures topological_skewed { topological_rows skewed from_3_less_4 (3 ∷ []) ≡ true }
    ensures topological_hidden_tip { topological_rows history from_8_less_8 [] ≡ true }
    ensures date { date_rows history from_8 (8 ∷ 7 ∷ 6 ∷ 5 ∷ 4 ∷ 3 ∷ 2 ∷ 1 ∷ []) ≡ true }
    ensures date_not { date_rows history from_8 (8 ∷ 7 ∷ 5 ∷ 6 ∷ 4 ∷ 3 ∷ 2 ∷ 1 ∷ []) ≡ false }
    ensures oldest { oldest_rows history from_8 (8 ∷ 6 ∷ 5 ∷ 3 ∷ 1 ∷ 7 ∷ 4 ∷ 2 ∷ []) ≡ true }
    ensures oldest_not { oldest_rows history from_8 (1 ∷ 2 ∷ 3 ∷ 4 ∷ 5 ∷ 6 ∷ 7 ∷ 8 ∷ []) ≡ false }
    ensures newest { newest_rows history from_8_since_4 (8 ∷ 7 ∷ 6 ∷ 5 ∷ 4 ∷ []) ≡ true }
    ensures newest_not { newest_rows history from_8_since_4 (8 ∷ 7 ∷ 6 ∷ 4 ∷ []) ≡ false }
    ensures newest_line { newest_rows line from_2_since_4 (2 ∷ []) ≡ true }
    ensures newest_line_not { newest_rows line from_2_since_4 (2 ∷ 0 ∷ []) ≡ false }
{}

/// The lists that the definitions allow, and near misses that they refuse.
pub fn rows()
    ensures breadth { InBreadth (graph_of history) from_8 (8 ∷ 6 ∷ 7 ∷ 5 ∷ 4 ∷ 3 ∷ 2 ∷ 1 ∷ []) }
    ensures breadth_not { InBreadth (graph_of history) from_8
        (8 ∷ 7 ∷ 6 ∷ 5 ∷ 4 ∷ 3 ∷ 2 ∷ 1 ∷ []) → ⊥ }
    ensures hidden { InBreadth (graph_of history) from_8_less_7 (8 ∷ 6 ∷ 5 ∷ 3 ∷ []) }
    ensures hidden_not { InBreadth (graph_of history) from_8_less_7 (8 ∷ 6 ∷ 5 ∷ 3 ∷ 1 ∷ []) → ⊥ }
    ensures first { InBreadth (graph_of history) from_8_by_first (8 ∷ 6 ∷ 5 ∷ 3 ∷ 1 ∷ []) }
    ensures breadth_refused { InBreadth (graph_of history) from_8_past_6 (8 ∷ 7 ∷ 4 ∷ 2 ∷ 1 ∷ []) }
    ensures skewed { InBreadth (graph_of skewed) from_3_less_4 (3 ∷ []) }
    ensures skewed_not { InBreadth (graph_of skewed) from_3_less_4 (3 ∷ 0 ∷ []) → ⊥ }
    ensures topological { InTopological (graph_of history) from_8
        (8 ∷ 7 ∷ 4 ∷ 2 ∷ 6 ∷ 5 ∷ 3 ∷ 1 ∷ []) }
    ensures topological_not { InTopological (graph_of history) from_8
        (8 ∷ 6 ∷ 5 ∷ 3 ∷ 7 ∷ 4 ∷ 2 ∷ 1 ∷ []) → ⊥ }
    ensures hidden_tip { InTopological (graph_of history) from_8_less_8 [] }
    ensures date { InDate (graph_of history) from_8 (8 ∷ 7 ∷ 6 ∷ 5 ∷ 4 ∷ 3 ∷ 2 ∷ 1 ∷ []) }
    ensures date_refused { InDate (graph_of history) from_8_past_6
        (8 ∷ 7 ∷ 5 ∷ 4 ∷ 3 ∷ 2 ∷ 1 ∷ []) }
    ensures oldest { ByOldest (graph_of history) from_8 (8 ∷ 6 ∷ 5 ∷ 3 ∷ 1 ∷ 7 ∷ 4 ∷ 2 ∷ []) }
    ensures newest { ByNewest (graph_of history) from_8_since_4 (8 ∷ 7 ∷ 6 ∷ 5 ∷ 4 ∷ []) }
    ensures newest_line { ByNewest (graph_of line) from_2_since_4 (2 ∷ []) }
    ensures newest_line_not { ByNewest (graph_of line) from_2_since_4 (2 ∷ 0 ∷ []) → ⊥ }
{}
