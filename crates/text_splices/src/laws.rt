// What splices leave as it was.
ghost use Rattle.std.specs.Prelude.{◌≡◌, ◌<◌, ◌≤◌, All, List, length, slice_index, ℕ};
ghost use Rattle.text_splices.specs.Places.{IsOutside, KeepsLines, lines_before, place_of};
ghost use Rattle.text_splices.specs.Splices.{AreRising, fitting, splice_of};
ghost use Rattle.text_splices.specs.declared.splice.Splice.{Splice};

/// Splices change nothing but their ranges. A byte outside of all ranges stands in the spliced text too, such
/// bytes in their order, and each on the line on which it stood, where each replacement has as many line feeds
/// as its range. Of splices that don't rise, those that are left out may as well not be there, and the others
/// rise.
pub fn splices_change_nothing_else()
    ensures outside { (text : List ℕ) (ss : List Splice) (k : ℕ) → AreRising text 0 ss → IsOutside ss k
        → k < length text → slice_index (splice_of text ss) (place_of ss k) ≡ slice_index text k }
    ensures order { (text : List ℕ) (ss : List Splice) (j k : ℕ) → AreRising text 0 ss → IsOutside ss j
        → IsOutside ss k → j < k → place_of ss j < place_of ss k }
    ensures lines { (text : List ℕ) (ss : List Splice) (k : ℕ) → AreRising text 0 ss → IsOutside ss k
        → k ≤ length text → All (KeepsLines text) ss
        → lines_before (splice_of text ss) (place_of ss k) ≡ lines_before text k }
    ensures left_out { (text : List ℕ) (ss : List Splice) →
        splice_of text ss ≡ splice_of text (fitting text 0 ss) }
    ensures others { (text : List ℕ) (ss : List Splice) → AreRising text 0 (fitting text 0 ss) }
{}
