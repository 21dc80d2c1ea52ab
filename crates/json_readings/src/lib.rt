//! Laws of the JSON values that texts read as: their size, and the order of their keys.
//!
//! Stands on the toolchain's `serde_json` and `json`, whose reading is meant, and has no code but the two
//! laws. Keeps: a law speaks of the library's own reading, never of a copy of it. Knows nothing of
//! messages.
#![tactic(auto)]

ghost use Rattle.std.specs.Prelude.{◌≡◌, ◌≤◌, ℕ, List, length, Some};
ghost use Rattle.serde_json.specs.Data.{Data};
ghost use Rattle.serde_json.specs.Read.{read};
ghost use Rattle.json_readings.specs.Size.{size};
ghost use Rattle.json_readings.specs.Ordered.{IsOrdered};

/// A reading is no larger than its text.
pub fn a_reading_is_no_larger_than_its_text()
    ensures { (text : List ℕ) (d : Data) → read text ≡ Some d → size d ≤ length text }
{}

/// Each object of a reading has its keys once each, in order.
pub fn a_reading_is_ordered()
    ensures { (text : List ℕ) (d : Data) → read text ≡ Some d → IsOrdered d }
{}
