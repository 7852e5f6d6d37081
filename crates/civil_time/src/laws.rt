//! Laws of the functions in specs/. Nothing here runs.
ghost use Rattle.std.specs.Prelude.{◌≡◌, ◌↔◌, ◌≤◌, ℕ, List, length, Some, pos, neg_ℤ};
ghost use Rattle.civil_time.specs.Civil.{IsDayNumber};
ghost use Rattle.civil_time.specs.DayText.{SpellsDay, day_text, day_of_text};
ghost use Rattle.civil_time.specs.Months.{IsMonthsAfter, months_later, months_earlier};

/// The text of each day has ten bytes, and reads back as that day.
pub fn texts_are_read_back()
    ensures read_back { (day : ℕ) → IsDayNumber day → day_of_text (day_text day) ≡ Some day }
    ensures ten_bytes { (day : ℕ) → length (day_text day) ≡ 10 }
    ensures means { (text : List ℕ) (day : ℕ)
        → (day_of_text text ≡ Some day) ↔ (IsDayNumber day × SpellsDay text day) }
{}

/// Exactly one day lies a number of months away, and the function returns it.
pub fn months_are_found()
    ensures later { (day months later : ℕ) → IsDayNumber day → day ≤ 705_282 → months ≤ 120
        → IsMonthsAfter day (pos months) later ↔ (later ≡ months_later day months) }
    ensures earlier { (day months earlier : ℕ) → IsDayNumber day → 10_957 ≤ day → months ≤ 120
        → IsMonthsAfter day (neg_ℤ (pos months)) earlier ↔ (earlier ≡ months_earlier day months) }
{}
