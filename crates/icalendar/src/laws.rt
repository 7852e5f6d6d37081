//! Laws of the functions in specs/. Nothing here runs.
ghost use Rattle.std.specs.Prelude.{◌≡◌, ℕ, ℤ, pos, ◌+◌, ◌*◌, ◌/◌, ◌<◌, ◌≤◌, List, [], ◌∷◌, ◌++◌, length, All};
ghost use Rattle.std.specs.List.{flat_map};
ghost use Rattle.std.specs.Str.{IsUtf8};
ghost use Rattle.civil_time.specs.Civil.{HasYmd, IsDayNumber};
ghost use Rattle.civil_time.specs.MomentText.{two_digits};
ghost use Rattle.court_days.specs.declared.filing.End.{End};
ghost use Rattle.icalendar.specs.ContentLines.{content_line, ended, named, physical_lines, unfolded, IsLine};
ghost use Rattle.icalendar.specs.Events.{event_lines, head_lines, foot_lines};
ghost use Rattle.icalendar.specs.Texts.{text_value, plain_text, read_value, HasNoBreak, IsPlain};
ghost use Rattle.icalendar.specs.Times.{date_value, digits_of_date, told, utc_value};

/// A value ends no line: it holds no CR and no LF. Read, it is the text with each line break as LF and
/// each other control byte as a blank, and so the text itself where that is plain already.
pub fn values_are_read_back()
    ensures no_break { (text : List ℕ) → HasNoBreak (text_value text) }
    ensures read { (text : List ℕ) → read_value (text_value text) ≡ plain_text text }
    ensures plain { (text : List ℕ) → IsPlain (plain_text text) }
    ensures same { (text : List ℕ) → IsPlain text → plain_text text ≡ text }
    ensures characters { (text : List ℕ) → IsUtf8 text → IsUtf8 (text_value text) }
{}

/// No physical line of a content line has more than 75 octets, and unfolding gives the line back. Where
/// the line is UTF-8, each physical line is, so that no fold is within a character. A property of the
/// type TEXT is such a line, whatever its text is.
pub fn lines_are_folded()
    ensures property { (name text : List ℕ) → HasNoBreak name → HasNoBreak (named name (text_value text)) }
    ensures short { (line : List ℕ) → HasNoBreak line
        → All (λ part. length part ≤ 75) (physical_lines (content_line line)) }
    ensures unfolded { (line : List ℕ) → HasNoBreak line
        → unfolded (content_line line) ≡ ended line }
    ensures characters { (line : List ℕ) → HasNoBreak line → IsUtf8 line
        → All IsUtf8 (physical_lines (content_line line)) }
{}

/// The same of the content lines of a whole text, none of which begins with a blank.
pub fn texts_are_folded()
    ensures short { (lines : List (List ℕ)) → All IsLine lines
        → All (λ part. length part ≤ 75) (physical_lines (flat_map content_line lines)) }
    ensures unfolded { (lines : List (List ℕ)) → All IsLine lines
        → unfolded (flat_map content_line lines) ≡ flat_map ended lines }
    ensures characters { (lines : List (List ℕ)) → All IsLine lines → All IsUtf8 lines
        → All IsUtf8 (physical_lines (flat_map content_line lines)) }
{}

/// What an event and a calendar are made of are such lines, whatever the texts are.
pub fn events_are_lines()
    ensures event { (uid summary description : List ℕ) (stamp : ℤ) (end : End)
        → All IsLine (event_lines uid stamp end summary description) }
    ensures characters { (uid summary description : List ℕ) (stamp : ℤ) (end : End)
        → IsUtf8 uid → IsUtf8 summary → IsUtf8 description
        → All IsUtf8 (event_lines uid stamp end summary description) }
    ensures head { All IsLine head_lines }
    ensures foot { All IsLine foot_lines }
{}

/// The digits of a day are those of its date. An instant is written as the date of its day in UTC,
/// its hour, its minute and its second; from 1980 to 3999 it is written exactly.
pub fn times_are_told()
    ensures date { (day : ℕ) → IsDayNumber day → (year month day_of_month : ℕ)
        × HasYmd day (pos year) month day_of_month × (date_value day ≡ digits_of_date year month day_of_month) }
    ensures utc { (at : ℕ) → (hour minute second : ℕ) × (hour < 24) × (minute < 60) × (second < 60)
        × (at ≡ 86_400 * (at / 86_400) + 3600 * hour + 60 * minute + second)
        × (utc_value at ≡ date_value (at / 86_400)
        ++ 84 ∷ (two_digits hour ++ (two_digits minute ++ (two_digits second ++ 90 ∷ [])))) }
    ensures told { (at : ℕ) → 315_532_800 ≤ at → at ≤ 64_060_588_799 → told (pos at) ≡ at }
{}
