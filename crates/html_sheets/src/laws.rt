//! Laws of the functions of specs/, with nothing to run.
ghost use Rattle.std.specs.Prelude.{◌≡◌, ℕ, Bool, List, [], length, filter, map, drop, slice_index, Option, is_some, IsTrue};
ghost use Rattle.court_days.specs.Court.{CourtSettings};
ghost use Rattle.docket_history.specs.declared.record.CaseRecord.{CaseRecord};
ghost use Rattle.docket_history.specs.declared.record.DeadlineLine.{DeadlineLine};
ghost use Rattle.docket_history.specs.declared.record.DueRow.{DueRow};
ghost use Rattle.docket_history.specs.declared.row.CalendarRow.{CalendarRow};
ghost use Rattle.docket_history.specs.declared.row.CaseRow.{CaseRow};
ghost use Rattle.html_sheets.specs.Escapes.{is_control, blanked_byte, escaped, lined};
ghost use Rattle.html_sheets.specs.Marks.{marks};
ghost use Rattle.html_sheets.specs.Pages.{page_head, case_row};
ghost use Rattle.html_sheets.specs.Sheets.{case_sheet};
ghost use Rattle.html_sheets.specs.Sites.{cases_page, search_page, case_page, days_page_head, days_page_foot, text_page, printed_page, reasons_page, court_days_page};
ghost use Rattle.html_sheets.specs.Weeks.{days_head, has_weeks, week_head, due_row, named_row};
ghost use Rattle.html_sheets.specs.Reading.{begins_reference, read_text};
ghost use Rattle.html_sheets.specs.declared.due_list.DueList.{DueList};
ghost use Rattle.html_sheets.specs.declared.filed.Filed.{Filed};
ghost use Rattle.html_sheets.specs.declared.links.Links.{Links};

/// A text within a page has none of `<`, `>`, `"` and `'` and no control byte, and each `&` in it begins one
/// of the five references. So it begins and ends no tag and no value of an attribute, whatever it is. A text
/// of several lines has none of these characters either.
pub fn texts_are_no_markup()
    ensures marks { (text : List ℕ) → marks (escaped text) ≡ [] }
    ensures lines { (text : List ℕ) → marks (lined text) ≡ [] }
    ensures controls { (text : List ℕ) → filter is_control (escaped text) ≡ [] }
    ensures references { (text : List ℕ) (i : ℕ) → slice_index (escaped text) i ≡ 38
        → IsTrue (begins_reference (drop i (escaped text))) }
{}

/// A reader gets the text back, with a blank for each control byte.
pub fn texts_are_read_back()
    ensures { (text : List ℕ) → read_text (escaped text) ≡ map blanked_byte text }
{}

/// The marks of a piece are those of its own tags, whatever texts the docket has. Two heads have the same
/// ones in the same order. So have two rows whose numbers lead to the same, two sheets of as many parties,
/// entries and deadlines, and their pages. So have two pages of as many cases, if both or none lead to newer
/// cases, and both or none to older ones; two pages of searches that found as many cases, if there are more
/// for both or none; two pages of texts, of reasons for deadlines of which the same was filed, and of as many
/// rows of the court's calendar; two lists of what is due, up to their rows, if both or none lead to other weeks,
/// and behind them. The day on which a page is printed changes none of them.
pub fn tags_are_the_pages_own()
    ensures heads { (title other : List ℕ) → marks (page_head title) ≡ marks (page_head other) }
    ensures cases { (case other : CaseRow) → marks (case_row case) ≡ marks (case_row other) }
    ensures weeks { (list other : DueList) (court place : CourtSettings) (from to day later : ℕ) → has_weeks list ≡ has_weeks other
        → marks (week_head list court from to) ≡ marks (week_head other place day later) }
    ensures days { (from to day later : ℕ) → marks (days_head from to) ≡ marks (days_head day later) }
    ensures dues { (links : Links) (court place : CourtSettings) (due other : DueRow) (label word caption name : List ℕ)
        → marks (due_row links court due label caption) ≡ marks (due_row links place other word name) }
    ensures named { (court place : CourtSettings) (due other : DueRow) (label word party who caption name : List ℕ)
        → marks (named_row court due label party caption) ≡ marks (named_row place other word who name) }
    ensures sheets { (links : Links) (court place : CourtSettings) (case other : CaseRecord) (deadlines lines : List DeadlineLine)
        → length case.parties ≡ length other.parties → length case.entries ≡ length other.entries
        → length deadlines ≡ length lines
        → marks (case_sheet links court case deadlines) ≡ marks (case_sheet links place other lines) }
    ensures lists { (cases others : List CaseRow) (newer later older earlier : Option ℕ) → length cases ≡ length others
        → is_some newer ≡ is_some later → is_some older ≡ is_some earlier → (day night : ℕ)
        → marks (cases_page cases newer older day) ≡ marks (cases_page others later earlier night) }
    ensures searches { (words text : List ℕ) (cases others : List CaseRow) (more : Bool) → length cases ≡ length others
        → (day night : ℕ) → marks (search_page words cases more day) ≡ marks (search_page text others more night) }
    ensures pages { (court place : CourtSettings) (case other : CaseRecord) (deadlines lines : List DeadlineLine)
        → length case.parties ≡ length other.parties → length case.entries ≡ length other.entries
        → length deadlines ≡ length lines
        → (day night : ℕ) → marks (case_page court case deadlines day) ≡ marks (case_page place other lines night) }
    ensures texts { (title other text words : List ℕ) → marks (text_page title text) ≡ marks (text_page other words) }
    ensures printed { (title other text words : List ℕ) (day night : ℕ)
        → marks (printed_page title text day) ≡ marks (printed_page other words night) }
    ensures reasons { (case other deadline last : ℕ) (text words : List ℕ) (filed : Filed) (day night : ℕ)
        → marks (reasons_page case deadline text filed day) ≡ marks (reasons_page other last words filed night) }
    ensures courts { (court place : CourtSettings) (rows others : List CalendarRow) → length rows ≡ length others
        → (day night : ℕ) → marks (court_days_page court rows day) ≡ marks (court_days_page place others night) }
    ensures calendars { (list other : DueList) (court place : CourtSettings) (from to day later : ℕ) → has_weeks list ≡ has_weeks other
        → marks (days_page_head list court from to) ≡ marks (days_page_head other place day later) }
    ensures feet { (from to first last day night : ℕ) → marks (days_page_foot from to day) ≡ marks (days_page_foot first last night) }
{}
