//! Lists of what is due.
ghost use Rattle.std.specs.Prelude.{◌≡◌};
ghost use Rattle.html_sheets.specs.Weeks.{has_weeks, list_title};

use crate::due::Due;

/// Which deadlines a page lists.
#[derive(Clone, Copy)]
pub enum DueList {
    /// Those of some days.
    Days,
    /// Those by the day of the request.
    By(Due),
}

impl DueList {
    /// The title of the page.
    pub(crate) fn title(self) -> &'static str
        ensures { result.now ≡ list_title self }
    {
        match self {
            DueList::Days => "Deadlines",
            DueList::By(Due::Today) => "Today",
            DueList::By(Due::Week) => "This week",
            DueList::By(Due::Overdue) => "Overdue",
        }
    }

    /// Whether the page leads to the days a week before and a week after.
    pub(crate) fn has_weeks(self) -> bool
        ensures { result ≡ has_weeks self }
    {
        match self {
            DueList::Days => true,
            DueList::By(_) => false,
        }
    }
}
