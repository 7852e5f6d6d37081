//! Whether what a deadline asks for was done in time.
ghost use Rattle.std.specs.Prelude.{◌≡◌};
ghost use Rattle.html_sheets.specs.Sites.{filed_told};

/// What was filed on a deadline, judged by the court calendar as it is now.
#[derive(Clone, Copy)]
pub enum Filed {
    /// Nothing was filed.
    Unfiled,
    /// It was filed by the end of the time.
    InTime,
    /// It was filed after the end of the time.
    Late,
    /// It was filed while no time was running.
    Untimed,
}

/// The sentence on the page of a deadline.
#[tactic(auto, unfolding(crate::specs::Elements::element))]
pub(crate) fn filed_told(filed: Filed) -> &'static str
    ensures { result.now ≡ filed_told filed }
{
    match filed {
        Filed::Unfiled => "",
        Filed::InTime => "<p>By the present calendar it was done in time.</p>\n",
        Filed::Late => "<p class=\"late\">By the present calendar it was done late.</p>\n",
        Filed::Untimed => "<p>By the present calendar no time was running when it was done.</p>\n",
    }
}
