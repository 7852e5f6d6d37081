//! Where the numbers of cases and of deadlines lead.

/// Where the numbers of cases and of deadlines lead: to the pages of a docket that is served, or nowhere, for
/// a page that stands alone.
#[derive(Clone, Copy)]
pub enum Links {
    /// To the page of each.
    Pages,
    /// Nowhere.
    None,
}
