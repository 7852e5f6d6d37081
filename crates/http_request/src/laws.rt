//! Laws of the end of a head, of the guard and of links, with nothing to run.
ghost use Rattle.std.specs.Prelude.{◌≡◌, ◌≢◌, ℕ, ◌≤◌, List, ◌++◌, length, take, codes, false, true, [], ◌∷◌, Option, None, Some};
ghost use Rattle.std.specs.List.{AllByRecursion};
ghost use Rattle.civil_time.specs.Civil.{IsDayNumber};
ghost use Rattle.docket_command.specs.declared.command_name.CommandName.{CommandName};
ghost use Rattle.docket_command.specs.declared.command_name.CommandName.TheVariants.{ImportCalendar};
ghost use Rattle.html_sheets.specs.declared.about.About.{About};
ghost use Rattle.http_request.specs.Head.{head_of};
ghost use Rattle.http_request.specs.Fields.{values_of};
ghost use Rattle.http_request.specs.Guard.{lets_through, is_foreign};
ghost use Rattle.http_request.specs.Lines.{IsHeadWithin};
ghost use Rattle.http_request.specs.Links.{export_path, export_target, form_target, list_target, AreShown, HasNumbers, IsNumber};
ghost use Rattle.http_request.specs.Wish.{wish_of};
ghost use Rattle.http_request.specs.declared.export.Export.{Export};
ghost use Rattle.http_request.specs.declared.page.Page.TheVariants.{Cases, Enter};
ghost use Rattle.http_request.specs.declared.wish.Wish.TheVariants.{Export as ExportWish, Page};
ghost use Rattle.http_request.specs.Origins.{host_at, origins_at, own_names};
ghost use Rattle.http_request.specs.declared.page.Routes.{Routes};
ghost use Rattle.http_request.specs.declared.wish.Wish.{Wish};
ghost use Rattle.http_request.specs.Request.{IsRequest, IsLetThrough, is_refused};
ghost use Rattle.http_request.specs.declared.head.HeadSearch.TheVariants.{Head};

/// The end that is found is that of a head. Where an input begins with a head within the limits its end is
/// found, whatever comes behind it.
pub fn heads_end_with_an_empty_line()
    ensures ends { (input : List ℕ) (len : ℕ) → head_of input ≡ Head len
        → IsHeadWithin (take len input) × len ≤ length input }
    ensures found { (head rest : List ℕ) → IsHeadWithin head → head_of (head ++ rest) ≡ Head (length head) }
{}

/// Each request that is not refused was let through by its head. Where there is a guard it was sent to one of the
/// origins, by a page of that one or by no page, and not across sites. This holds whatever it asks for.
pub fn what_is_asked_was_let_through()
    ensures { (routes : Routes) (fresh : ℕ) (input : List ℕ) (wish : Wish) (body : List ℕ)
        → IsRequest routes fresh input wish body → is_refused wish ≡ false → IsLetThrough routes input }
{}

/// A program that sends no origin and no mark of a browser is let through at a port of this machine under one of its
/// names. This holds whatever its method and its other fields.
pub fn who_sends_no_origin_is_let_through()
    ensures { (port : ℕ) (other : Option (List ℕ)) (method : List ℕ) (fields : List (List ℕ × List ℕ))
        → values_of (codes "origin") fields ≡ [] → values_of (codes "sec-fetch-site") fields ≡ []
        → AllByRecursion (λ name. values_of (codes "host") fields ≡ host_at name port ∷ [] → lets_through (origins_at port other) method fields ≡ true) own_names }
{}

/// A link to a form leads to it: who gets its target, and is let through, asks for the form of that kind, filled in
/// with what the link is about. So it is for each kind that a form enters, and for each case, party and deadline.
pub fn links_lead_to_their_forms()
    ensures { (routes : Routes) (fields : List (List ℕ × List ℕ)) (kind : CommandName) (about : About) (fresh : ℕ)
        → AreShown routes → is_foreign routes (codes "GET") fields ≡ false
        → kind ≢ ImportCalendar → HasNumbers about
        → wish_of routes fresh (codes "GET") (form_target kind about) fields ≡ Page (Enter kind about) fresh }
{}

/// A link to the cases before one leads to their list, for each number of a case.
pub fn links_lead_to_their_lists()
    ensures { (routes : Routes) (fields : List (List ℕ × List ℕ)) (number fresh : ℕ)
        → AreShown routes → is_foreign routes (codes "GET") fields ≡ false → IsNumber number
        → wish_of routes fresh (codes "GET") (list_target number) fields ≡ Page (Cases (Some number)) fresh }
{}

/// A link to an export leads to it: of the days that the link names, or without days of those about the day of the
/// request. So it is for each form, and for all days from one to another.
pub fn links_lead_to_their_exports()
    ensures days { (routes : Routes) (fields : List (List ℕ × List ℕ)) (form : Export) (from to fresh : ℕ)
        → AreShown routes → is_foreign routes (codes "GET") fields ≡ false
        → IsDayNumber from → IsDayNumber to → from ≤ to
        → wish_of routes fresh (codes "GET") (export_target form from to) fields ≡ ExportWish form (Some (from, to)) fresh }
    ensures about { (routes : Routes) (fields : List (List ℕ × List ℕ)) (form : Export) (fresh : ℕ)
        → AreShown routes → is_foreign routes (codes "GET") fields ≡ false
        → wish_of routes fresh (codes "GET") (export_path form) fields ≡ ExportWish form None fresh }
{}
