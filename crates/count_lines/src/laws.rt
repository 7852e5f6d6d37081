//! Laws between the definitions, with no code to run.
ghost use Rattle.std.specs.Prelude.{◌≡◌, ◌↔◌, ℕ, List, Some};
ghost use Rattle.count_lines.specs.Requests.{request_of, IsAsked};
ghost use Rattle.count_lines.specs.Spelling.{Spells};
ghost use Rattle.count_lines.specs.declared.request.Request.{Request};

/// A line asks for a request exactly where it is spelled so and its values lie in their limits.
pub fn lines_are_read_as_spelled()
    ensures { (line : List ℕ) (request : Request)
        → (request_of line ≡ Some request) ↔ (IsAsked request × Spells request line) }
{}
