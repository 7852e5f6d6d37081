//! What answers lines.
ghost use Rattle.std.specs.Prelude.{◌≡◌, ℕ, List, IfOk, IfErr, OnErr};
ghost use Rattle.line_io.specs.Report.{Answers, LineAnswer};

/// Answers lines one after the other, each by what the lines before it left. Its clauses may rely on
/// something that it can lose, such as a disk that gives back what it took. An answerer that relies on
/// nothing declares `ghost Trusts = { λ _. ⊤ }`.
pub trait Answerer {
    /// Why a line could not be answered.
    type Fault: Drop;

    /// The most bytes of a line, without its end. A longer line is answered without being seen.
    const LIMIT: u32;

    /// The most bytes of answers that may wait while further lines are answered. With 0 each answer
    /// is written before the next line is answered, which suits answers that acknowledge a durable
    /// change: at most one line more was done than was answered.
    const MAX_PENDING: u32;

    // The constant `LIMIT`, for clauses.
    ghost LIMIT: { ℕ };

    // The constant `MAX_PENDING`, for clauses.
    ghost MAX_PENDING: { ℕ };

    // What the lines so far left, as contracts see it.
    ghost State: { Type 0 };

    // The answerer is in this state.
    ghost Shows: { Self → State → Type 0 };

    // What the answers rely on. Once it is lost at a line it never comes back.
    ghost Trusts: { Self → Type 0 };

    // What is known after a fault at a line: the first state is that before the line, and the second
    // is that which an answer would have left.
    ghost Fails: { Self → Self.Fault → State → State → Type 0 };

    // What the answering of a line does to the answerer, also where it fails.
    ghost Steps: { Self → Self → Type 0 };

    // What a line within the limit comes to: its answer, whether that is bad, and the state it leaves.
    ghost answer_to: { State → List ℕ → LineAnswer State };

    // The same for a line past the limit.
    ghost too_long: { State → LineAnswer State };

    /// Appends the answer to a line of at most `LIMIT` bytes, and returns whether it counts as bad. Where it
    /// fails it appends nothing.
    fn answer(&mut self, line: &[u8], out: &mut Vec<u8>) -> Result<bool, Self::Fault>
        ensures ok { IfOk result (λ bad. (s : State) → Shows self.old s → Trusts self.new
            → Answers (Shows self.new) out.old.items out.new.items bad (answer_to s line.now)) }
        ensures trust { Trusts self.new → Trusts self.old }
        ensures steps { Steps self.old self.new }
        ensures err { OnErr result (out.new.items ≡ out.old.items) }
        ensures fails { IfErr result (λ fault. (s : State) → Shows self.old s → Trusts self.new
            → Fails self.new fault s (answer_to s line.now).after) };

    /// Does the same for a line of more than `LIMIT` bytes.
    fn answer_long(&mut self, out: &mut Vec<u8>) -> Result<bool, Self::Fault>
        ensures ok { IfOk result (λ bad. (s : State) → Shows self.old s → Trusts self.new
            → Answers (Shows self.new) out.old.items out.new.items bad (too_long s)) }
        ensures trust { Trusts self.new → Trusts self.old }
        ensures steps { Steps self.old self.new }
        ensures err { OnErr result (out.new.items ≡ out.old.items) }
        ensures fails { IfErr result (λ fault. (s : State) → Shows self.old s → Trusts self.new
            → Fails self.new fault s (too_long s).after) };
}
