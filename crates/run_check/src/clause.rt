ghost use Rattle.std.specs.Prelude.{◌≡◌};
ghost use Rattle.run_check.specs.Clauses.{clause_number};

/// What a printed run has to keep.
#[derive(Clone, Copy, Debug, PartialEq, Eq)]
pub enum Clause {
    /// Each transaction of the script has an outcome that it may have.
    Fit,
    /// Entries are numbered, each once, and nobody looked outside of the history.
    Numbers,
    /// Each section keeps its order.
    Order,
    /// Replies are those of the graph at the outcome's place.
    Replies,
    /// A transaction is refused for blocks exactly where a rank has too few, by that rank.
    Room,
}

impl Clause {
    /// The number of the clause, from 1.
    pub fn number(self) -> u32
        ensures { result ≡ clause_number self }
    {
        match self {
            Clause::Fit => 1,
            Clause::Numbers => 2,
            Clause::Order => 3,
            Clause::Replies => 4,
            Clause::Room => 5,
        }
    }
}
