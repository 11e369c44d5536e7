ghost use Rattle.std.specs.Prelude.{◌≡◌, ◌<◌, ◌≤◌, ◌++◌, ◌∷◌, [], Some, length, slice_get, slice_range, IfOk};
ghost use Rattle.traversals.specs.Rows.{start_from};

use gdi_kinds::NoMemory;
use std::alloc::Global;
use std::marker::Model;

/// The labels of vertices by place, as the numbers of the labels: a row of them for each place.
#[derive(Debug, Drop)]
pub struct LabelRows {
    // Where the row of each place ends. It starts where the one before ends.
    ends: Vec<usize>,
    numbers: Vec<u32>,
}

impl Model for LabelRows {
    ghost use Rattle.std.specs.Prelude.{ℕ, List, length};
    ghost use Rattle.traversals.specs.Rows.{AreEnds, rows_from};

    ghost Value = { List (List ℕ) };

    ghost view = { λ rows. rows_from 0 rows.ends.items rows.numbers.items };

    ghost invariant = { λ rows. AreEnds 0 rows.ends.items (length rows.numbers.items) };
}

impl LabelRows {
    /// No row. It takes no memory.
    pub fn new(alloc: Global) -> LabelRows
        ensures { result ≡ [] }
    {
        LabelRows {
            ends: Vec::new(alloc),
            numbers: Vec::new(alloc),
        }
    }

    /// With a row more, that of the next place.
    pub fn with(self, labels: &[u32]) -> Result<LabelRows, NoMemory>
        ensures { IfOk result (λ rows. rows ≡ self ++ labels.now ∷ []) }
    {
        let LabelRows {
            mut ends,
            mut numbers,
        } = self;
        numbers.extend_from_slice(labels)?;
        ends.push(numbers.len())?;
        Ok(LabelRows { ends, numbers })
    }

    /// How many rows there are.
    pub fn len(&self) -> usize
        ensures { result ≡ length self.now }
    {
        self.ends.len()
    }

    /// The row of a place.
    pub fn row(&self, place: usize) -> &[u32]
        requires { place < length self.now }
        ensures { slice_get self.now place ≡ Some result.now }
    {
        let start = start_of(self.ends.as_slice(), place);
        between(self.numbers.as_slice(), start, self.ends[place])
    }
}

// Where the row of a place starts.
fn start_of(ends: &[usize], place: usize) -> usize
    requires { place < length ends.now }
    ensures { result ≡ start_from 0 ends.now place }
{
    if place == 0 {
        return 0;
    }
    ends[place - 1]
}

fn between(numbers: &[u32], start: usize, stop: usize) -> &[u32]
    requires start { start ≤ stop }
    requires stop { stop ≤ length numbers.now }
    ensures { result.now ≡ slice_range numbers.now start stop }
{
    &numbers[start..stop]
}
