ghost use Rattle.std.specs.Prelude.{◌≡◌};
ghost use Rattle.holder_codec.specs.Edges.{RecordFits, record_words, is_record_before};
ghost use Rattle.holder_codec.specs.Reading.{Gives, direction_of, record_at};

use crate::edge_form::{EdgeForm, form_of, word_of_form};
use crate::item::{Item, Ordered};
use crate::unread::Unread;
use crate::words::{read_number, read_pointer};
use gdi_kinds::{ListOf, NoMemory};
use object_words::Words;
use rma_layout::DPtr;
use std::alloc::Global;

/// An edge as one of its two ends knows it. A self loop has two records at its vertex.
#[derive(Clone, Copy, Debug, PartialEq, Eq)]
pub struct EdgeRecord {
    /// Whether the vertex is the edge's target. Else it is the source.
    pub inward: bool,
    pub undirected: bool,
    /// The number of the edge among those that its source has had, from 0.
    pub ordinal: u64,
    /// The vertex at the other end, by its identifier.
    pub other: u64,
    /// The object of the vertex at the other end.
    pub other_at: DPtr,
    pub form: EdgeForm,
}

/// The records of a vertex's edges.
pub type EdgeRecords = ListOf<EdgeRecord>;

impl Item for EdgeRecord {
    ghost spelling = { record_words };

    ghost Fits = { RecordFits };

    ghost reading = { record_at };

    fn write_to(&self, out: &mut Words) -> Result<(), NoMemory> {
        out.push(u64::from(self.inward) + 2 * u64::from(self.undirected))?;
        out.push(self.ordinal)?;
        out.push(self.other)?;
        out.push(self.other_at.raw())?;
        out.push(word_of_form(self.form))
    }

    #[tactic(auto, unfolding(crate::specs::Reading::record_at))]
    fn read_from(_alloc: Global, words: &mut &[u64]) -> Result<EdgeRecord, Unread> {
        let (inward, undirected) = direction_of(read_number(words)?)?;
        let ordinal = read_number(words)?;
        let other = read_number(words)?;
        let other_at = read_pointer(words)?;
        let form = form_of(read_number(words)?)?;
        Ok(EdgeRecord {
            inward,
            undirected,
            ordinal,
            other,
            other_at,
            form,
        })
    }
}

impl Ordered for EdgeRecord {
    ghost is_before = { is_record_before };

    fn is_before(&self, other: &EdgeRecord) -> bool {
        match (self.inward, other.inward) {
            (false, false) => self.ordinal < other.ordinal,
            (false, true) => true,
            (true, false) => false,
            (true, true) => {
                self.other < other.other
                    || self.other == other.other && self.ordinal < other.ordinal
            }
        }
    }
}

/// Whether an edge leads to the vertex, and whether it is undirected.
fn direction_of(word: u64) -> Result<(bool, bool), Unread>
    ensures { Gives (λ ends. ends) result (direction_of word) }
{
    match word {
        0 => Ok((false, false)),
        1 => Ok((true, false)),
        2 => Ok((false, true)),
        3 => Ok((true, true)),
        _ => Err(Unread::NotSpelled),
    }
}
