ghost use Rattle.std.specs.Prelude.{◌≡◌, ◌≢◌, IfOk, MatchOption};
ghost use Rattle.holder_codec.specs.declared.edge_holder.EdgeHolder.{EdgeHolder};
ghost use Rattle.holder_codec.specs.EdgeObject.{IsEdgeHolder, edge_object_words};
ghost use Rattle.holder_codec.specs.Reading.{IsWords, Gives, edge_of_words};

use crate::held_prop::HeldProps;
use crate::items::{read_rising, write_all};
use crate::unread::Unread;
use crate::words::read_number;
use gdi_kinds::{NoMemory, U32List};
use object_words::Words;
use std::alloc::Global;

/// An edge with its labels and properties, as the object of a heavy edge holds it.
#[derive(Debug, Drop)]
pub struct EdgeHolder {
    /// The source, by its identifier.
    pub source: u64,
    /// The number of the edge among those that its source has had, from 0.
    pub ordinal: u64,
    /// The target, by its identifier.
    pub target: u64,
    /// The numbers of the labels, rising.
    pub labels: U32List,
    /// The values of the properties by rising type. Those of one type stand in their order.
    pub props: HeldProps,
}

impl EdgeHolder {
    /// The one spelling of the edge.
    pub fn write(&self, alloc: Global) -> Result<Words, NoMemory>
        requires { IsEdgeHolder self.now }
        ensures { IfOk result (λ words. words ≡ edge_object_words self.now) }
    {
        let mut words = Words::new(alloc);
        words.push(self.source)?;
        words.push(self.ordinal)?;
        words.push(self.target)?;
        words.push(self.labels.len() as u64)?;
        words.push(self.props.len() as u64)?;
        write_all(self.labels.as_slice(), &mut words)?;
        write_all(self.props.as_slice(), &mut words)?;
        Ok(words)
    }

    /// The edge that the words spell. There is none exactly where no edge has these words.
    pub fn read(alloc: Global, words: &Words) -> Result<Option<EdgeHolder>, NoMemory>
        ensures { IfOk result (λ found. MatchOption found
            ((edge : EdgeHolder) → IsEdgeHolder edge → words.now ≢ edge_object_words edge)
            (λ edge. IsEdgeHolder edge × (words.now ≡ edge_object_words edge))) }
    {
        match all(alloc, words.as_slice()) {
            Ok(edge) => Ok(Some(edge)),
            Err(Unread::NotSpelled) => Ok(None),
            Err(Unread::NoMemory) => Err(NoMemory),
        }
    }
}

#[tactic(auto, unfolding(crate::specs::Reading::edge_of_words))]
fn all(alloc: Global, words: &[u64]) -> Result<EdgeHolder, Unread>
    ensures gives { Gives (λ edge. edge) result (edge_of_words words.now) }
    ensures words { IsWords words.now }
{
    let mut rest = words;
    let source = read_number(&mut rest)?;
    let ordinal = read_number(&mut rest)?;
    let target = read_number(&mut rest)?;
    let label_count = read_number(&mut rest)?;
    let prop_count = read_number(&mut rest)?;
    let labels = read_rising(alloc, label_count, &mut rest)?;
    let props = read_rising(alloc, prop_count, &mut rest)?;
    if !rest.is_empty() {
        return Err(Unread::NotSpelled);
    }
    Ok(EdgeHolder {
        source,
        ordinal,
        target,
        labels,
        props,
    })
}
