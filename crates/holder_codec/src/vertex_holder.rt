ghost use Rattle.std.specs.Prelude.{◌≡◌, ◌≢◌, IfOk, MatchOption};
ghost use Rattle.holder_codec.specs.declared.vertex_holder.VertexHolder.{VertexHolder};
ghost use Rattle.holder_codec.specs.Reading.{IsWords, Gives, vertex_of_words};
ghost use Rattle.holder_codec.specs.Vertex.{IsVertexHolder, vertex_words};

use crate::edge_record::EdgeRecords;
use crate::held_prop::HeldProps;
use crate::items::{read_rising, write_all};
use crate::unread::Unread;
use crate::words::read_number;
use gdi_kinds::{NoMemory, U32List};
use object_words::Words;
use std::alloc::Global;

/// What the object of a vertex holds.
#[derive(Debug, Drop)]
pub struct VertexHolder {
    pub id: u64,
    /// The ordinal of the next edge from the vertex.
    pub next: u64,
    /// The numbers of the labels, rising.
    pub labels: U32List,
    /// The values of the properties by rising type. Those of one type stand in their order.
    pub props: HeldProps,
    /// First the edges whose source it is by rising ordinal, then those whose target it is by rising source and
    /// ordinal, directed and undirected ones mixed.
    pub edges: EdgeRecords,
}

impl VertexHolder {
    /// The one spelling of the vertex.
    pub fn write(&self, alloc: Global) -> Result<Words, NoMemory>
        requires { IsVertexHolder self.now }
        ensures { IfOk result (λ words. words ≡ vertex_words self.now) }
    {
        let mut words = Words::new(alloc);
        words.push(self.id)?;
        words.push(self.next)?;
        words.push(self.labels.len() as u64)?;
        words.push(self.props.len() as u64)?;
        words.push(self.edges.len() as u64)?;
        write_all(self.labels.as_slice(), &mut words)?;
        write_all(self.props.as_slice(), &mut words)?;
        write_all(self.edges.as_slice(), &mut words)?;
        Ok(words)
    }

    /// The vertex that the words spell. There is none exactly where no vertex has these words.
    pub fn read(alloc: Global, words: &Words) -> Result<Option<VertexHolder>, NoMemory>
        ensures { IfOk result (λ found. MatchOption found
            ((vertex : VertexHolder) → IsVertexHolder vertex → words.now ≢ vertex_words vertex)
            (λ vertex. IsVertexHolder vertex × (words.now ≡ vertex_words vertex))) }
    {
        match all(alloc, words.as_slice()) {
            Ok(vertex) => Ok(Some(vertex)),
            Err(Unread::NotSpelled) => Ok(None),
            Err(Unread::NoMemory) => Err(NoMemory),
        }
    }
}

#[tactic(auto, unfolding(crate::specs::Reading::vertex_of_words))]
fn all(alloc: Global, words: &[u64]) -> Result<VertexHolder, Unread>
    ensures gives { Gives (λ vertex. vertex) result (vertex_of_words words.now) }
    ensures words { IsWords words.now }
{
    let mut rest = words;
    let id = read_number(&mut rest)?;
    let next = read_number(&mut rest)?;
    let label_count = read_number(&mut rest)?;
    let prop_count = read_number(&mut rest)?;
    let edge_count = read_number(&mut rest)?;
    let labels = read_rising(alloc, label_count, &mut rest)?;
    let props = read_rising(alloc, prop_count, &mut rest)?;
    let edges = read_rising(alloc, edge_count, &mut rest)?;
    if !rest.is_empty() {
        return Err(Unread::NotSpelled);
    }
    Ok(VertexHolder {
        id,
        next,
        labels,
        props,
        edges,
    })
}
