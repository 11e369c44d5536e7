ghost use Rattle.std.specs.Prelude.{◌≡◌, ◌≤◌, true, false, IfOk, IsTrue, MatchResult, length, nat_lt};
ghost use Rattle.std.specs.List.{insert};
ghost use Rattle.graph_model.specs.Maps.{add, has, take_out};
ghost use Rattle.holder_codec.specs.Order.{is_rising};
ghost use Rattle.holder_codec.specs.Vertex.{IsVertexHolder};
ghost use Rattle.held_objects.specs.Changes.{IfMade};
ghost use Rattle.vertex_ops.specs.Holders.{with_label, without_label};

use gdi_kinds::{NoMemory, Reply, U32List};
use held_objects::Change;
use holder_codec::VertexHolder;

/// Where a label stands among others, or else where it would stand.
fn position_of(labels: &[u32], label: u32) -> Result<usize, usize>
    requires { IsTrue (is_rising nat_lt labels.now) }
    ensures { MatchResult result
        (λ i. has labels.now label ≡ true)
        (λ i. (i ≤ length labels.now) × (has labels.now label ≡ false) × (insert labels.now i label ≡ add label labels.now)) }
{
    labels.binary_search_by_key(&label, |one| *one)
}

/// A vertex with a label more, in its place.
pub(crate) fn with_label(holder: VertexHolder, label: u32) -> Result<Change<VertexHolder>, NoMemory>
    requires { IsVertexHolder holder }
    ensures made { IfOk result (λ change. change ≡ with_label label holder) }
    ensures is { IfOk result (IfMade IsVertexHolder) }
{
    let VertexHolder {
        id,
        next,
        labels,
        props,
        edges,
    } = holder;
    match position_of(labels.as_slice(), label) {
        Ok(_) => Ok(Change::Refused(Reply::HasLabel)),
        Err(place) => {
            let mut labels = labels.into_vec();
            labels.insert(place, label)?;
            let labels = U32List::from_vec(labels);
            Ok(Change::Made(VertexHolder {
                id,
                next,
                labels,
                props,
                edges,
            }))
        }
    }
}

/// A vertex without a label.
pub(crate) fn without_label(holder: VertexHolder, label: u32) -> Change<VertexHolder>
    requires { IsVertexHolder holder }
    ensures made { result ≡ without_label label holder }
    ensures is { IfMade IsVertexHolder result }
{
    let VertexHolder {
        id,
        next,
        labels,
        props,
        edges,
    } = holder;
    if position_of(labels.as_slice(), label).is_err() {
        return Change::Refused(Reply::LacksLabel);
    }
    let labels = left_out(labels, label);
    Change::Made(VertexHolder {
        id,
        next,
        labels,
        props,
        edges,
    })
}

fn left_out(labels: U32List, label: u32) -> U32List
    ensures { result ≡ take_out label labels }
{
    let mut labels = labels.into_vec();
    labels.retain(|one| *one != label);
    U32List::from_vec(labels)
}
