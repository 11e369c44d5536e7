ghost use Rattle.std.specs.Prelude.{IfOk};
ghost use Rattle.holder_codec.specs.EdgeObject.{IsEdgeHolder};
ghost use Rattle.edge_ops.specs.Forming.{IsWanted};

use gdi_kinds::NoMemory;
use holder_codec::{EdgeForm, EdgeHolder};
use object_words::Words;
use rma_layout::MOST_WORDS;
use std::alloc::Global;

/// What an edge with certain labels and properties has at its ends and beside them.
#[derive(Debug, Drop)]
pub(crate) enum Wanted {
    /// This form, and no object.
    Form(EdgeForm),
    /// An object with these words.
    Object(Words),
    /// An object with more words than an object may have.
    TooLarge,
}

/// What an edge with these labels and properties has.
pub(crate) fn wanted_by(alloc: Global, holder: &EdgeHolder) -> Result<Wanted, NoMemory>
    requires { IsEdgeHolder holder.now }
    ensures { IfOk result (IsWanted holder.now) }
{
    if holder.props.len() == 0 {
        match holder.labels.as_slice() {
            [] => return Ok(Wanted::Form(EdgeForm::Plain)),
            [label] => return Ok(Wanted::Form(EdgeForm::Labelled(*label))),
            _ => {}
        }
    }
    let words = holder.write(alloc)?;
    if words.as_slice().len() as u64 > MOST_WORDS {
        return Ok(Wanted::TooLarge);
    }
    Ok(Wanted::Object(words))
}
