ghost use Rattle.std.specs.Prelude.{◌≡◌, ◌≤◌, ◌^◌, length, IfOk};
ghost use Rattle.gdi_kinds.specs.declared.call.Call.TheVariants as call;
ghost use Rattle.graph_model.specs.Sizes.{words_of_bytes};
ghost use Rattle.map_graph.specs.Plain.{Answers};

use super::MapGraph;
use crate::ModelRefused;
use gdi_kinds::{Kind, Name, Reply};
use graph_parts::HeldType;
use rma_layout::MOST_WORDS;

// The calls that make labels and property types.
impl MapGraph {
    pub(super) fn new_label(&mut self, name: &Name) -> Result<Reply, ModelRefused>
        ensures shape { self.new.shape ≡ self.old.shape }
        ensures answer { IfOk result (Answers self.old (call.NewLabel name.now) self.new) }
    {
        if self.label_number(name).is_some() {
            return Ok(Reply::Exists);
        }
        let words = self.name_words + 1 + words_of_name(name);
        if words + 2 > MOST_WORDS {
            return Ok(Reply::TooLarge);
        }
        self.labels.push(*name)?;
        self.name_words = words;
        Ok(Reply::Done)
    }

    pub(super) fn new_type(
        &mut self,
        name: &Name,
        kind: Kind,
        many: bool,
    ) -> Result<Reply, ModelRefused>
        ensures shape { self.new.shape ≡ self.old.shape }
        ensures answer { IfOk result (Answers self.old (call.NewType name.now kind many) self.new) }
    {
        if self.type_number(name).is_some() {
            return Ok(Reply::Exists);
        }
        let words = self.name_words + 2 + words_of_name(name);
        if words + 2 > MOST_WORDS {
            return Ok(Reply::TooLarge);
        }
        self.types.push(HeldType::new(*name, kind, many))?;
        self.name_words = words;
        Ok(Reply::Done)
    }
}

// The words of a name's bytes.
pub(super) fn words_of_name(name: &Name) -> u64
    ensures value { result ≡ words_of_bytes (length name.now) }
    ensures within { result ≤ 2 ^ 62 }
{
    name.bytes().len().div_ceil(8) as u64
}
