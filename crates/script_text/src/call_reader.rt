ghost use Rattle.std.specs.Prelude.{◌∷◌, MatchResult};
ghost use Rattle.script_text.specs.CallLines.{parts_of, test_of};
ghost use Rattle.text_words.specs.Spelling.{HasAtoms};
ghost use Rattle.script_text.specs.Verbs.{IsCallOf, form_of};
ghost use Rattle.text_words.specs.Forms.{IsWrong, OrMemory, texts};

use crate::verb::Verb;
use gdi_kinds::Call;
use std::alloc::Global;
use text_words::{Wrong, read_fields};

/// The call of a verb that the words behind it spell.
#[tactic(auto, using(crate::proofs::CallLemmas::call_is))]
pub(crate) fn call_of(alloc: Global, verb: Verb, words: &[&[u8]]) -> Result<Call, Wrong>
    ensures { MatchResult result (λ call. IsCallOf verb (texts words.now) call) (OrMemory (IsWrong (form_of verb) (texts words.now))) }
{
    match verb {
        Verb::NewLabel => {
            let (name, ()) = read_fields(alloc, words)?;
            Ok(Call::NewLabel { name })
        }
        Verb::NewType => {
            let (name, (kind, many)) = read_fields(alloc, words)?;
            Ok(Call::NewType { name, kind, many })
        }
        Verb::Vertex => {
            let (id, ()) = read_fields(alloc, words)?;
            Ok(Call::Vertex { id })
        }
        Verb::Has => {
            let (id, ()) = read_fields(alloc, words)?;
            Ok(Call::Has { id })
        }
        Verb::Drop => {
            let (id, ()) = read_fields(alloc, words)?;
            Ok(Call::DropVertex { id })
        }
        Verb::Tag => {
            let (id, (label, ())) = read_fields(alloc, words)?;
            Ok(Call::Tag { id, label })
        }
        Verb::Untag => {
            let (id, (label, ())) = read_fields(alloc, words)?;
            Ok(Call::Untag { id, label })
        }
        Verb::Tags => {
            let (id, ()) = read_fields(alloc, words)?;
            Ok(Call::Tags { id })
        }
        Verb::Set => {
            let (id, (prop, (value, ()))) = read_fields(alloc, words)?;
            Ok(Call::Set { id, prop, value })
        }
        Verb::Add => {
            let (id, (prop, (value, ()))) = read_fields(alloc, words)?;
            Ok(Call::Add { id, prop, value })
        }
        Verb::Get => {
            let (id, (prop, ())) = read_fields(alloc, words)?;
            Ok(Call::Get { id, prop })
        }
        Verb::Unset => {
            let (id, (prop, ())) = read_fields(alloc, words)?;
            Ok(Call::Unset { id, prop })
        }
        Verb::Props => {
            let (id, ()) = read_fields(alloc, words)?;
            Ok(Call::Props { id })
        }
        Verb::Edge => {
            let (source, (target, label)) = read_fields(alloc, words)?;
            Ok(Call::Edge {
                source,
                target,
                label,
            })
        }
        Verb::UEdge => {
            let (source, (target, label)) = read_fields(alloc, words)?;
            Ok(Call::UEdge {
                source,
                target,
                label,
            })
        }
        Verb::Cut => {
            let (source, (ordinal, ())) = read_fields(alloc, words)?;
            Ok(Call::Cut { source, ordinal })
        }
        Verb::Target => {
            let (source, (ordinal, ())) = read_fields(alloc, words)?;
            Ok(Call::Target { source, ordinal })
        }
        Verb::ETag => {
            let (source, (ordinal, (label, ()))) = read_fields(alloc, words)?;
            Ok(Call::ETag {
                source,
                ordinal,
                label,
            })
        }
        Verb::EUntag => {
            let (source, (ordinal, (label, ()))) = read_fields(alloc, words)?;
            Ok(Call::EUntag {
                source,
                ordinal,
                label,
            })
        }
        Verb::ETags => {
            let (source, (ordinal, ())) = read_fields(alloc, words)?;
            Ok(Call::ETags { source, ordinal })
        }
        Verb::ESet => {
            let (source, (ordinal, (prop, (value, ())))) = read_fields(alloc, words)?;
            Ok(Call::ESet {
                source,
                ordinal,
                prop,
                value,
            })
        }
        Verb::EAdd => {
            let (source, (ordinal, (prop, (value, ())))) = read_fields(alloc, words)?;
            Ok(Call::EAdd {
                source,
                ordinal,
                prop,
                value,
            })
        }
        Verb::EGet => {
            let (source, (ordinal, (prop, ()))) = read_fields(alloc, words)?;
            Ok(Call::EGet {
                source,
                ordinal,
                prop,
            })
        }
        Verb::EUnset => {
            let (source, (ordinal, (prop, ()))) = read_fields(alloc, words)?;
            Ok(Call::EUnset {
                source,
                ordinal,
                prop,
            })
        }
        Verb::EProps => {
            let (source, (ordinal, ())) = read_fields(alloc, words)?;
            Ok(Call::EProps { source, ordinal })
        }
        Verb::Edges => {
            let (id, (dir, test)) = read_fields(alloc, words)?;
            Ok(Call::Edges { id, dir, test })
        }
        Verb::Near => {
            let (id, (dir, ())) = read_fields(alloc, words)?;
            Ok(Call::Near { id, dir })
        }
        Verb::Degree => {
            let (id, (dir, ())) = read_fields(alloc, words)?;
            Ok(Call::Degree { id, dir })
        }
        Verb::Find => {
            let (label, test) = read_fields(alloc, words)?;
            Ok(Call::Find { label, test })
        }
        Verb::Hood => {
            let (id, (depth, ())) = read_fields(alloc, words)?;
            Ok(Call::Hood { id, depth })
        }
        Verb::Levels => {
            let (id, ()) = read_fields(alloc, words)?;
            Ok(Call::Levels { id })
        }
        Verb::Parts => {
            let () = read_fields(alloc, words)?;
            Ok(Call::Parts)
        }
        Verb::Scan => {
            let (label, test) = read_fields(alloc, words)?;
            Ok(Call::Scan { label, test })
        }
        Verb::Vertices => {
            let () = read_fields(alloc, words)?;
            Ok(Call::Vertices)
        }
        Verb::Arcs => {
            let () = read_fields(alloc, words)?;
            Ok(Call::Arcs)
        }
    }
}
