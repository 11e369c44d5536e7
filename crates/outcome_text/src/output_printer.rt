ghost use Rattle.std.specs.Prelude.{◌≡◌, ◌++◌, ◌∷◌, IfOk, OnOk};
ghost use Rattle.std.specs.List.{flat_map, AllByRecursion};
ghost use Rattle.outcome_text.specs.Runs.{IsLine, IsReply, IsOutputAlone};
ghost use Rattle.outcome_text.specs.Told.{OutcomeIsTold, ReplyIsTold, RunIsTold};
ghost use Rattle.outcome_text.specs.Outputs.{output_text, line_text, reply_line, reply_word, reply_items, items_text};

use crate::items::print_items;
use gdi_kinds::{Bytes, Line, NoMemory, Outcome, Printed, Reply};
use std::alloc::Global;
use text_words::{print_number, print_value};

/// The text of a run: a line for each outcome and each of its replies, and a last one with the number of entries. Where
/// no item of an undirected edge is inward, it is the text of this run alone, and `read_outcomes` gives the run back.
pub fn print_outcomes(alloc: Global, printed: &Printed) -> Result<Bytes, NoMemory>
    ensures text { IfOk result (λ bytes. bytes ≡ output_text printed.now) }
    ensures alone { RunIsTold printed.now → IfOk result (λ bytes. IsOutputAlone bytes printed.now) }
{
    let mut out = Vec::new(alloc);
    for line in printed.lines.as_slice() {
        print_line(&mut out, line)?;
    }
    out.extend_from_slice(b"writes ")?;
    print_number(&mut out, printed.writes)?;
    out.push(b'\n')?;
    Ok(Bytes::from_vec(out))
}

fn print_line(out: &mut Vec<u8>, line: &Line) -> Result<(), NoMemory>
    ensures printed { OnOk result (out.new.items ≡ out.old.items ++ line_text line.now) }
    ensures fits { OnOk result (OutcomeIsTold line.now.outcome → IsLine line.now) }
{
    print_number(out, line.section)?;
    out.push(b'.')?;
    print_number(out, line.txn)?;
    match &line.outcome {
        Outcome::Wrote { k, replies } => {
            out.extend_from_slice(b" w ")?;
            print_number(out, *k)?;
            out.push(b'\n')?;
            print_replies(out, replies.as_slice())
        }
        Outcome::Read { place, replies } => {
            out.extend_from_slice(b" r ")?;
            print_number(out, *place)?;
            out.push(b'\n')?;
            print_replies(out, replies.as_slice())
        }
        Outcome::Aborted => Ok(out.extend_from_slice(b" aborted\n")?),
        Outcome::Full { rank, place } => {
            out.extend_from_slice(b" full ")?;
            print_number(out, u64::from(*rank))?;
            out.push(b' ')?;
            print_number(out, *place)?;
            Ok(out.push(b'\n')?)
        }
    }
}

fn print_replies(out: &mut Vec<u8>, replies: &[Reply]) -> Result<(), NoMemory>
    ensures printed { OnOk result (out.new.items ≡ out.old.items ++ flat_map reply_line replies.now) }
    ensures fit { OnOk result (AllByRecursion (λ reply. ReplyIsTold reply → IsReply reply) replies.now) }
{
    for reply in replies {
        out.push(b' ')?;
        out.extend_from_slice(word_of_reply(reply))?;
        print_reply_items(out, reply)?;
        out.push(b'\n')?;
    }
    Ok(())
}

fn word_of_reply(reply: &Reply) -> &'static [u8]
    ensures { result.now ≡ reply_word reply.now }
{
    match reply {
        Reply::Done => b"done",
        Reply::Yes => b"yes",
        Reply::No => b"no",
        Reply::Exists => b"exists",
        Reply::NoVertex(_) => b"novertex",
        Reply::NoEdge => b"noedge",
        Reply::NoLabel => b"nolabel",
        Reply::NoType => b"notype",
        Reply::NoProp => b"noprop",
        Reply::WrongKind => b"wrongkind",
        Reply::NotMany => b"notmany",
        Reply::HasLabel => b"haslabel",
        Reply::LacksLabel => b"lackslabel",
        Reply::TooLarge => b"toolarge",
        Reply::EdgeIs(..) => b"edge",
        Reply::Labels(_) => b"labels",
        Reply::Props(_) => b"props",
        Reply::Value(_) => b"value",
        Reply::Values(_) => b"values",
        Reply::Edges(_) => b"edges",
        Reply::Ids(_) => b"ids",
        Reply::Levels(_) => b"levels",
        Reply::Parts(_) => b"parts",
        Reply::Count(_) => b"count",
    }
}

// Writes what stands behind the word of a reply.
fn print_reply_items(out: &mut Vec<u8>, reply: &Reply) -> Result<(), NoMemory>
    ensures printed { OnOk result (out.new.items ≡ out.old.items ++ items_text (reply_items reply.now)) }
    ensures fits { OnOk result (ReplyIsTold reply.now → IsReply reply.now) }
{
    match reply {
        Reply::NoVertex(n) | Reply::Count(n) => print_items(out, &[*n]),
        Reply::EdgeIs(source, ordinal) => print_items(out, &[*source, *ordinal]),
        Reply::Labels(names) => print_items(out, names.as_slice()),
        Reply::Props(props) => print_items(out, props.as_slice()),
        Reply::Value(value) => {
            out.push(b' ')?;
            print_value(out, value)
        }
        Reply::Values(values) => print_items(out, values.as_slice()),
        Reply::Edges(lines) => print_items(out, lines.as_slice()),
        Reply::Ids(ids) => print_items(out, ids.as_slice()),
        Reply::Levels(pairs) | Reply::Parts(pairs) => print_items(out, pairs.as_slice()),
        _ => Ok(()),
    }
}
