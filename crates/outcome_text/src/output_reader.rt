ghost use Rattle.std.specs.Prelude.{◌≡◌, [], None, MatchResult, IfOk, OnOk};
ghost use Rattle.gdi_kinds.specs.declared.outcome.Printed.{Printed as APrinted};
ghost use Rattle.outcome_text.specs.Runs.{IsOutput};
ghost use Rattle.outcome_text.specs.WrongLine.{TellsWrongLine, IsAnswered};
ghost use Rattle.outcome_text.specs.Reading.{IsPassed, is_open, lines_in, line_from, outcome_from};

use crate::line_words::whole_line;
use crate::said::{Ending, Head, Said};
use crate::said_reader::said_by;
use gdi_kinds::{Line, LineList, NoMemory, Outcome, Printed, ReplyList};
use std::alloc::Global;

/// Why a text is refused as an output.
#[derive(Clone, Copy, Debug, PartialEq, Eq)]
pub enum OutputRefused {
    /// The first wrong line, counted from 1: no run prints the lines up to it and it. A last line without LF is always
    /// wrong. Where the last line of an output is missing, the end of the text counts as one line more.
    Bad { line: u64 },
    NoMemory,
}

impl From<NoMemory> for OutputRefused {
    ghost use Rattle.std.specs.Prelude.{◌≡◌};
    ghost use Rattle.outcome_text.specs.declared.output_reader.OutputRefused.TheVariants.{NoMemory as OutOfMemory};

    ghost from_gives = { λ _ refused. refused ≡ OutOfMemory };

    fn from(_refused: NoMemory) -> OutputRefused {
        OutputRefused::NoMemory
    }
}

/// The run whose text these bytes are. `Bad` tells the first wrong line.
///
/// The text of a run is refused for memory alone.
pub fn read_outcomes(alloc: Global, bytes: &[u8]) -> Result<Printed, OutputRefused>
    ensures read { MatchResult result (IsOutput bytes.now) (TellsWrongLine bytes.now) }
    ensures whole { (run : APrinted) → IsOutput bytes.now run → IsAnswered run result }
{
    let mut reader = Reader::new(alloc);
    let mut words = Vec::new(alloc);
    let mut rest = bytes;
    let mut number = 1u64;
    while let Some((line, after)) = whole_line(rest) {
        match reader.pass(alloc, line, &mut words)? {
            Passed::On => {}
            Passed::Ends(writes) => {
                if !after.is_empty() {
                    return Err(OutputRefused::Bad { line: number + 1 });
                }
                return Ok(reader.finish(alloc, writes)?);
            }
            Passed::Wrong => return Err(OutputRefused::Bad { line: number }),
        }
        number += 1;
        rest = after;
    }
    Err(OutputRefused::Bad { line: number })
}

// What became of a line.
#[derive(Clone, Copy, Debug, PartialEq, Eq)]
enum Passed {
    On,
    /// It is the last one, with the number of entries.
    Ends(u64),
    Wrong,
}

// What has been read.
#[derive(Drop)]
struct Reader {
    /// The outcomes whose replies are all read.
    lines: LineList,
    /// The outcome behind them.
    head: Option<Head>,
    /// Its replies so far.
    replies: ReplyList,
}

impl Reader {
    fn new(alloc: Global) -> Reader
        ensures { result ≡ record { lines = []; head = None; replies = [] } }
    {
        Reader {
            lines: LineList::new(alloc),
            head: None,
            replies: ReplyList::new(alloc),
        }
    }

    // Goes on with a line, unless it is the last one or wrong.
    fn pass<'a>(
        &mut self,
        alloc: Global,
        line: &'a [u8],
        words: &mut Vec<&'a [u8]>,
    ) -> Result<Passed, NoMemory>
        ensures { IfOk result (λ passed. IsPassed self.old line.now passed self.new) }
    {
        match said_by(alloc, line, words)? {
            None => Ok(Passed::Wrong),
            Some(Said::Writes(writes)) => Ok(Passed::Ends(writes)),
            Some(Said::Head(head)) => {
                self.close(alloc)?;
                self.head = Some(head);
                Ok(Passed::On)
            }
            Some(Said::Reply(reply)) => {
                if !self.is_open() {
                    return Ok(Passed::Wrong);
                }
                self.replies.push(reply)?;
                Ok(Passed::On)
            }
        }
    }

    // Whether a reply may stand next.
    fn is_open(&self) -> bool
        ensures { result ≡ is_open self.now.head }
    {
        match self.head {
            Some(head) => matches!(head.ending, Ending::Wrote(_) | Ending::Read(_)),
            None => false,
        }
    }

    // Puts the outcome that is open, where one is, behind the others.
    fn close(&mut self, alloc: Global) -> Result<(), NoMemory>
        ensures { OnOk result (self.new ≡ record { lines = lines_in self.old; head = None; replies = [] }) }
    {
        let replies = std::mem::replace(&mut self.replies, ReplyList::new(alloc));
        let open = self.head;
        self.head = None;
        match open {
            Some(head) => self.lines.push(line_from(head, replies)),
            None => Ok(()),
        }
    }

    // The run, where the last line has been read.
    fn finish(mut self, alloc: Global, writes: u64) -> Result<Printed, NoMemory>
        ensures { IfOk result (λ run. run ≡ record { lines = lines_in self; writes = writes }) }
    {
        self.close(alloc)?;
        Ok(Printed {
            lines: self.lines,
            writes,
        })
    }
}

// The line of an outcome with its replies.
fn line_from(head: Head, replies: ReplyList) -> Line
    ensures { result ≡ line_from head replies }
{
    Line {
        section: head.section,
        txn: head.txn,
        outcome: outcome_from(head.ending, replies),
    }
}

fn outcome_from(ending: Ending, replies: ReplyList) -> Outcome
    ensures { result ≡ outcome_from ending replies }
{
    match ending {
        Ending::Wrote(k) => Outcome::Wrote { k, replies },
        Ending::Read(place) => Outcome::Read { place, replies },
        Ending::Aborted => Outcome::Aborted,
        Ending::Full { rank, place } => Outcome::Full { rank, place },
    }
}
