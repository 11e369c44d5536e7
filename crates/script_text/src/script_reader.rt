ghost use Rattle.std.specs.Prelude.{◌≡◌, List, [], MatchResult, OnOk};
ghost use Rattle.gdi_kinds.specs.declared.txn.Txn.{Txn as ATxn};
ghost use Rattle.script_text.specs.Scripts.{Spells};
ghost use Rattle.script_text.specs.Faults.{IsWrongLine, IsOpen, OrNoMemory, start};
ghost use Rattle.script_text.specs.Reading.{TakesLine, PassesLine, StopsAt, TellsFault, IsAnswered, refused_at, with_step, script_at};

use crate::bytes::is_skipped;
use crate::line_reader::step_of;
use crate::place::{Place, Stage};
use crate::step::Step;
use crate::stop::Stop;
use gdi_kinds::{CallList, NoMemory, Script, Section, Txn};
use std::alloc::Global;
use text_words::first_line;

/// Why a text is refused as a script.
#[derive(Clone, Copy, Debug, PartialEq, Eq)]
pub enum ScriptRefused {
    /// The first wrong line, counted from 1 with the skipped ones and the end of the file as one more, and its kind:
    ///
    /// | Kind | What is wrong |
    /// |---|---|
    /// | 1 | it isn't UTF-8, or has a control byte |
    /// | 2 | its first word is none that a script has |
    /// | 3 | the word can't stand here; or the file ends in a transaction |
    /// | 6 | a quoted word isn't closed or ill spelled |
    /// | 4 | the words aren't of the line's form |
    /// | 5, 6, 7 | the leftmost misspelled word should be a number, a value, a name |
    /// | 8 | a limit is passed |
    ///
    /// The kinds are tried in the order of this table.
    Bad { line: u64, kind: u32 },
    NoMemory,
}

impl From<NoMemory> for ScriptRefused {
    ghost use Rattle.std.specs.Prelude.{◌≡◌};
    ghost use Rattle.script_text.specs.declared.script_reader.ScriptRefused.TheVariants.{NoMemory as OutOfMemory};

    ghost from_gives = { λ _ refused. refused ≡ OutOfMemory };

    fn from(_refused: NoMemory) -> ScriptRefused {
        ScriptRefused::NoMemory
    }
}

/// The script that a text spells. `Bad` tells the first wrong line and its kind.
///
/// A text that spells a script is refused for memory alone.
pub fn read_script(alloc: Global, bytes: &[u8]) -> Result<Script, ScriptRefused>
    ensures read { MatchResult result (Spells bytes.now) (TellsFault bytes.now) }
    ensures whole { (script : List (List ATxn)) → Spells bytes.now script → IsAnswered script result }
{
    let mut reader = Reader::new(alloc);
    let mut words = Vec::new(alloc);
    let mut rest = bytes;
    let mut number = 1u64;
    while !rest.is_empty() {
        let (line, after) = first_line(rest);
        if let Err(stop) = reader.pass(alloc, line, &mut words) {
            return Err(refused_at(number, stop));
        }
        number += 1;
        rest = after;
    }
    match reader.finish() {
        Ok(script) => Ok(script),
        Err(stop) => Err(refused_at(number, stop)),
    }
}

// How the text is refused where reading stops at a line.
fn refused_at(line: u64, stop: Stop) -> ScriptRefused
    ensures { result ≡ refused_at line stop }
{
    match stop {
        Stop::Bad(kind) => ScriptRefused::Bad { line, kind },
        Stop::NoMemory => ScriptRefused::NoMemory,
    }
}

// What has been read.
#[derive(Drop)]
struct Reader {
    place: Place,
    /// The sections in front of the last one.
    sections: Script,
    /// The transactions of the last section that are closed.
    txns: Section,
    /// The calls of the open transaction.
    calls: CallList,
}

impl Reader {
    fn new(alloc: Global) -> Reader
        ensures { result ≡ record { place = start; sections = []; txns = []; calls = [] } }
    {
        Reader {
            place: Place::START,
            sections: Script::new(alloc),
            txns: Section::new(alloc),
            calls: CallList::new(alloc),
        }
    }

    // Goes on with a line. After a refusal the reader is of no more use.
    fn pass<'a>(
        &mut self,
        alloc: Global,
        line: &'a [u8],
        words: &mut Vec<&'a [u8]>,
    ) -> Result<(), Stop>
        ensures { MatchResult result (λ _. PassesLine self.old line.now self.new) (OrNoMemory (StopsAt self.old.place line.now)) }
    {
        if is_skipped(line) {
            return Ok(());
        }
        match self.take(alloc, line, words) {
            Ok(()) => Ok(()),
            Err(Stop::Bad(kind)) => Err(Stop::Bad(kind)),
            Err(Stop::NoMemory) => Err(Stop::NoMemory),
        }
    }

    // Goes on with a line that counts. After a refusal the reader is of no more use.
    fn take<'a>(
        &mut self,
        alloc: Global,
        line: &'a [u8],
        words: &mut Vec<&'a [u8]>,
    ) -> Result<(), Stop>
        ensures { MatchResult result (λ _. TakesLine self.old line.now self.new) (OrNoMemory (IsWrongLine self.old.place line.now)) }
    {
        let step = step_of(alloc, self.place.stage, line, words)?;
        if !self.place.is_within(&step) {
            return Err(Stop::Bad(8));
        }
        let place = self.place.after(&step);
        self.add(alloc, step)?;
        self.place = place;
        Ok(())
    }

    // Puts a step to what has been read, apart from its place.
    fn add(&mut self, alloc: Global, step: Step) -> Result<(), NoMemory>
        ensures { OnOk result (self.new ≡ with_step self.old.place.stage self.old step) }
    {
        match step {
            Step::Section => {
                if let Stage::Section = self.place.stage {
                    let txns = std::mem::replace(&mut self.txns, Section::new(alloc));
                    self.sections.push(txns)?;
                }
                Ok(())
            }
            Step::Begin { .. } => {
                self.calls = CallList::new(alloc);
                Ok(())
            }
            Step::Does(call) => self.calls.push(call),
            Step::Close { aborts } => {
                let whole = matches!(self.place.stage, Stage::Txn { whole: true });
                let calls = std::mem::replace(&mut self.calls, CallList::new(alloc));
                self.txns.push(Txn {
                    whole,
                    calls,
                    aborts,
                })
            }
        }
    }

    // The script, at the end of the text.
    fn finish(self) -> Result<Script, Stop>
        ensures { MatchResult result
            (λ script. (script ≡ script_at self.place.stage self) × ¬ IsOpen self.place.stage)
            (OrNoMemory (λ kind. IsOpen self.place.stage × (kind ≡ 3))) }
    {
        let mut sections = self.sections;
        match self.place.stage {
            Stage::Outside => Ok(sections),
            Stage::Section => {
                sections.push(self.txns)?;
                Ok(sections)
            }
            Stage::Txn { .. } => Err(Stop::Bad(3)),
        }
    }
}
