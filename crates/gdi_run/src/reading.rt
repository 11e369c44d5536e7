ghost use Rattle.std.specs.Prelude.{◌≡◌, None, Some};
ghost use Rattle.std.specs.Option.{option_map};
ghost use Rattle.plain_run.specs.Given.{given};
ghost use Rattle.gdi_run.specs.Commands.{held_in, names_with, texts_in};
ghost use Rattle.gdi_run.specs.Reading.{ReadsFile, ReadsFiles, ReadsGiven};

use crate::{FileKind, Status};
use command_words::Source;
use gdi_io::{ReadRefused, Shelf, read_all};
use gdi_kinds::Bytes;
use plain_run::Texts;
use std::alloc::Global;
use std::marker::Model;

/// What the files of a run hold.
#[derive(Drop)]
pub(crate) struct RunFiles {
    pub(crate) vertices: Option<Bytes>,
    pub(crate) edges: Option<Bytes>,
    pub(crate) script: Bytes,
}

impl Model for RunFiles {
    ghost use Rattle.plain_run.specs.Given.{Given};

    ghost Value = { Given };

    ghost view = { λ files. record { vertices = files.vertices; edges = files.edges; script = files.script } };
}

impl RunFiles {
    /// As the texts of a run.
    pub(crate) fn texts(&self) -> Texts<'_>
        ensures { given result ≡ self.now }
    {
        Texts {
            vertices: text_of(&self.vertices),
            edges: text_of(&self.edges),
            script: self.script.as_slice(),
        }
    }
}

/// What the files of a check hold.
#[derive(Drop)]
pub(crate) struct CheckFiles {
    pub(crate) run: RunFiles,
    pub(crate) output: Bytes,
}

impl Model for CheckFiles {
    ghost use Rattle.gdi_run.specs.Commands.{Held};

    ghost Value = { Held };

    ghost view = { λ files. record { texts = files.run; output = files.output } };
}

fn text_of(bytes: &Option<Bytes>) -> Option<&[u8]>
    ensures { option_map (λ text. text.now) result ≡ bytes.now }
{
    match bytes {
        Some(bytes) => Some(bytes.as_slice()),
        None => None,
    }
}

/// Reads the files of a run: of the vertices and of the edges, where they are given, and of the script.
pub(crate) fn read_files<F: Shelf>(
    alloc: Global,
    shelf: &mut F,
    source: &Source,
    script: &str,
) -> Result<RunFiles, Status>
    ensures { let names = names_with source.now script.now None in
        ReadsFiles (F.told shelf.old) (F.told shelf.new) names (λ files. texts_in files names) result }
{
    let vertices = read_given(alloc, shelf, FileKind::Vertices, source.vertices)?;
    let edges = read_given(alloc, shelf, FileKind::Edges, source.edges)?;
    match read_file(alloc, shelf, FileKind::Script, script) {
        Ok(script) => Ok(RunFiles {
            vertices,
            edges,
            script,
        }),
        Err(status) => Err(status),
    }
}

/// Reads the files of a check: those of a run, and the output.
pub(crate) fn read_check_files<F: Shelf>(
    alloc: Global,
    shelf: &mut F,
    source: &Source,
    script: &str,
    output: &str,
) -> Result<CheckFiles, Status>
    ensures { let names = names_with source.now script.now (Some output.now) in
        ReadsFiles (F.told shelf.old) (F.told shelf.new) names (λ files. held_in files names) result }
{
    let run = read_files(alloc, shelf, source, script)?;
    match read_file(alloc, shelf, FileKind::Output, output) {
        Ok(output) => Ok(CheckFiles { run, output }),
        Err(status) => Err(status),
    }
}

fn read_given<F: Shelf>(
    alloc: Global,
    shelf: &mut F,
    kind: FileKind,
    name: Option<&str>,
) -> Result<Option<Bytes>, Status>
    ensures { ReadsGiven (F.told shelf.old) (F.told shelf.new) kind (option_map (λ text. text.now) name.entry) result }
{
    match name {
        Some(name) => {
            let bytes = read_file(alloc, shelf, kind, name)?;
            Ok(Some(bytes))
        }
        None => Ok(None),
    }
}

fn read_file<F: Shelf>(
    alloc: Global,
    shelf: &mut F,
    kind: FileKind,
    name: &str,
) -> Result<Bytes, Status>
    ensures { ReadsFile (F.told shelf.old) (F.told shelf.new) kind name.now result }
{
    match read_all(alloc, shelf, name) {
        Ok(bytes) => Ok(bytes),
        Err(ReadRefused::Failed) => Err(Status::ReadFault(kind)),
        Err(ReadRefused::TooLong) => Err(Status::TooLong(kind)),
        Err(ReadRefused::NoMemory) => Err(Status::NoMemory),
    }
}
