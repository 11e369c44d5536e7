ghost use Rattle.std.specs.Prelude.{◌≡◌, ◌++◌, ◌∷◌, [], ℕ, List, true, IfOk};
ghost use Rattle.std.specs.Bool.{MatchBool};
ghost use Rattle.csv.specs.Records.{fields_of};
ghost use Rattle.text_words.specs.Forms.{texts};
ghost use Rattle.bulk_load.specs.Reading.{HasRead, IsPlain};
ghost use Rattle.bulk_load.specs.Records.{HasRecords};

use csv::{ByteRecord, ErrorKind, Reader};
use gdi_kinds::NoMemory;
use std::alloc::Global;

/// The fields of a record.
pub(crate) fn fields_of<'a>(alloc: Global, row: &'a ByteRecord) -> Result<Vec<&'a [u8]>, NoMemory>
    ensures { IfOk result (λ fields. texts fields.items ≡ fields_of row.now) }
{
    let mut fields = Vec::with_capacity(alloc, row.len())?;
    for i in 0..row.len() {
        let Some(field) = row.get(i) else {
            unreachable!()
        };
        fields.push(field)?;
    }
    Ok(fields)
}

/// Reads the next record of a text into `row`. False: there is none.
///
/// A text in memory is always there to read. Where the reader says that it couldn't, that counts as want of memory.
pub(crate) fn next_record(
    reader: &mut Reader<&[u8]>,
    row: &mut ByteRecord,
) -> Result<bool, NoMemory>
    requires { IsPlain reader.old }
    ensures plain { IfOk result (λ _. IsPlain reader.new) }
    ensures reads { IfOk result (λ found. (bytes : List ℕ) (records : List (List (List ℕ))) → HasRead bytes records reader.old
        → MatchBool found (HasRead bytes (records ++ fields_of row.new ∷ []) reader.new) (HasRecords bytes records)) }
{
    match reader.read_byte_record(row) {
        Ok(found) => Ok(found),
        Err(e) => match e.kind() {
            ErrorKind::Io(_) | ErrorKind::OutOfMemory => Err(NoMemory),
            _ => unreachable!(),
        },
    }
}
