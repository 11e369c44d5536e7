ghost use Rattle.std.specs.Prelude.{◌≡◌, ◌++◌, List, length, map, MatchResult};
ghost use Rattle.gdi_kinds.specs.declared.value.Value.{Value as AValue};
ghost use Rattle.text_words.specs.Forms.{texts};
ghost use Rattle.bulk_load.specs.Fields.{SpellColumns, FirstWrong, some_values};
ghost use Rattle.bulk_load.specs.Rows.{puts};
ghost use Rattle.bulk_load.specs.Stops.{OrNoMemory};

use crate::column::Column;
use crate::owner::Owner;
use crate::stop::Stop;
use crate::values::put_field;
use gdi_kinds::CallList;
use std::alloc::Global;

/// Puts the calls behind `calls` that give its owner the values of a record's fields, one field a column.
pub(crate) fn put_columns(
    alloc: Global,
    owner: Owner,
    columns: &[Column],
    fields: &[&[u8]],
    calls: &mut CallList,
) -> Result<(), Stop>
    requires { length columns.now ≡ length fields.now }
    ensures { MatchResult result
        (λ _. (values : List (List AValue)) × SpellColumns columns.now (texts fields.now) values × (calls.new ≡ calls.old ++ puts owner columns.now values))
        (OrNoMemory (FirstWrong (map some_values columns.now) (texts fields.now))) }
{
    let [column, columns @ ..] = columns else {
        return Ok(());
    };
    let [field, fields @ ..] = fields else {
        unreachable!()
    };
    put_field(alloc, owner, column, field, calls)?;
    put_columns(alloc, owner, columns, fields, calls)
}
