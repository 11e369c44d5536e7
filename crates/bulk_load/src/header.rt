use crate::column::Column;
use crate::lead::Lead;
use gdi_kinds::ListOf;

/// The columns of a file.
#[derive(Debug, Drop)]
pub(crate) struct Header {
    pub(crate) lead: Lead,
    pub(crate) columns: ListOf<Column>,
}
