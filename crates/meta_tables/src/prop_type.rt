use gdi_kinds::Kind;

/// A property type by its number.
#[derive(Clone, Copy, Debug, PartialEq, Eq)]
pub struct PropType {
    /// Its place in the list of types, from 0.
    pub number: u32,
    /// What its values are.
    pub kind: Kind,
    /// Whether a property of this type may have more than one value.
    pub many: bool,
}
