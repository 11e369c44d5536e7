use gdi_kinds::Reply;

/// What a call does with what an object holds.
#[derive(Debug, Drop)]
pub enum Change<H> {
    /// It is left as it is, and this is why.
    Refused(Reply),
    /// The object holds this from now on.
    Made(H),
}
