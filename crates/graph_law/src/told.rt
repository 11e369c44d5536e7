use crate::GraphLaw;
use gdi_kinds::{ReplyList, Txn};
use object_words::Carries;

/// The note of a transaction and its replies, which are somebody else's.
#[derive(Drop)]
pub struct Told<'a> {
    pub txn: &'a Txn,
    pub replies: &'a ReplyList,
}

impl<'a> Carries<GraphLaw> for Told<'a> {
    ghost note = { λ told. record { txn = told.txn.now; replies = told.replies.now } };
}
