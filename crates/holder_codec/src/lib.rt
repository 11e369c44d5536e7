//! Names, vertices, heavy edges, buckets and objects of the index as the words of an object, and back. Each holder has one
//! spelling.
#![tactic(auto)]

mod bucket_entry;
mod bucket_holder;
mod edge_form;
mod edge_holder;
mod edge_record;
mod held_prop;
mod index_entry;
mod index_holder;
mod item;
mod items;
mod keeps_graph;
mod label;
mod laws;
mod meta_holder;
mod names;
mod part_laws;
mod texts;
mod type_line;
mod unread;
mod values;
mod vertex_holder;
mod words;

pub use bucket_entry::{BucketEntry, BucketList};
pub use bucket_holder::BucketHolder;
pub use edge_form::EdgeForm;
pub use edge_holder::EdgeHolder;
pub use edge_record::{EdgeRecord, EdgeRecords};
pub use held_prop::{HeldProp, HeldProps};
pub use index_entry::{IndexEntry, IndexList};
pub use index_holder::IndexHolder;
pub use keeps_graph::KeepsGraph;
pub use laws::{
    empty_store_represents_empty_graph, sizes_are_lengths, spellings_differ,
    store_represents_one_graph, words_are_counted,
};
pub use meta_holder::MetaHolder;
pub use part_laws::{
    buckets_alone, parts_look_at_their_own_objects, same_contents_represent_the_same,
};
pub use type_line::{TypeLine, TypeList};
pub use vertex_holder::VertexHolder;
