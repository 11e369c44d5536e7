use bulk_load::{LoadFile, LoadRefused, load_txn};
use gdi_kinds::NoMemory;
use map_graph::MapGraph;
use rma_layout::Geometry;
use std::alloc::Global;

// The vertices that files of edges are read behind.
const VERTICES: &str = ":ID,:LABEL,n:int,m:int[]\n1,A,5,1;2\n2,,,\n";

/// Whether a load file is refused at this record by this kind, or is read where both are 0.
pub(crate) fn is_load_refused(
    alloc: Global,
    file: LoadFile,
    text: &[u8],
    row: u64,
    kind: u32,
) -> Result<bool, NoMemory> {
    let mut graph = MapGraph::new(alloc, Geometry::standard());
    if file == LoadFile::Edges {
        match load_txn(LoadFile::Vertices, VERTICES.as_bytes(), &mut graph) {
            Ok(_) => {}
            Err(_) => return Err(NoMemory),
        }
    }
    match load_txn(file, text, &mut graph) {
        Ok(_) => Ok(row == 0 && kind == 0),
        Err(
            LoadRefused::Bad {
                row: told,
                kind: fault,
            },
        ) => Ok(told == row && fault.number() == kind),
        Err(LoadRefused::NoMemory) => Err(NoMemory),
    }
}
