//! Runs texts of load files and scripts, and prints what each run prints, or why it is refused: scripts alone, scripts on a
//! rank of few blocks, scripts behind loads, and texts with faults. Each run has a graph of its own.
#![tactic(auto)]

use plain_run::{Texts, run_texts};
use rma_layout::Geometry;
use std::alloc::Global;
use std::io::Write;
use std::rt::Files;
use std::{fs, io};

fn main(rt: HostRuntime) -> io::Result<()> {
    run_scripts(&rt, Geometry::standard())?;
    if let Ok(geometry) = Geometry::new(1, 8, 8, 2, 2) {
        run_on_few_blocks(&rt, geometry)?;
    }
    run_loads(&rt, Geometry::standard())?;
    run_faulty(&rt, Geometry::standard())
}

fn run_scripts<R: Files + Alloc<A = Global> + Print>(rt: &R, geometry: Geometry) -> io::Result<()> {
    run(rt, geometry, None, None, "first")?;
    run(rt, geometry, None, None, "nothing")?;
    run(rt, geometry, None, None, "looks")?;
    run(rt, geometry, None, None, "made_twice")?;
    run(rt, geometry, None, None, "aborted")?;
    run(rt, geometry, None, None, "made_again")?;
    run(rt, geometry, None, None, "loop")?;
    run(rt, geometry, None, None, "heavy_edge")?;
    run(rt, geometry, None, None, "name_first")?;
    run(rt, geometry, None, None, "longest_text")?;
    run(rt, geometry, None, None, "sees_before")?;
    run(rt, geometry, None, None, "components")?;
    run(rt, geometry, None, None, "triangle")?;
    run(rt, geometry, None, None, "come_and_go")
}

fn run_on_few_blocks<R: Files + Alloc<A = Global> + Print>(
    rt: &R,
    geometry: Geometry,
) -> io::Result<()> {
    let three = Some("three.vertices");
    let four = Some("four.vertices");
    run(rt, geometry, None, None, "few_blocks")?;
    run(rt, geometry, None, None, "made_again_when_full")?;
    run(rt, geometry, four, None, "looks")?;
    run(rt, geometry, three, Some("heavy.edges"), "looks")?;
    run(rt, geometry, three, None, "numbers_behind_a_load")?;
    run(rt, geometry, four, None, "cut_short")
}

fn run_loads<R: Files + Alloc<A = Global> + Print>(rt: &R, geometry: Geometry) -> io::Result<()> {
    let people = Some("people.vertices");
    let nicknames = Some("nicknames.vertices");
    run(rt, geometry, Some("count.vertices"), None, "two_sections")?;
    run(rt, geometry, people, Some("people.edges"), "people")?;
    run(
        rt,
        geometry,
        nicknames,
        Some("both_ways.edges"),
        "nicknames",
    )?;
    run(rt, geometry, Some("no_records.vertices"), None, "first")?;
    let ties = Some("social.edges");
    run(rt, geometry, Some("social.vertices"), ties, "social")
}

fn run_faulty<R: Files + Alloc<A = Global> + Print>(rt: &R, geometry: Geometry) -> io::Result<()> {
    let edges = Some("people.edges");
    run(rt, geometry, Some("twice.vertices"), edges, "people")?;
    run(rt, geometry, Some("cut.vertices"), edges, "people")?;
    run(
        rt,
        geometry,
        Some("nicknames.vertices"),
        Some("neither_way.edges"),
        "nicknames",
    )?;
    run(rt, geometry, None, edges, "cut_short")?;
    run(rt, geometry, Some("people.vertices"), None, "cut_short")?;
    run(rt, geometry, None, None, "ill_spelled")?;
    run(rt, geometry, None, None, "misplaced")?;
    run(rt, geometry, None, None, "too_long")
}

// Runs the texts of files, and prints what comes of it behind the files' names.
fn run<R: Files + Alloc<A = Global> + Print>(
    rt: &R,
    geometry: Geometry,
    vertices: Option<&str>,
    edges: Option<&str>,
    script: &str,
) -> io::Result<()> {
    let vertex_bytes = read(rt, vertices)?;
    let edge_bytes = read(rt, edges)?;
    let script_bytes = fs::read(rt, script)?;
    print_names(rt, script, vertices, edges)?;
    let texts = Texts {
        vertices: slice_of(&vertex_bytes),
        edges: slice_of(&edge_bytes),
        script: script_bytes.as_slice(),
    };
    match run_texts(rt.alloc(), geometry, &texts) {
        Ok(output) => io::writer(rt).write_all(output.as_slice()),
        Err(refused) => println!(rt; "{refused:?}"),
    }
}

fn print_names<R: Print>(
    rt: &R,
    script: &str,
    vertices: Option<&str>,
    edges: Option<&str>,
) -> io::Result<()> {
    match (vertices, edges) {
        (None, None) => println!(rt; "{script}"),
        (Some(vertices), None) => println!(rt; "{script} on {vertices}"),
        (None, Some(edges)) => println!(rt; "{script} on {edges}"),
        (Some(vertices), Some(edges)) => println!(rt; "{script} on {vertices} {edges}"),
    }
}

fn read<R: Files + Alloc<A = Global>>(rt: &R, name: Option<&str>) -> io::Result<Option<Vec<u8>>> {
    match name {
        Some(name) => Ok(Some(fs::read(rt, name)?)),
        None => Ok(None),
    }
}

fn slice_of(bytes: &Option<Vec<u8>>) -> Option<&[u8]> {
    match bytes {
        Some(bytes) => Some(bytes.as_slice()),
        None => None,
    }
}
