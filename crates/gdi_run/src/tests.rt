use crate::{FileKind, Status, UsageKind, gdi_main};
use gdi_io::{MemShelf, MemSink};
use gdi_kinds::{Bytes, CommandWord, CommandWordList, FileList, NamedBytes, NumList};
use rma_layout::BadGeometry;
use std::alloc::Global;
use std::process::Abort;
use std::test::Fail;

fn bytes_of(alloc: Global, text: &str) -> Result<Bytes, Fail> {
    Ok(Bytes::from_vec(Vec::from_slice(alloc, text.as_bytes())?))
}

fn words_of(alloc: Global, words: &[&str]) -> Result<CommandWordList, Fail> {
    let mut list = CommandWordList::new(alloc);
    for word in words {
        list.push(CommandWord::of(alloc, word)?)?;
    }
    Ok(list)
}

fn words_with(alloc: Global, words: &[&str], options: &[&str]) -> Result<CommandWordList, Fail> {
    let mut list = words_of(alloc, words)?;
    for option in options {
        list.push(CommandWord::of(alloc, option)?)?;
    }
    Ok(list)
}

fn file_of(alloc: Global, name: &str, text: &str) -> Result<NamedBytes, Fail> {
    Ok(NamedBytes {
        name: bytes_of(alloc, name)?,
        bytes: bytes_of(alloc, text)?,
    })
}

// A shelf with these files by name, whose calls of these numbers fail.
fn shelf_with(alloc: Global, files: &[(&str, &str)], fails: &[u64]) -> Result<MemShelf, Fail> {
    let mut list = FileList::new(alloc);
    for (name, text) in files {
        list.push(file_of(alloc, name, text)?)?;
    }
    Ok(MemShelf::new(list, NumList::from_vec(Vec::from_slice(alloc, fails)?)))
}

// What words answer on a shelf, and what they write to a sink that takes so many bytes.
fn answers(
    rt: &impl Abort,
    alloc: Global,
    words: &[&str],
    shelf: &mut MemShelf,
    limit: u64,
    status: Status,
    written: &str,
) -> Result<(), Fail> {
    let words = words_of(alloc, words)?;
    let mut sink = MemSink::new(alloc, limit, NumList::new(alloc));
    let answer = gdi_main(alloc, &words, shelf, &mut sink);
    assert_eq!(rt; answer, status);
    assert_eq!(rt; sink.bytes(), written.as_bytes());
    Ok(())
}

const FIRST: &str = "section\ntxn\nvertex 7\nhas 7\nend\n";

const VERTICES: &str = ":ID,:LABEL,n:int\n1,A,5\n2,,\n3,,\n4,,\n";

const EDGES: &str = ":START_ID,:END_ID,:TYPE\n1,2,KNOWS\n";

const PEOPLE: &str =
    ":ID,:LABEL,name:text,age:int\n1,Person,Ada,36\n2,Person;Author,\"Byron, George\",\n\
    3,Person,Mary,19\n10,Town,London,\n11,Town,Geneva,\n";

const TIES: &str = ":START_ID,:END_ID,:TYPE,since:int\n1,10,LIVES_IN,1830\n2,11,LIVES_IN,1816\n\
    3,11,LIVES_IN,\n2,1,KNOWS,\n3,2,KNOWS,1814\n";

const ASKED: &str =
    "section\nall\nhood 3 1\nlevels 3\nparts\nscan Person where prop age >= 20\nend\n\
    txn\nprops 2\nedges 2 any\nfind Town\nend\n";

const TOLD: &str =
    "1.1 r 2\n ids 2 3 11\n levels 1:2 2:1 3:0 10:3 11:1\n parts 1:5\n ids 1\n1.2 r 2\n\
    \x20props name=\"Byron, George\"\n edges out:2:0:11 out:2:1:1 in:3:1:2\n ids 10 11\nwrites 2\n";

#[test]
fn scripts_run(rt: HostRuntime) -> Result<(), Fail> {
    let alloc = rt.alloc();
    for (script, written) in [
        (FIRST, "1.1 w 0\n done\n yes\nwrites 1\n"),
        ("", "writes 0\n"),
        (
            "section\ntxn\nvertex 7\nend\ntxn\nhas 7\nend\n",
            "1.1 w 0\n done\n1.2 r 1\n yes\nwrites 1\n",
        ),
        (
            "section\ntxn\nvertex 7\nabort\nsection\nall\nvertices\nend",
            "1.1 aborted\n2.1 r 0\n count 0\nwrites 0\n",
        ),
        ("section\nall\nparts\nend\n", "1.1 r 0\n parts\nwrites 0\n"),
    ] {
        let mut shelf = shelf_with(alloc, &[("s", script)], &[])?;
        answers(
            &rt,
            alloc,
            &["run", "s"],
            &mut shelf,
            1000,
            Status::Done,
            written,
        )?;
    }
    Ok(())
}

#[test]
fn loads_are_run_first(rt: HostRuntime) -> Result<(), Fail> {
    let alloc = rt.alloc();
    let script = "section\ntxn\nget 1 n\nedges 1 any\nend\n";
    let files = [("s", script), ("v", VERTICES), ("e", EDGES)];
    let mut shelf = shelf_with(alloc, &files, &[])?;
    let words = ["run", "--edges=e", "s", "--vertices", "v"];
    let written = "1.1 r 2\n value 5\n edges out:1:0:2\nwrites 2\n";
    answers(&rt, alloc, &words, &mut shelf, 1000, Status::Done, written)
}

#[test]
fn bad_files_are_told(rt: HostRuntime) -> Result<(), Fail> {
    let alloc = rt.alloc();
    let files = [
        ("s", FIRST),
        ("bad", "section\ntxn\nvertex 01\nend\n"),
        ("odd", ":ID,:LABEL\n1,\"A\n"),
        ("four", ":ID,:LABEL\n1,\n2,\n3,\n4,\n"),
        ("e", EDGES),
    ];
    let small = [
        "run",
        "--ranks=1",
        "--blocks=8",
        "--words=8",
        "--buckets=2",
        "--slots=2",
        "--vertices=four",
        "s",
    ];
    let bad_vertices = Status::BadLoad {
        file: FileKind::Vertices,
        row: 0,
        kind: 1,
    };
    let bad_edges = Status::BadLoad {
        file: FileKind::Edges,
        row: 1,
        kind: 8,
    };
    let bad_script = Status::BadScript { line: 3, kind: 5 };
    let full = Status::LoadFull {
        file: FileKind::Vertices,
        rank: 0,
    };
    for (words, status) in [
        (["run", "--vertices=odd", "bad"].as_slice(), bad_vertices),
        (["run", "--edges=e", "bad"].as_slice(), bad_edges),
        (["run", "bad"].as_slice(), bad_script),
        (["check", "bad", "s"].as_slice(), bad_script),
        (small.as_slice(), full),
    ] {
        let mut shelf = shelf_with(alloc, &files, &[])?;
        answers(&rt, alloc, words, &mut shelf, 1000, status, "")?;
    }
    Ok(())
}

#[test]
fn faulty_loads_are_told(rt: HostRuntime) -> Result<(), Fail> {
    let alloc = rt.alloc();
    let twice =
        ":ID,:LABEL,name:text,age:int\n1,Person,Ada,36\n2,Person;Author,\"Byron, George\",\n\
        3,Person,Mary,19\n2,Town,London,\n11,Town,Geneva,\n";
    let cut = ":ID,:LABEL,name:text,age:int\n1,Person,Ada,36\n2,Person;Author,\"Byron";
    let nicknames = ":ID,:LABEL,nick:text[]\n1,,a;b\n2,,\n";
    let neither_way = ":START_ID,:END_ID,:TYPE,:UNDIRECTED\n1,2,KNOWS,yes\n";
    for (vertices, edges, file, row, kind) in [
        (twice, TIES, FileKind::Vertices, 4, 3),
        (cut, TIES, FileKind::Vertices, 0, 1),
        (nicknames, neither_way, FileKind::Edges, 1, 7),
    ] {
        let files = [("v", vertices), ("e", edges), ("s", ASKED)];
        let mut shelf = shelf_with(alloc, &files, &[])?;
        let words = ["run", "--vertices=v", "--edges=e", "s"];
        let status = Status::BadLoad { file, row, kind };
        answers(&rt, alloc, &words, &mut shelf, 1000, status, "")?;
    }
    Ok(())
}

#[test]
fn cut_scripts_are_told(rt: HostRuntime) -> Result<(), Fail> {
    let alloc = rt.alloc();
    for (script, line, kind) in [
        ("sec", 1, 2),
        ("section\nal", 2, 2),
        ("section\nall\nhoo", 3, 2),
        ("section\nall\nhood 3", 3, 4),
        ("section\nall\nhood 3 1", 4, 3),
    ] {
        let files = [("v", PEOPLE), ("e", TIES), ("s", script)];
        let mut shelf = shelf_with(alloc, &files, &[])?;
        let words = ["run", "--vertices=v", "--edges=e", "s"];
        let status = Status::BadScript { line, kind };
        answers(&rt, alloc, &words, &mut shelf, 1000, status, "")?;
    }
    Ok(())
}

#[test]
fn each_call_of_a_shelf_can_fail(rt: HostRuntime) -> Result<(), Fail> {
    let alloc = rt.alloc();
    let vertices = Status::ReadFault(FileKind::Vertices);
    let edges = Status::ReadFault(FileKind::Edges);
    let script = Status::ReadFault(FileKind::Script);
    for (call, status, written) in [
        (0, vertices, ""),
        (1, vertices, ""),
        (2, vertices, ""),
        (3, edges, ""),
        (4, edges, ""),
        (5, edges, ""),
        (6, script, ""),
        (7, script, ""),
        (8, script, ""),
        (9, Status::Done, TOLD),
    ] {
        let files = [("v", PEOPLE), ("e", TIES), ("s", ASKED)];
        let mut shelf = shelf_with(alloc, &files, &[call])?;
        let words = ["run", "--vertices=v", "--edges=e", "s"];
        answers(&rt, alloc, &words, &mut shelf, 1000, status, written)?;
    }
    Ok(())
}

#[test]
fn a_sink_takes_as_much_as_it_can(rt: HostRuntime) -> Result<(), Fail> {
    let alloc = rt.alloc();
    let words = words_of(alloc, &["run", "s"])?;
    let whole = "1.1 w 0\n done\n yes\nwrites 1\n".as_bytes();
    for limit in 0..29 {
        let mut shelf = shelf_with(alloc, &[("s", FIRST)], &[])?;
        let mut sink = MemSink::new(alloc, limit, NumList::new(alloc));
        let status = if limit < 28 {
            Status::WriteFault
        } else {
            Status::Done
        };
        assert_eq!(rt;
            gdi_main(alloc, &words, &mut shelf, &mut sink),
            status,
            "{limit}"
        );
        assert_eq!(rt; sink.bytes().len() as u64, limit);
        assert!(rt; whole.starts_with(sink.bytes()), "{limit}");
    }
    Ok(())
}

#[test]
fn a_rank_of_few_blocks_is_full(rt: HostRuntime) -> Result<(), Fail> {
    let alloc = rt.alloc();
    let four =
        "section\ntxn\nvertex 1\nend\ntxn\nvertex 2\nend\ntxn\nvertex 3\nend\ntxn\nvertex 4\nend\n";
    let three = "1.1 w 0\n done\n1.2 w 1\n done\n1.3 w 2\n done\n1.4 full 0 3\nwrites 3\n";
    let dropped =
        "section\ntxn\nvertex 1\nend\ntxn\nvertex 2\nend\ntxn\ndrop 1\nend\ntxn\nvertex 2\nend\n";
    let one = "1.1 w 0\n done\n1.2 full 0 1\n1.3 w 1\n done\n1.4 w 2\n done\nwrites 3\n";
    for (blocks, script, written) in [("8", four, three), ("6", dropped, one)] {
        let mut shelf = shelf_with(alloc, &[("s", script)], &[])?;
        let words = [
            "run",
            "--ranks",
            "1",
            "--blocks",
            blocks,
            "--words",
            "8",
            "--buckets",
            "2",
            "--slots",
            "2",
            "s",
        ];
        answers(&rt, alloc, &words, &mut shelf, 1000, Status::Done, written)?;
    }
    Ok(())
}

#[test]
fn faults_are_answered(rt: HostRuntime) -> Result<(), Fail> {
    let alloc = rt.alloc();
    let files = [("s", FIRST), ("v", VERTICES)];
    let mut shelf = shelf_with(alloc, &files, &[2])?;
    let read = Status::ReadFault(FileKind::Script);
    answers(&rt, alloc, &["run", "s"], &mut shelf, 1000, read, "")?;
    let mut shelf = shelf_with(alloc, &files, &[3])?;
    let read = Status::ReadFault(FileKind::Output);
    answers(&rt, alloc, &["check", "s", "v"], &mut shelf, 1000, read, "")?;
    let mut shelf = shelf_with(alloc, &files, &[1])?;
    let read = Status::ReadFault(FileKind::Vertices);
    answers(
        &rt,
        alloc,
        &["run", "--vertices", "v", "s"],
        &mut shelf,
        1000,
        read,
        "",
    )?;
    let mut shelf = shelf_with(alloc, &files, &[])?;
    answers(
        &rt,
        alloc,
        &["run", "s"],
        &mut shelf,
        10,
        Status::WriteFault,
        "1.1 w 0\n d",
    )
}

#[test]
fn outputs_are_checked(rt: HostRuntime) -> Result<(), Fail> {
    let alloc = rt.alloc();
    let load = ":ID,:LABEL,n:int\n1,,0\n";
    let script = "section\ntxn\nget 1 n\nset 1 n 5\nend\nsection\ntxn\nget 1 n\nset 1 n 9\nend\n";
    let unseen = Status::Illegal {
        clause: 4,
        section: 2,
        txn: 1,
    };
    let bad = Status::BadOutput { line: 1 };
    for (output, status, written) in [
        (
            "1.1 w 1\n value 0\n done\n2.1 w 2\n value 5\n done\nwrites 3\n",
            Status::Done,
            "legal\n",
        ),
        (
            "1.1 w 2\n value 9\n done\n2.1 w 1\n value 0\n done\nwrites 3\n",
            Status::Done,
            "legal\n",
        ),
        (
            "1.1 w 1\n value 0\n done\n2.1 w 2\n value 0\n done\nwrites 3\n",
            unseen,
            "",
        ),
        ("hello", bad, ""),
        ("", bad, ""),
    ] {
        let files = [("v", load), ("s", script), ("o", output)];
        let mut shelf = shelf_with(alloc, &files, &[])?;
        let words = ["check", "--vertices=v", "s", "o"];
        answers(&rt, alloc, &words, &mut shelf, 1000, status, written)?;
    }
    Ok(())
}

#[test]
fn a_section_keeps_its_order(rt: HostRuntime) -> Result<(), Fail> {
    let alloc = rt.alloc();
    let files = [
        ("s", "section\ntxn\nvertex 7\nend\ntxn\nhas 7\nend\n"),
        ("early", "1.1 w 0\n done\n1.2 r 0\n no\nwrites 1\n"),
        ("behind", "1.1 w 0\n done\n1.2 r 1\n yes\nwrites 1\n"),
    ];
    let early = Status::Illegal {
        clause: 3,
        section: 1,
        txn: 2,
    };
    for (output, status, written) in [("early", early, ""), ("behind", Status::Done, "legal\n")] {
        let mut shelf = shelf_with(alloc, &files, &[])?;
        let words = ["check", "s", output];
        answers(&rt, alloc, &words, &mut shelf, 1000, status, written)?;
    }
    Ok(())
}

// What a script prints with these options, where a file `v` of vertices is at hand. The output is checked: it is legal.
fn legal_output(
    rt: &impl Abort,
    alloc: Global,
    options: &[&str],
    vertices: &str,
    script: &str,
) -> Result<String, Fail> {
    let words = words_with(alloc, &["run", "s"], options)?;
    let mut files = FileList::new(alloc);
    files.push(file_of(alloc, "v", vertices)?)?;
    files.push(file_of(alloc, "s", script)?)?;
    let mut shelf = MemShelf::new(files, NumList::new(alloc));
    let mut sink = MemSink::new(alloc, 1_000_000, NumList::new(alloc));
    assert_eq!(rt;
        gdi_main(alloc, &words, &mut shelf, &mut sink),
        Status::Done
    );
    let output = String::from_utf8(Vec::from_slice(alloc, sink.bytes())?)?;
    let words = words_with(alloc, &["check", "s", "o"], options)?;
    let mut files = FileList::new(alloc);
    files.push(file_of(alloc, "v", vertices)?)?;
    files.push(file_of(alloc, "s", script)?)?;
    files.push(file_of(alloc, "o", output.as_str())?)?;
    let mut shelf = MemShelf::new(files, NumList::new(alloc));
    let mut sink = MemSink::new(alloc, 1000, NumList::new(alloc));
    assert_eq!(rt;
        gdi_main(alloc, &words, &mut shelf, &mut sink),
        Status::Done
    );
    assert_eq!(rt; sink.bytes(), "legal\n".as_bytes());
    Ok(output)
}

#[test]
fn vertices_come_and_go(rt: HostRuntime) -> Result<(), Fail> {
    let alloc = rt.alloc();
    let mut script = String::new(alloc);
    for _ in 0..2 {
        script.push_str("section\n")?;
        for _ in 0..1000 {
            script.push_str("txn\nvertex 7\nend\ntxn\ndrop 7\nend\n")?;
        }
    }
    let sizes = [
        "--ranks=2",
        "--blocks=32",
        "--words=8",
        "--buckets=2",
        "--slots=2",
    ];
    let output = legal_output(&rt, alloc, &sizes, "", script.as_str())?;
    for line in output.as_str().lines() {
        if line.starts_with(" ") {
            assert!(rt;
                [" done", " exists", " novertex 7"].contains(&line),
                "{line}"
            );
        }
    }
    assert!(rt; output.as_str().ends_with("\nwrites 4000\n"));
    Ok(())
}

#[test]
fn each_section_is_told(rt: HostRuntime) -> Result<(), Fail> {
    let alloc = rt.alloc();
    let mut script = String::new(alloc);
    for section in 1..4097 {
        let text = format!(in alloc; "section\ntxn\nvertex {section}\nend\n")?;
        script.push_str(text.as_str())?;
    }
    let output = legal_output(&rt, alloc, &[], "", script.as_str())?;
    let mut lines = output.as_str().lines();
    for section in 1..4097 {
        let head = format!(in alloc; "{section}.1 w ")?;
        assert!(rt;
            lines.next().ok_or("a head")?.starts_with(head.as_str()),
            "{section}"
        );
        assert_eq!(rt; lines.next(), Some(" done"));
    }
    assert_eq!(rt; lines.next(), Some("writes 4096"));
    assert_eq!(rt; lines.next(), None);
    Ok(())
}

#[test]
fn each_ordinal_is_given_once(rt: HostRuntime) -> Result<(), Fail> {
    let alloc = rt.alloc();
    let mut script = String::new(alloc);
    for _ in 0..64 {
        script.push_str("section\n")?;
        for _ in 0..4 {
            script.push_str("txn\nedge 1 1\nend\n")?;
        }
    }
    let options = ["--ranks", "64", "--blocks", "1024", "--vertices", "v"];
    let vertex = ":ID,:LABEL\n1,\n";
    let output = legal_output(&rt, alloc, &options, vertex, script.as_str())?;
    for ordinal in 0..256 {
        let reply = format!(in alloc; " edge 1 {ordinal}")?;
        let mut given = false;
        for line in output.as_str().lines() {
            if line == reply.as_str() {
                assert!(rt; !given, "{line} twice");
                given = true;
            }
        }
        assert!(rt; given, "{ordinal}");
    }
    assert!(rt; output.as_str().ends_with("\nwrites 257\n"));
    Ok(())
}

#[test]
fn lists_and_undirected_edges_are_legal(rt: HostRuntime) -> Result<(), Fail> {
    let alloc = rt.alloc();
    let script =
        "section\ntxn\nnewtype n int many\nvertex 1\nadd 1 n 5\nadd 1 n 3\nget 1 n\nprops 1\n\
        vertex 2\nuedge 1 2\nedges 2 any\nnear 2 out\nend\nall\nlevels 2\nend\n";
    let output = legal_output(&rt, alloc, &[], "", script)?;
    let told =
        "1.1 w 0\n done\n done\n done\n done\n values 5 3\n props n=5 n=3\n done\n edge 1 0\n\
        \x20edges und:1:0:2\n ids\n1.2 r 1\n levels 1:1 2:0\nwrites 1\n";
    assert_eq!(rt; output.as_str(), told);
    Ok(())
}

#[test]
fn drills_are_told(rt: HostRuntime) -> Result<(), Fail> {
    let alloc = rt.alloc();
    let tiny = "vertices 1\nedges 2\nparts 1\ndeepest 0\nfull 0\n";
    let small = "vertices 4\nedges 6\nparts 1\ndeepest 2\nfull 0\n";
    let large = "vertices 10000\nedges 15000\nparts 240\ndeepest 6\nfull 0\n";
    // From this seed each draw is the same vertex.
    let heavy = "vertices 10000\nedges 15000\nparts 5001\ndeepest 0\nfull 0\n";
    for (words, limit, status, written) in [
        (["drill", "1", "0"].as_slice(), 1000, Status::Done, tiny),
        (["drill", "4", "1"].as_slice(), 1000, Status::Done, small),
        (
            ["drill", "--", "4", "1"].as_slice(),
            1000,
            Status::Done,
            small,
        ),
        (
            ["drill", "10000", "7"].as_slice(),
            1000,
            Status::Done,
            large,
        ),
        (
            ["drill", "10000", "65536"].as_slice(),
            1000,
            Status::Done,
            heavy,
        ),
        (
            ["drill", "4", "1"].as_slice(),
            10,
            Status::WriteFault,
            "vertices 4",
        ),
    ] {
        let mut shelf = shelf_with(alloc, &[], &[0])?;
        answers(&rt, alloc, words, &mut shelf, limit, status, written)?;
    }
    Ok(())
}

#[test]
fn words_are_told(rt: HostRuntime) -> Result<(), Fail> {
    let alloc = rt.alloc();
    let command = Status::Usage(UsageKind::Command);
    let others = Status::Usage(UsageKind::Words);
    let number = Status::Usage(UsageKind::Number);
    let geometry = Status::Usage(UsageKind::Geometry(BadGeometry::TooManyRanks));
    for (words, status) in [
        (["walk", "s"].as_slice(), command),
        ([].as_slice(), command),
        (["report"].as_slice(), command),
        (["run"].as_slice(), others),
        (["run", "-"].as_slice(), others),
        (["run", ""].as_slice(), others),
        (["run", "s", "s"].as_slice(), others),
        (["run", "-s"].as_slice(), others),
        (
            ["run", "--ranks", "2", "--ranks", "2", "s"].as_slice(),
            others,
        ),
        (["run", "--vertices=", "s"].as_slice(), others),
        (["run", "--ranks", "x", "s"].as_slice(), number),
        (["run", "--ranks=02", "s"].as_slice(), number),
        (["run", "--ranks", "65", "s"].as_slice(), geometry),
        (["check", "s"].as_slice(), others),
        (["check", "--ranks=65", "s", "s"].as_slice(), geometry),
        (["drill", "4"].as_slice(), others),
        (["drill", "--ranks=1", "4", "1"].as_slice(), others),
        (["drill", "0", "1"].as_slice(), number),
        (["drill", "10001", "1"].as_slice(), number),
    ] {
        let mut shelf = shelf_with(alloc, &[("s", FIRST)], &[])?;
        answers(&rt, alloc, words, &mut shelf, 1000, status, "")?;
    }
    Ok(())
}

#[test]
fn two_dashes_end_the_options(rt: HostRuntime) -> Result<(), Fail> {
    let alloc = rt.alloc();
    let mut shelf = shelf_with(alloc, &[("-s", FIRST)], &[])?;
    let written = "1.1 w 0\n done\n yes\nwrites 1\n";
    answers(
        &rt,
        alloc,
        &["run", "--", "-s"],
        &mut shelf,
        1000,
        Status::Done,
        written,
    )
}

#[test]
fn windows_have_a_largest_size(rt: HostRuntime) -> Result<(), Fail> {
    let alloc = rt.alloc();
    let too_many = Status::Usage(UsageKind::Geometry(BadGeometry::TooManyWords));
    for (size, status, written) in [
        ("--words=60", Status::Done, "writes 0\n"),
        ("--words=61", too_many, ""),
    ] {
        let mut shelf = shelf_with(alloc, &[("s", "")], &[])?;
        let words = [
            "run",
            "--ranks=1",
            "--blocks=1048575",
            size,
            "--buckets=64",
            "--slots=16",
            "s",
        ];
        answers(&rt, alloc, &words, &mut shelf, 1000, status, written)?;
    }
    Ok(())
}

#[test]
fn the_longest_file_is_read(rt: HostRuntime) -> Result<(), Fail> {
    let alloc = rt.alloc();
    for (lines, status, written) in [
        (67_108_864, Status::Done, "writes 0\n"),
        (67_108_865, Status::TooLong(FileKind::Script), ""),
    ] {
        let mut files = FileList::new(alloc);
        files.push(NamedBytes {
            name: bytes_of(alloc, "s")?,
            bytes: Bytes::from_vec(vec![in alloc; b'\n'; lines]?),
        })?;
        let mut shelf = MemShelf::new(files, NumList::new(alloc));
        answers(&rt, alloc, &["run", "s"], &mut shelf, 1000, status, written)?;
    }
    Ok(())
}
