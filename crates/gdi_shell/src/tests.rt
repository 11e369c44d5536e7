use crate::fault::Fault;
use crate::machine::Machine;
use crate::program;
use gdi_run::{FileKind, Status, UsageKind};
use std::fs;
use std::test::Fail;

// The words after the program's name, the number that it ends with, its output and its errors.
const RUNS: [(&[&str], u8, &str, &str); 12] = [
    (
        &["run", "gdi_shell_good.gdi"],
        0,
        "1.1 w 0\n done\n yes\nwrites 1\n",
        "",
    ),
    (&["run", "gdi_shell_empty.gdi"], 0, "writes 0\n", ""),
    (
        &[],
        2,
        "",
        "gdi_shell: usage: run, check, report or drill\n",
    ),
    (
        &["walk", "gdi_shell_good.gdi"],
        2,
        "",
        "gdi_shell: usage: run, check, report or drill\n",
    ),
    (
        &["run"],
        2,
        "",
        "gdi_shell: usage: run, check, report or drill\n",
    ),
    (
        &["run", "-s"],
        2,
        "",
        "gdi_shell: usage: run, check, report or drill\n",
    ),
    (
        &["run", "absent.gdi"],
        3,
        "",
        "gdi_shell: cannot read script\n",
    ),
    (
        &["run", "gdi_shell_bad.gdi"],
        6,
        "",
        "gdi_shell: script line 3 fault 5\n",
    ),
    (
        &["check", "gdi_shell_good.gdi", "gdi_shell_good.out"],
        0,
        "legal\n",
        "",
    ),
    (
        &["check", "gdi_shell_good.gdi", "gdi_shell_wrong.out"],
        9,
        "",
        "gdi_shell: illegal by clause 4 at 1.1\n",
    ),
    (
        &["check", "gdi_shell_good.gdi", "gdi_shell_bad.gdi"],
        11,
        "",
        "gdi_shell: output line 1\n",
    ),
    (
        &["drill", "4", "1"],
        0,
        "vertices 4\nedges 6\nparts 1\ndeepest 2\nfull 0\n",
        "",
    ),
];

#[test]
fn the_program_runs(rt: HostRuntime) -> Result<(), Fail> {
    fs::write(
        &rt,
        "gdi_shell_good.gdi",
        "section\ntxn\nvertex 7\nhas 7\nend\n",
    )?;
    fs::write(&rt, "gdi_shell_empty.gdi", "")?;
    fs::write(&rt, "gdi_shell_bad.gdi", "section\ntxn\nvertex 01\nend\n")?;
    fs::write(
        &rt,
        "gdi_shell_good.out",
        "1.1 w 0\n done\n yes\nwrites 1\n",
    )?;
    fs::write(
        &rt,
        "gdi_shell_wrong.out",
        "1.1 w 0\n done\n no\nwrites 1\n",
    )?;
    for (words, number, output, errors) in RUNS {
        let mut started = vec![in rt.alloc(); "gdi_shell"]?;
        started.extend_from_slice(words)?;
        let machine = Machine::started_with(rt.alloc(), started.as_slice());
        assert_eq!(rt; program(&machine, &rt), number, "{words:?}");
        let printed = machine.printed();
        assert_eq!(rt; printed.0.as_slice(), output.as_bytes(), "{words:?}");
        assert_eq!(rt; printed.1.as_str(), errors, "{words:?}");
    }
    for name in [
        "gdi_shell_good.gdi",
        "gdi_shell_empty.gdi",
        "gdi_shell_bad.gdi",
        "gdi_shell_good.out",
        "gdi_shell_wrong.out",
    ] {
        fs::remove_file(&rt, name)?;
    }
    Ok(())
}

#[test]
fn faults_have_their_lines(rt: HostRuntime) -> Result<(), Fail> {
    let file = FileKind::Vertices;
    for (status, line) in [
        (
            Status::Usage(UsageKind::Words),
            "gdi_shell: usage: run, check, report or drill",
        ),
        (
            Status::ReadFault(FileKind::Script),
            "gdi_shell: cannot read script",
        ),
        (
            Status::TooLong(FileKind::Output),
            "gdi_shell: output is too long",
        ),
        (
            Status::BadLoad {
                file: FileKind::Edges,
                row: 4,
                kind: 3,
            },
            "gdi_shell: edges row 4 fault 3",
        ),
        (
            Status::BadScript { line: 5, kind: 6 },
            "gdi_shell: script line 5 fault 6",
        ),
        (
            Status::LoadFull { file, rank: 2 },
            "gdi_shell: vertices needs more blocks on rank 2",
        ),
        (Status::WriteFault, "gdi_shell: cannot write"),
        (
            Status::Illegal {
                clause: 4,
                section: 2,
                txn: 1,
            },
            "gdi_shell: illegal by clause 4 at 2.1",
        ),
        (Status::NoMemory, "gdi_shell: no memory"),
        (Status::BadOutput { line: 1 }, "gdi_shell: output line 1"),
    ] {
        let fault = Fault::of(status).ok_or("a fault")?;
        let text = format!(in rt.alloc(); "{fault}")?;
        assert_eq!(rt; text.as_str(), line);
    }
    Ok(())
}
