// Each call of a run refused in turn.
use crate::tests::{Case, run};
use crate::tests_reports::TREE;
use luo_top::Status;
use std::test::Fail;

/// How many bytes a sink takes at a time.
const MOST: usize = 7;

const REPORT: &[u8] = b"universe unlabelled\n\
    leaf(z) = 1\n\
    node(z) = z\n\
    tree(z) = leaf(z) + node(z)*tree(z)*tree(z)\n\
    tau[size](z) = node(z)*tree(z)*tree(z) + tau[size](z)*node(z)*tree(z) + tau[size](z)*node(z)*tree(z)\n\
    tau[path](z) = tau[size](z)*node(z)*tree(z) + tau[size](z)*node(z)*tree(z) + tau[path](z)*node(z)*tree(z) + tau[path](z)*node(z)*tree(z)\n\
    analyze path on tree\n\
    0 1 0 0\n\
    1 1 0 0\n\
    2 2 2 1\n\
    3 5 14 14/5\n\
    4 14 74 37/7\n";

const WHOLE: Case<'static> = Case {
    text: TREE,
    words: &["analyse", "a.adl", "4"],
    piece: 64,
    reads_fail: &[],
    most: MOST,
    writes_fail: &[],
    lines_fail: &[],
    status: Status::Done,
    out: REPORT,
    err: b"",
};

// The file is found, and 349 bytes come in six reads of 64 bytes at most; the last read finds none.
#[test]
fn each_read_may_fail(rt: HostRuntime) -> Result<(), Fail> {
    for call in 0..8 {
        let refused = Case {
            reads_fail: &[call],
            status: Status::ReadFault,
            out: b"",
            err: b"read fault\n",
            ..WHOLE
        };
        run(&rt, rt.alloc(), &refused)?;
    }
    let behind = Case {
        reads_fail: &[8],
        ..WHOLE
    };
    run(&rt, rt.alloc(), &behind)
}

// The 396 bytes of the report are taken in 57 writes.
#[test]
fn each_write_may_fail(rt: HostRuntime) -> Result<(), Fail> {
    let mut taken = 0;
    for call in 0..57 {
        assert!(rt; taken <= REPORT.len());
        let refused = Case {
            writes_fail: &[call],
            status: Status::WriteFault,
            out: &REPORT[..taken],
            err: b"write fault\n",
            ..WHOLE
        };
        run(&rt, rt.alloc(), &refused)?;
        taken += MOST;
    }
    let cases = [
        Case {
            writes_fail: &[57],
            ..WHOLE
        },
        Case {
            words: &["run", "a.adl", "walk", "a0"],
            lines_fail: &[0],
            status: Status::Refused,
            out: b"",
            ..WHOLE
        },
    ];
    for case in &cases {
        run(&rt, rt.alloc(), case)?;
    }
    Ok(())
}
