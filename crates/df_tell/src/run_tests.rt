// Texts of runs that were worked out by hand, written to a sink in memory.
ghost use Rattle.std.specs.Prelude.{◌≡◌, ◌<◌};

use crate::{RunEnd, Shown, write_run};
use arrayvec::ArrayVec;
use df_design::{Designs, Rules};
use df_dossier::read_spent;
use df_io::MemSink;
use df_lang::parse;
use df_matrix::{OrbitMatrix, build};
use df_steps::Steps;
use std::alloc::Global;
use std::marker::Brand;
use std::process::Abort;
use std::sync::ledger::{Blank, Ledger};

// The plane of 7 points with its group of translations.
const PLANE: &[u8] = b"group 7\nk 3\nlambda 1\n";

// The head and the source lines of its dossiers.
const HEAD: &str = "dossier 2
source 6
group 7
fixed 0
shift all
k 3
lambda 1
hole 1
from 0
";

// The text of a run from the empty path, and how it ended.
fn text_of<L: Ledger>(
    rt: &impl Abort,
    alloc: Global,
    matrix: &OrbitMatrix,
    budget: u64,
    shown: Shown,
    blank: Blank,
) -> Option<(Vec<u8>, RunEnd)>
    requires name { blank.name ≡ L.name }
    requires parts { blank.parts ≡ L.parts }
    requires some { 0 < blank.parts }
{
    let mut steps = Steps::<L>::new(blank);
    let mut out = MemSink::new(alloc, 2000, ArrayVec::new()).expect(rt, "memory");
    match Designs::start(alloc, matrix, Rules::Divisor, &mut steps) {
        Ok(mut designs) => {
            let problem = matrix.problem();
            let rules = Rules::Divisor;
            let end = write_run(
                problem,
                &mut designs,
                rules,
                budget,
                shown,
                &mut out,
                &mut steps,
            );
            Some((out.bytes, end.ok()?))
        }
        Err(_) => None,
    }
}

// The same of the planes of 7 points.
fn plane_text(
    rt: &impl Abort,
    alloc: Global,
    budget: u64,
    shown: Shown,
) -> Option<(Vec<u8>, RunEnd)> {
    let problem = parse(alloc, PLANE).expect(rt, "a problem");
    let matrix = build(alloc, &problem).expect(rt, "a matrix");
    text_of::<Brand>(rt, alloc, &matrix, budget, shown, Blank::new(1))
}

// The run ends so, and its text is the head and these lines.
fn assert_run(rt: &impl Abort, alloc: Global, budget: u64, shown: Shown, end: RunEnd, lines: &str) {
    let (text, ended) = plane_text(rt, alloc, budget, shown).expect(rt, "a text");
    assert_eq!(rt; ended, end);
    let (head, rest) = text.split_at_checked(HEAD.len()).expect(rt, "a head");
    assert_eq!(rt; head, HEAD.as_bytes());
    assert_eq!(rt; rest, lines.as_bytes());
}

const LOG: Shown = Shown {
    log: true,
    blocks: false,
};

const SILENT: Shown = Shown {
    log: false,
    blocks: false,
};

const BLOCKS: Shown = Shown {
    log: false,
    blocks: true,
};

#[test]
fn the_planes_of_7_points_are_logged(rt: HostRuntime) {
    let lines = "branch 0
settled
design 0 1 3
branch 1
settled
design 0 1 5
under 0
end finished designs 2 nodes 4
";
    assert_run(&rt, rt.alloc(), 4, LOG, RunEnd::Finished, lines);
    assert_run(&rt, rt.alloc(), 1_000, LOG, RunEnd::Finished, lines);
}

#[test]
fn a_spent_run_ends_with_its_next_path(rt: HostRuntime) {
    let two = "branch 0
settled
design 0 1 3
end spent designs 1 nodes 2 next 1
";
    assert_run(&rt, rt.alloc(), 2, LOG, RunEnd::Spent, two);
    let three = "branch 0
settled
design 0 1 3
branch 1
end spent designs 1 nodes 3 next 2 1
";
    assert_run(&rt, rt.alloc(), 3, LOG, RunEnd::Spent, three);
    let none = "end spent designs 0 nodes 0 next 0\n";
    assert_run(&rt, rt.alloc(), 0, LOG, RunEnd::Spent, none);
    assert_run(&rt, rt.alloc(), 0, SILENT, RunEnd::Spent, none);
}

#[test]
fn a_silent_run_has_the_same_designs_and_numbers(rt: HostRuntime) {
    let lines = "design 0 1 3
design 0 1 5
end finished designs 2 nodes 4
";
    assert_run(&rt, rt.alloc(), 4, SILENT, RunEnd::Finished, lines);
    let one = "end spent designs 0 nodes 1 next 1 0\n";
    assert_run(&rt, rt.alloc(), 1, SILENT, RunEnd::Spent, one);
    let three = "design 0 1 3
end spent designs 1 nodes 3 next 2 1
";
    assert_run(&rt, rt.alloc(), 3, SILENT, RunEnd::Spent, three);
}

#[test]
fn the_blocks_of_each_design_stand_after_it(rt: HostRuntime) {
    let lines = "design 0 1 3
# block 0 1 3
# block 0 2 6
# block 0 4 5
# block 1 2 4
# block 1 5 6
# block 2 3 5
# block 3 4 6
design 0 1 5
# block 0 1 5
# block 0 2 3
# block 0 4 6
# block 1 2 6
# block 1 3 4
# block 2 4 5
# block 3 5 6
end finished designs 2 nodes 4
";
    assert_run(&rt, rt.alloc(), 4, BLOCKS, RunEnd::Finished, lines);
}

// The text of a run that was spent is read as the problem, the rules, and the path of this length with these yes columns.
fn assert_read(
    rt: &impl Abort,
    alloc: Global,
    budget: u64,
    shown: Shown,
    length: u32,
    chosen: &[u32],
) {
    let (text, _) = plane_text(rt, alloc, budget, shown).expect(rt, "a text");
    assert!(rt; text.len() <= 2000);
    match read_spent(alloc, &text) {
        Ok(spent) => {
            assert_eq!(rt; spent.problem.lambda, 1);
            assert_eq!(rt; spent.problem.sizes.as_slice(), [3].as_slice());
            assert_eq!(rt; spent.rules, Rules::Divisor);
            assert_eq!(rt; spent.path.length(), length);
            assert_eq!(rt; spent.path.chosen(), chosen);
        }
        Err(_) => assert!(rt; false),
    }
}

#[test]
fn the_text_of_a_spent_run_is_read_back(rt: HostRuntime) {
    let alloc = rt.alloc();
    for shown in [LOG, SILENT, BLOCKS] {
        assert_read(&rt, alloc, 0, shown, 0, &[]);
        assert_read(&rt, alloc, 1, shown, 1, &[0]);
        assert_read(&rt, alloc, 2, shown, 1, &[]);
        assert_read(&rt, alloc, 3, shown, 2, &[1]);
    }
}
