// What no clause says: that each call succeeds, and values worked out by hand.
ghost use Rattle.std.specs.Prelude.{◌≤◌, ◌^◌, length};

use super::{MatrixError, OrbitMatrix, build};
use df_lang::parse;
use df_subsets::{Block, Point};
use std::alloc::Global;

fn matrix_of(alloc: Global, source: &[u8]) -> Option<OrbitMatrix>
    requires { length source.now ≤ 2 ^ 32 }
{
    let Ok(problem) = parse(alloc, source) else {
        return None;
    };
    build(alloc, &problem).ok()
}

fn error_of(alloc: Global, source: &[u8]) -> Option<MatrixError>
    requires { length source.now ≤ 2 ^ 32 }
{
    let Ok(problem) = parse(alloc, source) else {
        return None;
    };
    build(alloc, &problem).err()
}

// The number of an orbit's column, its entries one decimal digit each, row by row, with 1 before the first.
fn digits(matrix: &OrbitMatrix, orbit: usize) -> u64 {
    let mut digits: u64 = 1;
    for row in 0..matrix.system().rows() {
        if orbit < matrix.orbit_count() {
            let entry = matrix.entry_of_orbit(row, orbit) as u64;
            digits = digits.wrapping_mul(10).wrapping_add(entry);
        }
    }
    digits
}

fn has_orbit(
    matrix: &OrbitMatrix,
    orbit: usize,
    points: &[u8],
    expected: u64,
    column: Option<u32>,
) -> bool {
    if orbit >= matrix.orbit_count() {
        return false;
    }
    let mut block = Block::empty();
    for p in points {
        if *p < 128 {
            block.insert(Point(*p));
        }
    }
    matrix.orbit_block(orbit) == block
        && digits(matrix, orbit) == expected
        && matrix.kept(orbit) == column
}

// Z7: 0 1 3 and 0 1 5 have each difference once.
#[test]
fn plane(rt: HostRuntime) {
    let matrix = matrix_of(rt.alloc(), b"group 7\nk 3\nlambda 1\n").expect(&rt, "a matrix");
    assert_eq!(rt; matrix.system().rows(), 3);
    assert_eq!(rt; matrix.orbit_count(), 5);
    assert_eq!(rt; matrix.system().columns(), 2);
    assert!(rt; has_orbit(&matrix, 0, &[0, 1, 2], 1210, None));
    assert!(rt; has_orbit(&matrix, 1, &[0, 1, 3], 1111, Some(0)));
    assert!(rt; has_orbit(&matrix, 2, &[0, 1, 4], 1102, None));
    assert!(rt; has_orbit(&matrix, 3, &[0, 1, 5], 1111, Some(1)));
    assert!(rt; has_orbit(&matrix, 4, &[0, 2, 4], 1021, None));
}

// 9 points: the triples of 0 3 6 are three, and each of its pairs lies in one.
#[test]
fn short_orbit(rt: HostRuntime) {
    let matrix = matrix_of(rt.alloc(), b"group 9\nk 3\nlambda 1\n").expect(&rt, "a matrix");
    assert_eq!(rt; matrix.orbit_count(), 10);
    assert_eq!(rt; matrix.system().columns(), 7);
    assert!(rt; has_orbit(&matrix, 9, &[0, 3, 6], 10010, Some(6)));
}

#[test]
fn two_sizes(rt: HostRuntime) {
    let matrix = matrix_of(rt.alloc(), b"version 2\ngroup 6\nk 2 3\nlambda 1\n").expect(
        &rt, "a matrix",
    );
    assert_eq!(rt; matrix.system().rows(), 3);
    assert_eq!(rt; matrix.orbit_count(), 7);
    assert_eq!(rt; matrix.system().columns(), 4);
    assert!(rt; has_orbit(&matrix, 6, &[0, 3], 1001, Some(3)));
    let matrix = matrix_of(
        rt.alloc(),
        b"version 2\ngroup 6\nk 2 3\nlambda 1\nrequire 0 2 4\n",
    )
    .expect(&rt, "a matrix");
    assert_eq!(rt; matrix.system().rows(), 4);
    assert_eq!(rt; matrix.pair_rows(), 3);
    assert_eq!(rt; matrix.orbit_count(), 7);
    assert_eq!(rt; matrix.system().columns(), 4);
    assert!(rt; has_orbit(&matrix, 0, &[0, 1], 11000, Some(0)));
    assert!(rt; has_orbit(&matrix, 6, &[0, 3], 10010, Some(3)));
}

// 8 residues and a fixed point: 0 1 3 and 0 1 6 have the differences 1, 2 and 3 once, and the four triples of i, i + 4 and the fixed point have the rest.
#[test]
fn fixed_point(rt: HostRuntime) {
    let matrix = matrix_of(rt.alloc(), b"group 8\nfixed 1\nk 3\nlambda 1\n").expect(
        &rt, "a matrix",
    );
    assert_eq!(rt; matrix.system().rows(), 5);
    assert_eq!(rt; matrix.pair_rows(), 5);
    for (row, q) in [(0, 1), (1, 2), (2, 3), (3, 4), (4, 8)] {
        assert!(rt; row < matrix.pair_rows());
        let pair = matrix.row_pair(row);
        assert!(rt; pair.0 == Point(0) && pair.1 == Point(q));
    }
    assert_eq!(rt; matrix.orbit_count(), 11);
    assert_eq!(rt; matrix.system().columns(), 3);
    assert!(rt; has_orbit(&matrix, 1, &[0, 1, 3], 111100, Some(0)));
    assert!(rt; has_orbit(&matrix, 4, &[0, 1, 6], 111100, Some(1)));
    assert!(rt; has_orbit(&matrix, 5, &[0, 1, 8], 110002, None));
    assert!(rt; has_orbit(&matrix, 10, &[0, 4, 8], 100011, Some(2)));
}

// 74,974,368 blocks of 6 of 64 points.
#[test]
fn many_blocks(rt: HostRuntime) {
    let error = error_of(rt.alloc(), b"group 64\nk 6\nlambda 1\n");
    assert!(rt;
        error
            == Some(MatrixError::TooManySubsets {
                points: 64,
                size: 6
            })
    );
}

// 74,974,368 blocks of 6 and 621,216,192 blocks of 7 of 64 points.
#[test]
fn many_summed_blocks(rt: HostRuntime) {
    let error = error_of(rt.alloc(), b"version 2\ngroup 64\nk 6 7\nlambda 1\n");
    let sum = 696190560;
    assert!(rt; error == Some(MatrixError::TooManySummed { points: 64, sum }));
}

// Each triple of 75 points is an orbit: 2,775 rows make too many entries too, but the columns are judged first.
#[test]
fn many_columns(rt: HostRuntime) {
    let error = error_of(rt.alloc(), b"group 75\nshift none\nk 3\nlambda 1\n");
    assert!(rt; error == Some(MatrixError::TooManyColumns { found: 67525 }));
}

// 1,770 rows of 34,220 columns, in version 1 and in version 2.
#[test]
fn many_entries(rt: HostRuntime) {
    let error = error_of(rt.alloc(), b"group 60\nshift none\nk 3\nlambda 1\n");
    let (rows, columns) = (1770, 34220);
    assert!(rt; error == Some(MatrixError::TooLarge { rows, columns }));
    let matrix = matrix_of(
        rt.alloc(),
        b"version 2\ngroup 60\nshift none\nk 3\nlambda 1\n",
    );
    assert_eq!(rt; matrix.expect(&rt, "a matrix").system().columns(), 34220);
}
