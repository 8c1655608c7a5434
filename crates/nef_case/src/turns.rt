//! The 48 turns of space: each puts the three axes into one of their six orders, and then negates some new coordinates.
//! The number of a turn is 8 times the number of the order, and 1, 2 and 4 more where the new x, y and z are negated.
//! Of (x, y, z) the orders 0 to 5 make (x, y, z), (x, z, y), (y, x, z), (y, z, x), (z, x, y) and (z, y, x).

ghost use Rattle.std.specs.Prelude.{◌≡◌, ℕ, ◌<◌, ◌^◌, All, nat_abs};
ghost use Rattle.nef_case.specs.Turns.{IsEntry, IsRowOfTurn, Undoes, IsComposition, IsTurnRow, named_by, made_by, numbered, turned};

// The rows of all turns, eight for each order, which is given by the old coordinates that become the new x, y and z.
macro_rules! turn_rows {
    ($($x:literal $y:literal $z:literal)*) => {
        [$(
            [$x, $y, $z],
            [-$x, $y, $z],
            [$x, -$y, $z],
            [-$x, -$y, $z],
            [$x, $y, -$z],
            [-$x, $y, -$z],
            [$x, -$y, -$z],
            [-$x, -$y, -$z]
        ),*]
    };
}

/// The row of the turn with the number `k`, which is below 48: for each new coordinate 1, 2 or 3 for the old x, y or z,
/// negative where negated. `k` is 8 times the number of the order, and 1, 2 and 4 more for negated x, y and z.
pub fn turn_row(k: usize) -> [i8; 3]
    requires turn { k < 48 }
    ensures entries { All IsEntry result }
    ensures row { IsRowOfTurn k result }
    ensures only { (j : ℕ) → j < 48 → IsRowOfTurn j result → j ≡ k }
{
    let rows: [[i8; 3]; 48] = turn_rows![
        1 2 3
        1 3 2
        2 1 3
        2 3 1
        3 1 2
        3 2 1
    ];
    rows[k]
}

/// The coordinate that the entry of a row names, with the entry's sign.
fn coordinate(entry: i8, x: i64, y: i64, z: i64) -> i64
    requires entry { IsEntry entry }
    requires x_small { nat_abs x < 2 ^ 63 }
    requires y_small { nat_abs y < 2 ^ 63 }
    requires z_small { nat_abs z < 2 ^ 63 }
    ensures named { result ≡ named_by entry (x, y, z) }
{
    match entry {
        1 => x,
        -1 => -x,
        2 => y,
        -2 => -y,
        3 => z,
        _ => -z,
    }
}

/// The three coordinates, each less than `2^63` in size, after the turn with this row.
pub fn turned_coordinates(row: &[i8; 3], x: i64, y: i64, z: i64) -> (i64, i64, i64)
    requires entries { All IsEntry row.now }
    requires x_small { nat_abs x < 2 ^ 63 }
    requires y_small { nat_abs y < 2 ^ 63 }
    requires z_small { nat_abs z < 2 ^ 63 }
    ensures made { result ≡ made_by row.now (x, y, z) }
{
    (
        coordinate(row[0], x, y, z),
        coordinate(row[1], x, y, z),
        coordinate(row[2], x, y, z),
    )
}

/// The number of the turn that undoes the turn `k`, which is below 48: one after the other gives back every triple.
pub fn turn_inverse(k: usize) -> usize
    requires turn { k < 48 }
    ensures below { result < 48 }
    ensures undoes { Undoes result k }
    ensures undone { Undoes k result }
    ensures only { (j : ℕ) → j < 48 → Undoes j k → j ≡ result }
{
    let inverses: [usize; 48] = [
        0, 1, 2, 3, 4, 5, 6, 7, //
        8, 9, 12, 13, 10, 11, 14, 15, //
        16, 18, 17, 19, 20, 22, 21, 23, //
        32, 34, 36, 38, 33, 35, 37, 39, //
        24, 28, 25, 29, 26, 30, 27, 31, //
        40, 44, 42, 46, 41, 45, 43, 47,
    ];
    inverses[k]
}

/// The number of the turn that is the turn `k` and then the turn `j`, both below 48. The number is 0, of the turn that
/// moves nothing, where one of both undoes the other.
pub fn turn_compose(j: usize, k: usize) -> usize
    requires later { j < 48 }
    requires earlier { k < 48 }
    ensures below { result < 48 }
    ensures composed { IsComposition result j k }
    ensures only { (i : ℕ) → i < 48 → IsComposition i j k → i ≡ result }
    ensures undone { Undoes j k → result ≡ 0 }
{
    let row = turn_row(k);
    let later = turn_row(j);
    let (x, y, z) = turned_coordinates(&later, row[0] as i64, row[1] as i64, row[2] as i64);
    number_of(x, y, z)
}

/// The number of the turn whose row has these entries.
fn number_of(x: i64, y: i64, z: i64) -> usize
    requires turn { IsTurnRow (x, y, z) }
    ensures below { result < 48 }
    ensures row { turned result numbered ≡ (x, y, z) }
{
    let first = x.unsigned_abs() as usize - 1;
    let order = 2 * first + usize::from(y.unsigned_abs() > z.unsigned_abs());
    let negated = usize::from(x < 0) + 2 * usize::from(y < 0) + 4 * usize::from(z < 0);
    8 * order + negated
}
