//! Tables over keys of numbers from -1 to 1, which are signs or labels: -1 is Out, 0 is Not, 1 is In.

ghost use Rattle.std.specs.Prelude.{◌≡◌, ◌^◌, length, All, slice_get, Some};
ghost use Rattle.nef_case.specs.Keys.{IsSign, row_of};
ghost use Rattle.nef_case.specs.Between.{between_of};
ghost use Rattle.nef_case.specs.Labels.{and_of, or_of, diff_of, xor_of, interior_of, closure_of};

/// A table with one row for each key of `N` numbers from -1 to 1: `3^N` rows.
#[derive(Drop)]
pub struct CaseTable<'a, const N: usize, T: Copy> {
    rows: &'a [T],
    pub ghost full: { length rows.now ≡ 3 ^ N },
}

impl<'a, const N: usize, T: Copy> CaseTable<'a, N, T> {
    /// The table of exactly `3^N` rows. [`CaseTable::at`] tells which row is that of a key.
    pub fn new(rows: &'a [T]) -> CaseTable<'a, N, T>
        requires full { length rows.now ≡ 3 ^ N }
        ensures rows { result.rows.now ≡ rows.entry.now }
    {
        CaseTable { rows }
    }

    /// The row of the key, whose numbers are from -1 to 1. The row's number is the key in base 3, with digits `key[i] +
    /// 1`, the first digit highest.
    pub fn at(&self, key: &[i8; N]) -> T
        requires signs { All IsSign key.now }
        ensures row { slice_get self.now.rows.now (row_of key.now) ≡ Some result }
    {
        let mut row = 0usize;
        for sign in key {
            row = row * 3 + (*sign + 1) as usize;
        }
        self.rows[row]
    }
}

/// Whether the direction d is strictly passed on the way counterclockwise about the normal n from the source s to the
/// target t, all three on one circle about n. From s to s itself the way is a whole turn. The key has the signs of
/// `n.(s x t)`, `s.t`, `n.(s x d)`, `s.d` and `n.(d x t)`. Where the first two or the next two are both 0, which no
/// directions give, the answer is false.
pub fn between(key: &[i8; 5]) -> bool
    requires signs { All IsSign key.now }
    ensures value { result ≡ between_of key.now }
{
    let rows = rows![
        F F T F F F F F F T T T F F F F F F T T T T T T T T T
        T T T F F F F F F T T T F F F F F F T T T T T T T T T
        T T T T T T F F T T T T F F F F F F T T T T T T T T T
        F F F F F F F F F F F F F F F F F F T T T T T T T T T
        F F F F F F F F F F F F F F F F F F F F F F F F F F F
        T T T T T T T T T T T T F F F F F F T T T T T T T T T
        F F F F F F F F F F F F F F F F F F F F T T T T T T T
        F F F F F F F F F F F F F F F F F F F F F F F F T T T
        F F F F F F F F F F F F F F F F F F F F F F F F F F T
    ];
    CaseTable::<5, bool>::new(&rows).at(key)
}

/// The label of `A and B` from the labels of A and B: Out where one is Out; else In exactly where both are In.
pub fn op_and(key: &[i8; 2]) -> i8
    requires signs { All IsSign key.now }
    ensures label { result ≡ and_of key.now }
{
    let rows = rows![
        O O O
        O N N
        O N I
    ];
    CaseTable::<2, i8>::new(&rows).at(key)
}

/// The label of `A or B` from the labels of A and B: Out where one is Out; else In exactly where one is In.
pub fn op_or(key: &[i8; 2]) -> i8
    requires signs { All IsSign key.now }
    ensures label { result ≡ or_of key.now }
{
    let rows = rows![
        O O O
        O N I
        O I I
    ];
    CaseTable::<2, i8>::new(&rows).at(key)
}

/// The label of `A diff B` from the labels of A and B: Out where one is Out; else In exactly where A is In, B Not.
pub fn op_diff(key: &[i8; 2]) -> i8
    requires signs { All IsSign key.now }
    ensures label { result ≡ diff_of key.now }
{
    let rows = rows![
        O O O
        O N N
        O I N
    ];
    CaseTable::<2, i8>::new(&rows).at(key)
}

/// The label of `A xor B` from the labels of A and B: Out where one is Out; else In exactly where they differ.
pub fn op_xor(key: &[i8; 2]) -> i8
    requires signs { All IsSign key.now }
    ensures label { result ≡ xor_of key.now }
{
    let rows = rows![
        O O O
        O N I
        O I N
    ];
    CaseTable::<2, i8>::new(&rows).at(key)
}

/// The label of an arc in the interior of a set, from its mark and the labels of the faces on both sides: Out where the
/// mark is Out; otherwise In exactly where all three are In.
pub fn arc_interior(key: &[i8; 3]) -> i8
    requires signs { All IsSign key.now }
    ensures label { result ≡ interior_of key.now }
{
    let rows = rows![
        O O O O O O O O O
        N N N N N N N N N
        N N N N N N N N I
    ];
    CaseTable::<3, i8>::new(&rows).at(key)
}

/// The label of an arc in the closure of a set, from its mark and the labels of the faces on both sides: Out where the
/// mark is Out; otherwise In exactly where one of the three is In.
pub fn arc_closure(key: &[i8; 3]) -> i8
    requires signs { All IsSign key.now }
    ensures label { result ≡ closure_of key.now }
{
    let rows = rows![
        O O O O O O O O O
        N N I N N I I I I
        I I I I I I I I I
    ];
    CaseTable::<3, i8>::new(&rows).at(key)
}
