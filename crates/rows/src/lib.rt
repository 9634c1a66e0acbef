// Rows of numbers of one width, one after the other.
#![tactic(auto)]

pub mod instants;
pub mod numbers;

ghost use Rattle.std.specs.Prelude.{◌≡◌, ◌++◌, ◌+◌, ◌*◌, ◌≤◌, length, take};
ghost use Rattle.rows.specs.Rows.{row, row_bytes};

use crate::numbers::Number;
use std::array::from_fn;

// A row of a length that is known, as an array.
pub fn row_at<N: Number, const L: usize>(from: &[u8], at: usize) -> [N; L]
    requires { at + N.WIDTH * L ≤ length from.now }
    ensures { N.numbers result ≡ row L N.WIDTH at from.now }
{
    from_fn(
        |k|
            requires { at + N.WIDTH * (k + 1) ≤ length from.now }
        { N::get(from, at + N::WIDTH * k) },
    )
}

// The numbers of a row that begins at a place.
pub fn get_row<N: Number>(from: &[u8], at: usize, out: &mut [N])
    requires { at + N.WIDTH * length out.old ≤ length from.now }
    ensures { N.numbers out.new ≡ row (length out.old) N.WIDTH at from.now }
{
    for (k, number) in out.iter_mut().enumerate() {
        *number = N::get(from, at + N::WIDTH * k);
    }
}

// The bytes of a row stand from a place on; what is before it stays.
pub fn put_row<N: Number>(to: &mut [u8], at: usize, row: &[N])
    requires { at + N.WIDTH * length row.now ≤ length to.old }
    ensures { take (at + N.WIDTH * length row.now) to.new ≡ take at to.old ++ row_bytes N.WIDTH (N.numbers row.now) }
{
    for (k, number) in row.iter().enumerate() {
        number.put(to, at + N::WIDTH * k);
    }
}
