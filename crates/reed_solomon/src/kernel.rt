//! A list that meets every equation of the decoder: the sum of its coefficients times so many syndromes in a row is 0.
//!
//! There are as many equations as wrong octets can be repaired, and one coefficient more, so one such list is not 0.
//! The rows begin as the unit lists. Each equation takes at most one row out: that row times the right factor is added
//! to each other one, so that all of them meet the equation. A row stays 1 at a place of its own, where the others
//! are 0, so the rows that are left at the end are not 0.

ghost use Rattle.std.specs.Prelude.{◌≡◌, ◌≢◌, ◌+◌, ◌*◌, ◌/◌, ◌<◌, ◌≤◌, ℕ, List, length, take, drop, slice_index, All};
ghost use Rattle.std.specs.Prelude.{IfSome, IfNone};
ghost use Rattle.reed_solomon.specs.Kernel.{AddsMultiple, IsBasis, IsMultiple, Meet, dot, row};

use crate::add_multiple::add_multiple;
use crate::code::MOST_CHECK_OCTETS;
use crate::field::{inverse, product};

// One more than the most octets that are repaired.
const MOST_COEFFICIENTS: usize = MOST_CHECK_OCTETS / 2 + 1;

// A list of coefficients, that of the highest power first. With c check octets the first c / 2 + 1 count.
pub type Row = [u8; MOST_COEFFICIENTS];

// A list that meets each equation of the syndromes and is not 0.
pub fn kernel(syndromes: &[u8]) -> Row
    requires { length syndromes.now ≤ 64 }
    ensures meets { (i : ℕ) → i < length syndromes.now / 2
        → dot result (take (length syndromes.now / 2 + 1) (drop i syndromes.now)) ≡ 0 }
    ensures some { (u : ℕ) × (u < length syndromes.now / 2 + 1) × (slice_index result u ≡ 1) }
    ensures size { length result ≡ 33 }
{
    let most = syndromes.len() / 2;
    let mut rows = [[0; MOST_COEFFICIENTS]; MOST_COEFFICIENTS];
    for k in 0..most + 1 {
        rows[k] = unit(k);
    }
    let mut left = most + 1;
    for i in 0..most {
        left = meet(&mut rows, left, &syndromes[i..i + most + 1]);
    }
    copied(&rows[0])
}

// A copy of a row, which is told to have as many coefficients as its type says.
fn copied(row: &Row) -> Row
    ensures same { result ≡ row.now }
    ensures size { length result ≡ 33 }
{
    *row
}

// 1 at one place, and 0 elsewhere.
fn unit(place: usize) -> Row
    requires { place < 33 }
    ensures here { slice_index result place ≡ 1 }
    ensures elsewhere { (u : ℕ) → u ≢ place → slice_index result u ≡ 0 }
{
    let mut row = [0; MOST_COEFFICIENTS];
    row[place] = 1;
    row
}

// One equation more: returns how many rows are left, which meet it.
fn meet(rows: &mut [Row], left: usize, equation: &[u8]) -> usize
    requires count { left ≤ length rows.old }
    requires basis { IsBasis (length equation.now) rows.old left }
    requires width { length equation.now ≤ 33 }
    ensures at_most { result ≤ left }
    ensures at_least { left ≤ result + 1 }
    ensures basis { IsBasis (length equation.now) rows.new result }
    ensures meets { Meet rows.new result equation.now }
    ensures stay { (other : List ℕ) → All (λ x. x < 256) other → Meet rows.old left other → Meet rows.new result other }
{
    let Some(pivot_index) = first_miss(rows, left, equation) else {
        return left;
    };
    let pivot = normal(&rows[pivot_index], equation);
    let last = left - 1;
    rows[pivot_index] = rows[last];
    for m in 0..last {
        rows[m] = cleared(&rows[m], &pivot, equation);
    }
    last
}

// The first row that does not meet an equation.
fn first_miss(rows: &[Row], left: usize, equation: &[u8]) -> Option<usize>
    requires count { left ≤ length rows.now }
    requires width { length equation.now ≤ 33 }
    ensures some { IfSome result (λ k. (k < left) × (dot (row rows.now k) equation.now ≢ 0)) }
    ensures none { IfNone result (Meet rows.now left equation.now) }
{
    for k in 0..left {
        if dot(&rows[k], equation) != 0 {
            return Some(k);
        }
    }
    None
}

// A row times the factor with which its sum in an equation is 1.
fn normal(row: &Row, equation: &[u8]) -> Row
    requires some { dot row.now equation.now ≢ 0 }
    requires width { length equation.now ≤ 33 }
    ensures multiple { IsMultiple row.now result }
    ensures one { dot result equation.now ≡ 1 }
{
    let mut multiple = [0; MOST_COEFFICIENTS];
    add_multiple(&mut multiple, inverse(dot(row, equation)), row);
    multiple
}

// A row and the multiple of the pivot with which it meets an equation.
fn cleared(row: &Row, pivot: &Row, equation: &[u8]) -> Row
    requires one { dot pivot.now equation.now ≡ 1 }
    requires width { length equation.now ≤ 33 }
    ensures adds { AddsMultiple pivot.now row.now result }
    ensures meets { dot result equation.now ≡ 0 }
{
    let mut sum = *row;
    add_multiple(&mut sum, dot(row, equation), pivot);
    sum
}

// The sum of the products of coefficients and syndromes.
pub fn dot(coefficients: &[u8], syndromes: &[u8]) -> u8
    requires { length syndromes.now ≤ length coefficients.now }
    ensures { result ≡ dot coefficients.now syndromes.now }
{
    let mut sum = 0;
    for i in 0..syndromes.len() {
        sum ^= product(coefficients[i], syndromes[i]);
    }
    sum
}
