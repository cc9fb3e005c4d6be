// Whether a lent table is one of n regions: refusal 10 (rule 12.2).
ghost use Rattle.std.specs.Prelude.{◌≡◌, ◌<◌, ◌≤◌, length};
ghost use Rattle.table.specs.Layout.{rows_room, exits_room};
ghost use Rattle.table.specs.ExitNumber.{largest_in};
ghost use Rattle.interpreter.specs.Table.{any, wrong_mark, wrong_exit, wrong_exits, valid_of};

use base::edition::Edition;
use table::{Field, LARGEST_EXIT, LOST_SLIDE, exits_room, row_cell, rows_room, target_of};

// The most regions that refusal 10 allows.
const MOST_REGIONS: usize = 65536;

// The largest number that stands for something: an exit, or in edition 2 a lost slide.
fn largest_in(edition: Edition) -> u32
    ensures { result ≡ largest_in edition }
{
    match edition {
        Edition::Rust => LARGEST_EXIT,
        Edition::Page => LOST_SLIDE,
    }
}

// Whether an exit is above the largest or has a target not below n. 0 is no exit, and a lost slide reads as target 0.
fn wrong_exit(w: u32, n: usize, largest: u32) -> bool
    requires { 0 < n }
    ensures { result ≡ wrong_exit largest n w }
{
    if largest < w {
        return true;
    }
    if w == 0 {
        return false;
    }
    n <= (target_of(w) as usize)
}

// Whether one of the exits of n regions is wrong.
fn any_wrong_exit(exits: &[u32], n: usize, largest: u32) -> bool
    requires { (0 < n) × (n ≤ 65536) × (exits_room n ≤ length exits.now) }
    ensures { result ≡ any (wrong_exits largest n exits.now) n }
{
    let room = exits_room(n);
    for i in 0..room {
        if wrong_exit(exits[i], n, largest) {
            return true;
        }
    }
    false
}

// Whether one of n node marks is above 1.
fn any_wrong_mark(rows: &[u32], n: usize) -> bool
    requires { (n ≤ 65536) × (rows_room n ≤ length rows.now) }
    ensures { result ≡ any (wrong_mark rows.now) n }
{
    for i in 0..n {
        let mark = rows[row_cell(i, Field::Mark)];
        if 1 < mark {
            return true;
        }
    }
    false
}

// Whether the table is one of n regions: refusal 10 where it is not.
pub fn valid(n: usize, rows: &[u32], exits: &[u32], edition: Edition) -> bool
    ensures { result ≡ valid_of edition n rows.now exits.now }
{
    if n == 0 {
        return false;
    }
    if MOST_REGIONS < n {
        return false;
    }
    if rows.len() < rows_room(n) {
        return false;
    }
    if exits.len() < exits_room(n) {
        return false;
    }
    if any_wrong_mark(rows, n) {
        return false;
    }
    !any_wrong_exit(exits, n, largest_in(edition))
}
