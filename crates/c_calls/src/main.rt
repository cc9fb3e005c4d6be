// Calls every function of piet_c by position and prints what is returned, the answer and every lent slice. A swap of two
// parameters in a signature is proved, since its contract is swapped with it; here another text than `stdout` is printed.
//
// One picture is used throughout, but for the file that is read: 3 x 5 pixels in codels of 2, so that its three numbers
// differ. Its codels are
//     red    light blue    cyan
//     red    white         cyan
// and its other pixels are black, but for (2,1), which has none of the twenty colours. No two slices of a call are filled
// alike before it, and no two of one type are of one length.
//     classify       the place of the unknown pixel tells height from width; setting 0 makes it white, 3 black
//     label          a row and a column of unlike digits
//     build          every slice is longer than its room; the map shows the width; edition 3 is refused
//     forever        the rows are too short to be exits
//     run            7 is read and written, a slide leads back, 300 is read: it lies on the stack, and 7 in the values; with
//                    other lines, a count of its own for each reason to skip one: 3 lines are blank, 2 no numbers, 1 is out
//                    of range, and 5 times the input has ended; edition 3 is refused
//     visits         after one step two of the three nodes were entered; edition 3 is refused, and so is the largest limit
//     history        the four exits of the first run: three cells hold the first three, and of six the last two stay; five
//                    regions are refused, for which there are too few rows, and before them edition 3
//     run_picture    as classify, build and run together, with the same lent slices
//     read_p6        a file of 1 x 2 pixels, and one whose last byte is missing; the file has the width first
//     write_p6       the file's text tells height from width; with another height the bytes don't fit
// Each is called once more with too short an answer, which changes nothing.
#![tactic(auto)]

use std::fmt::Display;
use std::io;
use std::io::{BufWriter, Write};

const COLOURS: [u8; 15] = [6, 18, 16, 18, 9, 18, 18, 18, 18, 18, 6, 18, 19, 18, 9];

const ROWS: [u32; 20] = [6, 2, 0, 0, 1, 16, 1, 0, 2, 1, 9, 2, 0, 4, 1, 19, 1, 2, 2, 0];

// Three bytes a pixel; where nothing is said it is black.
fn pixels() -> [u8; 45] {
    let mut pixels = [0u8; 45];
    // (0,0) red, (0,2) light blue, (0,4) cyan
    pixels[0] = 255;
    pixels[6] = 192;
    pixels[7] = 192;
    pixels[8] = 255;
    pixels[13] = 255;
    pixels[14] = 255;
    // (2,0) red, (2,1) unknown, (2,2) white, (2,4) cyan
    pixels[30] = 255;
    pixels[33] = 1;
    pixels[34] = 2;
    pixels[35] = 3;
    pixels[36] = 255;
    pixels[37] = 255;
    pixels[38] = 255;
    pixels[43] = 255;
    pixels[44] = 255;
    pixels
}

// Eight cells a region; the other attempts are not open.
fn exits() -> [u32; 32] {
    let mut exits = [0u32; 32];
    // red: IntIn to light blue, a slide to cyan
    exits[0] = 8388610;
    exits[1] = 65539;
    // light blue: IntOut to cyan, slides to red, Mod to red
    exits[8] = 8912899;
    exits[9] = 8978435;
    exits[10] = 327681;
    exits[11] = 262145;
    exits[12] = 3932161;
    exits[13] = 3997697;
    // cyan: a slide to red, Mul to light blue
    exits[20] = 262145;
    exits[21] = 2949122;
    exits
}

fn print_named<W: Write, T: Display>(out: &mut W, name: &str, items: &[T]) -> io::Result<()> {
    write!(out, "{name}")?;
    stored::print_all(out, items)?;
    out.write_all(b"\n")
}

fn print_returned<W: Write>(
    out: &mut W,
    name: &str,
    number: u32,
    answer: &[u64],
) -> io::Result<()> {
    writeln!(out, "{name} {number}")?;
    print_named(out, "  answer", answer)
}

fn print_table<W: Write>(
    out: &mut W,
    map: &[u32],
    rows: &[u32],
    exits: &[u32],
    work: &[u32],
) -> io::Result<()> {
    print_named(out, "  map", map)?;
    print_named(out, "  rows", rows)?;
    print_named(out, "  exits", exits)?;
    print_named(out, "  work", work)
}

fn print_room<W: Write>(
    out: &mut W,
    stack: &[i64],
    kinds: &[u8],
    values: &[i64],
) -> io::Result<()> {
    print_named(out, "  stack", stack)?;
    print_named(out, "  kinds", kinds)?;
    print_named(out, "  values", values)
}

fn classify<W: Write>(out: &mut W, setting: u8, answer: &mut [u64]) -> io::Result<()> {
    let mut colours = [80u8; 16];
    let pixels = pixels();
    let number = piet_c::piet_classify(&pixels, 3, 5, setting, &mut colours, answer);
    print_returned(out, "piet_classify", number, answer)?;
    print_named(out, "  colours", &colours)
}

fn label<W: Write>(out: &mut W, answer: &mut [u64]) -> io::Result<()> {
    let mut text = [81u8; 24];
    let number = piet_c::piet_label(6, 3, 12, &mut text, answer);
    print_returned(out, "piet_label", number, answer)?;
    print_named(out, "  out", &text)
}

fn build<W: Write>(out: &mut W, edition: u32, answer: &mut [u64]) -> io::Result<()> {
    let mut map = [82u32; 7];
    let mut rows = [83u32; 31];
    let mut exits = [84u32; 49];
    let mut work = [85u32; 8];
    let number = piet_c::piet_build(
        &COLOURS, 3, 5, 2, edition, &mut map, &mut rows, &mut exits, &mut work, answer,
    );
    print_returned(out, "piet_build", number, answer)?;
    print_table(out, &map, &rows, &exits, &work)
}

fn forever<W: Write>(out: &mut W, answer: &mut [u64]) -> io::Result<()> {
    let exits = exits();
    let number = piet_c::piet_determine_runs_forever(4, &ROWS, &exits, answer);
    print_returned(out, "piet_determine_runs_forever", number, answer)
}

fn run<W: Write>(
    out: &mut W,
    edition: u32,
    limit: u64,
    input: &[u8],
    answer: &mut [u64],
) -> io::Result<()> {
    let exits = exits();
    let mut stack = [86i64; 5];
    let mut kinds = [87u8; 3];
    let mut values = [88i64; 4];
    let number = piet_c::piet_run(
        4,
        &ROWS,
        &exits,
        edition,
        limit,
        false,
        input,
        &mut stack,
        &mut kinds,
        &mut values,
        answer,
    );
    print_returned(out, "piet_run", number, answer)?;
    print_room(out, &stack, &kinds, &values)
}

fn visits<W: Write>(out: &mut W, edition: u32, limit: u64, answer: &mut [u64]) -> io::Result<()> {
    let exits = exits();
    let mut stack = [86i64; 5];
    let mut kinds = [87u8; 3];
    let mut values = [88i64; 4];
    let mut visits = [77u64; 7];
    let mut unvisited = [78u32; 6];
    let number = piet_c::run_visits::piet_visits(
        4,
        &ROWS,
        &exits,
        edition,
        limit,
        false,
        b"7\n",
        &mut stack,
        &mut kinds,
        &mut values,
        &mut visits,
        &mut unvisited,
        answer,
    );
    print_returned(out, "piet_visits", number, answer)?;
    print_room(out, &stack, &kinds, &values)?;
    print_named(out, "  visits", &visits)?;
    print_named(out, "  unvisited", &unvisited)
}

fn history<W: Write>(
    out: &mut W,
    n: usize,
    edition: u32,
    taken: &mut [u32],
    answer: &mut [u64],
) -> io::Result<()> {
    let exits = exits();
    let mut stack = [86i64; 5];
    let mut kinds = [87u8; 3];
    let mut values = [88i64; 4];
    let number = piet_c::run_history::piet_history(
        n,
        &ROWS,
        &exits,
        edition,
        4,
        false,
        b"7\n300\n5\n",
        &mut stack,
        &mut kinds,
        &mut values,
        taken,
        answer,
    );
    print_returned(out, "piet_history", number, answer)?;
    print_room(out, &stack, &kinds, &values)?;
    print_named(out, "  taken", taken)
}

fn run_picture<W: Write>(
    out: &mut W,
    edition: u32,
    limit: u64,
    input: &[u8],
    answer: &mut [u64],
) -> io::Result<()> {
    let pixels = pixels();
    let mut colours = [80u8; 16];
    let mut map = [82u32; 7];
    let mut rows = [83u32; 31];
    let mut exits = [84u32; 49];
    let mut work = [85u32; 8];
    let mut stack = [86i64; 5];
    let mut kinds = [87u8; 3];
    let mut values = [88i64; 4];
    let number = piet_c::run_picture::piet_run_picture(
        &pixels,
        3,
        5,
        3,
        2,
        edition,
        limit,
        false,
        input,
        &mut colours,
        &mut map,
        &mut rows,
        &mut exits,
        &mut work,
        &mut stack,
        &mut kinds,
        &mut values,
        answer,
    );
    print_returned(out, "piet_run_picture", number, answer)?;
    print_named(out, "  colours", &colours)?;
    print_table(out, &map, &rows, &exits, &work)?;
    print_room(out, &stack, &kinds, &values)
}

fn read_p6<W: Write>(out: &mut W, file: &[u8], answer: &mut [u64]) -> io::Result<()> {
    let mut pixels = [89u8; 8];
    let number = piet_c::p6::piet_read_p6(file, &mut pixels, answer);
    print_returned(out, "piet_read_p6", number, answer)?;
    print_named(out, "  pixels", &pixels)
}

fn write_p6<W: Write>(out: &mut W, height: usize, answer: &mut [u64]) -> io::Result<()> {
    let pixels = pixels();
    let mut file = [79u8; 58];
    let number = piet_c::p6::piet_write_p6(&pixels, height, 5, &mut file, answer);
    print_returned(out, "piet_write_p6", number, answer)?;
    print_named(out, "  file", &file)
}

// The answers are one cell longer than named, or one shorter.
fn tables<W: Write>(out: &mut W) -> io::Result<()> {
    let mut none = [0u64; 0];
    let mut one = [90u64; 1];
    let mut two = [91u64; 2];
    let mut three = [92u64; 3];
    classify(out, 1, &mut three)?;
    classify(out, 0, &mut three)?;
    classify(out, 3, &mut three)?;
    classify(out, 3, &mut one)?;
    label(out, &mut two)?;
    label(out, &mut none)?;
    build(out, 1, &mut three)?;
    build(out, 3, &mut three)?;
    build(out, 1, &mut one)?;
    forever(out, &mut two)?;
    forever(out, &mut none)
}

// The calls that are refused come first, so that the cells after each are those before all.
fn histories<W: Write>(out: &mut W) -> io::Result<()> {
    let mut eleven = [93u64; 11];
    let mut thirteen = [95u64; 13];
    let mut shorter = [75u32; 3];
    let mut longer = [76u32; 6];
    history(out, 5, 1, &mut longer, &mut thirteen)?;
    history(out, 5, 3, &mut longer, &mut thirteen)?;
    history(out, 5, 3, &mut longer, &mut eleven)?;
    history(out, 4, 1, &mut longer, &mut thirteen)?;
    history(out, 4, 1, &mut shorter, &mut thirteen)
}

fn runs<W: Write>(out: &mut W) -> io::Result<()> {
    let mut eleven = [93u64; 11];
    let mut twelve = [94u64; 12];
    let mut thirteen = [95u64; 13];
    let mut fourteen = [96u64; 14];
    run(out, 1, 4, b"7\n300\n5\n", &mut thirteen)?;
    run(
        out,
        1,
        31,
        b"\n\n\nx\nx\n9223372036854775808\n",
        &mut thirteen,
    )?;
    run(out, 3, 4, b"7\n300\n5\n", &mut thirteen)?;
    run(out, 1, 4, b"7\n300\n5\n", &mut eleven)?;
    visits(out, 1, 1, &mut fourteen)?;
    visits(out, 3, 1, &mut fourteen)?;
    visits(out, 1, 18446744073709551615, &mut fourteen)?;
    visits(out, 1, 1, &mut twelve)?;
    histories(out)?;
    run_picture(out, 1, 4, b"7\n300\n5\n", &mut fourteen)?;
    run_picture(
        out,
        1,
        31,
        b"\n\n\nx\nx\n9223372036854775808\n",
        &mut fourteen,
    )?;
    run_picture(out, 3, 4, b"7\n300\n5\n", &mut fourteen)?;
    run_picture(out, 1, 4, b"7\n300\n5\n", &mut twelve)
}

fn files<W: Write>(out: &mut W) -> io::Result<()> {
    let mut none = [0u64; 0];
    let mut one = [90u64; 1];
    let mut two = [91u64; 2];
    let mut three = [92u64; 3];
    read_p6(out, b"P6 2 1 255\nabcdef", &mut three)?;
    read_p6(out, b"P6 2 1 255\nabcde", &mut three)?;
    read_p6(out, b"P6 2 1 255\nabcdef", &mut one)?;
    write_p6(out, 3, &mut two)?;
    write_p6(out, 4, &mut two)?;
    write_p6(out, 3, &mut none)
}

fn main(rt: HostRuntime) -> io::Result<()> {
    let mut out = BufWriter::new(rt.alloc(), rt.stdout())?;
    tables(&mut out)?;
    runs(&mut out)?;
    files(&mut out)?;
    out.flush()
}
