// The archive for C and Rust: the functions of `piet_c` under their C names, each with its clauses. A crate is a library
// or an archive, and not both.
#![tactic(auto)]

ghost use Rattle.interpreter.specs.Outcome.{result_cells};
ghost use Rattle.machine.specs.Held as held;
ghost use Rattle.machine.specs.Machine.{asks};
ghost use Rattle.picture.specs.Picture.{picture};
ghost use Rattle.piet.specs.RunPicture.{asked, lends};
ghost use Rattle.piet_c.specs.Calls.{ClassifyCall, LabelCall, BuildCall, table_room, ForeverCall, RunCall, ReadP6Call, WriteP6Call, HistoryCall, recording, picture_cells, PictureCall, VisitsCall};
ghost use Rattle.piet_c.specs.Exported.{Exported};
ghost use Rattle.visits.specs.Outcome as counting;

// `piet_c::piet_classify`.
#[unsafe(no_mangle)]
pub extern "C" fn piet_classify(
    pixels: &[u8],
    height: usize,
    width: usize,
    setting: u8,
    colours: &mut [u8],
    answer: &mut [u64],
) -> u32
    ensures { Exported 2 (ClassifyCall pixels.now height width setting colours.old) colours.old answer.old result colours.new answer.new }
{
    piet_c::piet_classify(pixels, height, width, setting, colours, answer)
}

// `piet_c::piet_label`.
#[unsafe(no_mangle)]
pub extern "C" fn piet_label(
    colour: u8,
    row: usize,
    column: usize,
    out: &mut [u8],
    answer: &mut [u64],
) -> u32
    ensures { Exported 1 (LabelCall colour row column out.old) out.old answer.old result out.new answer.new }
{
    piet_c::piet_label(colour, row, column, out, answer)
}

// `piet_c::piet_build`.
#[unsafe(no_mangle)]
pub extern "C" fn piet_build(
    colours: &[u8],
    height: usize,
    width: usize,
    codel: usize,
    edition: u32,
    map: &mut [u32],
    rows: &mut [u32],
    exits: &mut [u32],
    work: &mut [u32],
    answer: &mut [u64],
) -> u32
    ensures { Exported 2 (BuildCall edition (picture height width codel colours.now) (table_room map.old rows.old exits.old work.old)) (table_room map.old rows.old exits.old work.old) answer.old result (table_room map.new rows.new exits.new work.new) answer.new }
{
    piet_c::piet_build(
        colours, height, width, codel, edition, map, rows, exits, work, answer,
    )
}

// `piet_c::piet_determine_runs_forever`.
#[unsafe(no_mangle)]
pub extern "C" fn piet_determine_runs_forever(
    n: usize,
    rows: &[u32],
    exits: &[u32],
    answer: &mut [u64],
) -> u32
    ensures { Exported 1 (ForeverCall n rows.now exits.now) tt answer.old result tt answer.new }
{
    piet_c::piet_determine_runs_forever(n, rows, exits, answer)
}

// `piet_c::piet_run`.
#[unsafe(no_mangle)]
pub extern "C" fn piet_run(
    n: usize,
    rows: &[u32],
    exits: &[u32],
    edition: u32,
    limit: u64,
    abstract_mode: bool,
    input: &[u8],
    stack: &mut [i64],
    kinds: &mut [u8],
    values: &mut [i64],
    answer: &mut [u64],
) -> u32
    ensures { Exported result_cells (RunCall n rows.now exits.now (asks edition limit abstract_mode input.now) (held.slices stack.old kinds.old values.old)) (held.slices stack.old kinds.old values.old) answer.old result (held.slices stack.new kinds.new values.new) answer.new }
{
    piet_c::piet_run(
        n,
        rows,
        exits,
        edition,
        limit,
        abstract_mode,
        input,
        stack,
        kinds,
        values,
        answer,
    )
}

// `piet_c::p6::piet_read_p6`.
#[unsafe(no_mangle)]
pub extern "C" fn piet_read_p6(file: &[u8], pixels: &mut [u8], answer: &mut [u64]) -> u32
    ensures { Exported 2 (ReadP6Call file.now pixels.old) pixels.old answer.old result pixels.new answer.new }
{
    piet_c::p6::piet_read_p6(file, pixels, answer)
}

// `piet_c::p6::piet_write_p6`.
#[unsafe(no_mangle)]
pub extern "C" fn piet_write_p6(
    pixels: &[u8],
    height: usize,
    width: usize,
    file: &mut [u8],
    answer: &mut [u64],
) -> u32
    ensures { Exported 1 (WriteP6Call pixels.now height width file.old) file.old answer.old result file.new answer.new }
{
    piet_c::p6::piet_write_p6(pixels, height, width, file, answer)
}

// `piet_c::run_history::piet_history`.
#[unsafe(no_mangle)]
pub extern "C" fn piet_history(
    n: usize,
    rows: &[u32],
    exits: &[u32],
    edition: u32,
    limit: u64,
    abstract_mode: bool,
    input: &[u8],
    stack: &mut [i64],
    kinds: &mut [u8],
    values: &mut [i64],
    taken: &mut [u32],
    answer: &mut [u64],
) -> u32
    ensures { Exported result_cells (HistoryCall n rows.now exits.now (asks edition limit abstract_mode input.now) (recording stack.old kinds.old values.old taken.old)) (recording stack.old kinds.old values.old taken.old) answer.old result (recording stack.new kinds.new values.new taken.new) answer.new }
{
    piet_c::run_history::piet_history(
        n,
        rows,
        exits,
        edition,
        limit,
        abstract_mode,
        input,
        stack,
        kinds,
        values,
        taken,
        answer,
    )
}

// `piet_c::run_picture::piet_run_picture`.
#[unsafe(no_mangle)]
pub extern "C" fn piet_run_picture(
    pixels: &[u8],
    height: usize,
    width: usize,
    setting: u8,
    codel: usize,
    edition: u32,
    limit: u64,
    abstract_mode: bool,
    input: &[u8],
    colours: &mut [u8],
    map: &mut [u32],
    rows: &mut [u32],
    exits: &mut [u32],
    work: &mut [u32],
    stack: &mut [i64],
    kinds: &mut [u8],
    values: &mut [i64],
    answer: &mut [u64],
) -> u32
    ensures { Exported picture_cells (PictureCall (asked pixels.now height width setting codel (asks edition limit abstract_mode input.now)) (lends colours.old map.old rows.old exits.old work.old stack.old kinds.old values.old)) (lends colours.old map.old rows.old exits.old work.old stack.old kinds.old values.old) answer.old result (lends colours.new map.new rows.new exits.new work.new stack.new kinds.new values.new) answer.new }
{
    piet_c::run_picture::piet_run_picture(
        pixels,
        height,
        width,
        setting,
        codel,
        edition,
        limit,
        abstract_mode,
        input,
        colours,
        map,
        rows,
        exits,
        work,
        stack,
        kinds,
        values,
        answer,
    )
}

// `piet_c::run_visits::piet_visits`.
#[unsafe(no_mangle)]
pub extern "C" fn piet_visits(
    n: usize,
    rows: &[u32],
    exits: &[u32],
    edition: u32,
    limit: u64,
    abstract_mode: bool,
    input: &[u8],
    stack: &mut [i64],
    kinds: &mut [u8],
    values: &mut [i64],
    visits: &mut [u64],
    unvisited: &mut [u32],
    answer: &mut [u64],
) -> u32
    ensures { Exported counting.visit_cells (VisitsCall n rows.now exits.now (asks edition limit abstract_mode input.now) (counting.lends stack.old kinds.old values.old visits.old unvisited.old)) (counting.lends stack.old kinds.old values.old visits.old unvisited.old) answer.old result (counting.lends stack.new kinds.new values.new visits.new unvisited.new) answer.new }
{
    piet_c::run_visits::piet_visits(
        n,
        rows,
        exits,
        edition,
        limit,
        abstract_mode,
        input,
        stack,
        kinds,
        values,
        visits,
        unvisited,
        answer,
    )
}
