// One instruction over the lent stack and outputs. The three slices come from C one by one and stay apart, since a struct that
// holds a `&mut` has each function promise that it holds the same one.
#![tactic(auto)]

pub mod output;

ghost use Rattle.std.specs.Prelude.{◌≡◌, ℤ};
ghost use Rattle.flow.specs.Pointer.{Valid};
ghost use Rattle.text.specs.Input.{char_of, int_of, whole_line, char_next};
ghost use Rattle.stack.specs.Stack.{Lies};
ghost use Rattle.machine.specs.Counts.{Countable, one_more, counted};
ghost use Rattle.machine.specs.Machine.{given, JudgedIn, exec, take, take_number, turn, read, op_numbered, status_of};
ghost use Rattle.machine.specs.Held.{slices, Stands, Execs, StackExecs, TurnsBy, at_used, at_pointers, at_wait, at_skips, grown_of, wrote_of};

use base::edition::Edition;
use flow::PointerState;
use stack::Pairing;
use text::input::Taken;
use text::number::Reason;

// The instructions; Nothing is what a slide's or a black region's exit carries.
#[derive(Clone, Copy)]
pub enum Op {
    Nothing,
    Push,
    Pop,
    Pair(Pairing),
    Not,
    Ptr,
    Swi,
    Dup,
    Roll,
    CharIn,
    CharOut,
    IntIn,
    IntOut,
}

// The terms of a run: the edition of the rules, the steps that it may make, and whether it only finds out that input is
// needed.
#[derive(Clone, Copy)]
pub struct Terms {
    pub edition: Edition,
    pub limit: u64,
    pub abstract_mode: bool,
}

// Why a run stops.
#[derive(Clone, Copy)]
pub enum Stop {
    Completed,
    MaxSteps,
    NeedsInput,
    StackFull,
    OutputFull,
    BadInput,
}

// How many number lines were skipped, by the reason (rule 10.9).
#[derive(Clone, Copy)]
pub struct Skips {
    pub ended: u64,
    pub blank: u64,
    pub not_number: u64,
    pub out_of_range: u64,
}

// What was read of the input: the bytes used; awaiting: an input instruction was met in abstract mode; the lines skipped.
#[derive(Clone, Copy)]
pub struct Reading {
    pub used: usize,
    pub awaiting: bool,
    pub skips: Skips,
}

// What an instruction works on, beside the lent slices.
#[derive(Clone, Copy)]
pub struct Core {
    pub pointers: PointerState,
    pub depth: usize,
    pub outputs: usize,
    pub reading: Reading,
}

impl Skips {
    fn one_more(mut self, why: Reason) -> Skips
        requires { Countable self }
        ensures { result ≡ one_more why self }
    {
        match why {
            Reason::Ended => {
                self.ended += 1;
            }
            Reason::Blank => {
                self.blank += 1;
            }
            Reason::NotNumber => {
                self.not_number += 1;
            }
            Reason::OutOfRange => {
                self.out_of_range += 1;
            }
        }
        self
    }

    // The counts after a number line was taken.
    fn after(self, taken: Taken) -> Skips
        requires { Countable self }
        ensures { result ≡ counted taken self }
    {
        match taken {
            Taken::Push { value: _, next: _ } => self,
            Taken::Skip { next: _, why } => self.one_more(why),
            Taken::BadInput => self,
        }
    }
}

impl Core {
    // The same with other pointers.
    pub fn at_pointers(self, pointers: PointerState) -> Core
        ensures { result ≡ at_pointers pointers self }
    {
        Core { pointers, ..self }
    }

    // The same with so many bytes of the input used. Here and in the two below the field is set where it lies: with a
    // struct update of the reading a step takes three times as long.
    fn at_used(mut self, used: usize) -> Core
        ensures { result ≡ at_used used self }
    {
        self.reading.used = used;
        self
    }

    // The same with input awaited.
    fn at_wait(mut self) -> Core
        ensures { result ≡ at_wait self }
    {
        self.reading.awaiting = true;
        self
    }

    // The same with so many number lines skipped.
    fn at_skips(mut self, skips: Skips) -> Core
        ensures { result ≡ at_skips skips self }
    {
        self.reading.skips = skips;
        self
    }
}

// The status of a stop (rules 11.1 to 11.6).
impl From<Stop> for u64 {
    ghost from_gives = { λ stop status. status ≡ status_of stop };

    fn from(stop: Stop) -> u64 {
        match stop {
            Stop::Completed => 1,
            Stop::MaxSteps => 2,
            Stop::NeedsInput => 3,
            Stop::StackFull => 4,
            Stop::OutputFull => 5,
            Stop::BadInput => 6,
        }
    }
}

// The instruction with the number n, 1 to 17 (rule 1.5); every other number is none.
impl From<u32> for Op {
    ghost from_gives = { λ n op. op ≡ op_numbered n };

    fn from(n: u32) -> Op {
        match n {
            1 => Op::Push,
            2 => Op::Pop,
            3 => Op::Pair(Pairing::Add),
            4 => Op::Pair(Pairing::Sub),
            5 => Op::Pair(Pairing::Mul),
            6 => Op::Pair(Pairing::Div),
            7 => Op::Pair(Pairing::Mod),
            8 => Op::Not,
            9 => Op::Pair(Pairing::Gt),
            10 => Op::Ptr,
            11 => Op::Swi,
            12 => Op::Dup,
            13 => Op::Roll,
            14 => Op::CharIn,
            15 => Op::CharOut,
            16 => Op::IntIn,
            17 => Op::IntOut,
            _ => Op::Nothing,
        }
    }
}

// The answer of an instruction that may need a cell more.
fn after_growth(at: Core, grown: Option<usize>) -> Result<Core, Stop>
    ensures { result ≡ grown_of at grown }
{
    match grown {
        Some(depth) => Ok(Core { depth, ..at }),
        None => Err(Stop::StackFull),
    }
}

// The answer of an instruction that may emit.
fn after_output(at: Core, wrote: Option<(usize, usize)>) -> Result<Core, Stop>
    ensures { result ≡ wrote_of at wrote }
{
    match wrote {
        Some((depth, outputs)) => Ok(Core {
            depth,
            outputs,
            ..at
        }),
        None => Err(Stop::OutputFull),
    }
}

// Ptr, Swi: the pointers turned by the top, which is gone.
fn turn<F: Fn(PointerState, i64) -> PointerState>(
    stack: &mut [i64],
    at: Core,
    by: F,
) -> Result<Core, Stop>
    requires lies { Lies stack.old at.depth }
    requires valid { Valid at.pointers }
    requires callable { (z : ℤ) → F.pre by at.pointers z }
    ensures { (f : _) → TurnsBy f at.pointers (F.post by at.pointers) → StackExecs (turn f) stack.old at stack.new result }
{
    let depth = at.depth;
    if depth == 0 {
        return Ok(at);
    }
    let n = stack[depth - 1];
    let d = stack::pop(stack, depth);
    Ok(Core {
        depth: d,
        pointers: by(at.pointers, n),
        ..at
    })
}

// What a line gives: a value to push, a skipped step, or bytes that are not UTF-8. These come first: BadInput is
// answered before StackFull.
fn take(stack: &mut [i64], at: Core, taken: Taken) -> Result<Core, Stop>
    requires lies { Lies stack.old at.depth }
    requires valid { Valid at.pointers }
    ensures { StackExecs (take taken) stack.old at stack.new result }
{
    let depth = at.depth;
    match taken {
        Taken::Push { value, next } => {
            after_growth(at.at_used(next), stack::grow(stack, depth, value))
        }
        Taken::Skip { next, why: _ } => Ok(at.at_used(next)),
        Taken::BadInput => Err(Stop::BadInput),
    }
}

// CharIn: the first character of what is left of a line; in abstract mode nothing is read, and the run is to stop.
fn char_in(terms: Terms, input: &[u8], stack: &mut [i64], at: Core) -> Result<Core, Stop>
    requires lies { Lies stack.old at.depth }
    requires valid { Valid at.pointers }
    requires judged_in { JudgedIn (given terms input.now) at.reading }
    ensures { StackExecs (read (given terms input.now) char_of (char_next terms.edition) take) stack.old at stack.new result }
{
    if terms.abstract_mode {
        return Ok(at.at_wait());
    }
    let used = at.reading.used;
    let edition = terms.edition;
    take(stack, at, text::input::char_in(input, used, edition))
}

// IntIn: the number that a line is, or one skipped line more; in abstract mode nothing is read, and the run is to stop.
fn int_in(terms: Terms, input: &[u8], stack: &mut [i64], at: Core) -> Result<Core, Stop>
    requires lies { Lies stack.old at.depth }
    requires valid { Valid at.pointers }
    requires countable { Countable at.reading.skips }
    ensures { StackExecs (read (given terms input.now) int_of whole_line take_number) stack.old at stack.new result }
{
    if terms.abstract_mode {
        return Ok(at.at_wait());
    }
    let used = at.reading.used;
    let taken = text::input::int_in(input, used);
    let skips = at.reading.skips;
    take(stack, at.at_skips(skips.after(taken)), taken)
}

// One instruction, with the size of the block just left. A match: an instruction comes as a number of a table, which may be
// anyone's, and no function does.
pub fn exec(
    op: Op,
    size: u32,
    terms: Terms,
    input: &[u8],
    stack: &mut [i64],
    kinds: &mut [u8],
    values: &mut [i64],
    at: Core,
) -> Result<Core, Stop>
    requires stands { Stands (slices stack.old kinds.old values.old) at }
    requires countable { Countable at.reading.skips }
    requires judged_in { JudgedIn (given terms input.now) at.reading }
    ensures { Execs (exec (given terms input.now) size op) (slices stack.old kinds.old values.old) at (slices stack.new kinds.new values.new) result }
{
    let d = at.depth;
    let n = at.outputs;
    let edition = terms.edition;
    match op {
        Op::Nothing => Ok(at),
        Op::Push => after_growth(at, stack::grow(stack, d, size as i64)),
        Op::Pop => Ok(Core {
            depth: stack::pop(stack, d),
            ..at
        }),
        Op::Pair(pairing) => Ok(Core {
            depth: stack::pair(stack, d, pairing, edition),
            ..at
        }),
        Op::Not => Ok(Core {
            depth: stack::not(stack, d),
            ..at
        }),
        Op::Ptr => turn(stack, at, PointerState::rotate),
        Op::Swi => turn(stack, at, PointerState::switch),
        Op::Dup => after_growth(at, stack::double(stack, d)),
        Op::Roll => Ok(Core {
            depth: stack::roll(stack, d, edition),
            ..at
        }),
        Op::CharIn => char_in(terms, input, stack, at),
        Op::CharOut => after_output(at, output::char_out(stack, d, kinds, values, n)),
        Op::IntIn => int_in(terms, input, stack, at),
        Op::IntOut => after_output(at, output::int_out(stack, d, kinds, values, n)),
    }
}
