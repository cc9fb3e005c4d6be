// The call that keeps a run's exits.
ghost use Rattle.machine.specs.Machine.{asks};
ghost use Rattle.interpreter.specs.Outcome.{result_cells};
ghost use Rattle.piet_c.specs.Exported.{Exported};
ghost use Rattle.piet_c.specs.Calls.{recording, HistoryCall};

use crate::{RUN_ANSWER, put_ran};

// A run over a table in an edition, with the exit of each step in `taken`, as far as there are cells; answer: the values of `piet_run`.
pub fn piet_history(
    n: usize,
    rows: &[u32],
    exits: &[u32],
    edition: u32,
    limit: u64,
    abstract_mode: bool,
    input: &[u8],
    stack: &mut [i64],
    kinds: &mut [u8],
    values: &mut [i64],
    taken: &mut [u32],
    answer: &mut [u64],
) -> u32
    ensures { Exported result_cells (HistoryCall n rows.now exits.now (asks edition limit abstract_mode input.now) (recording stack.old kinds.old values.old taken.old)) (recording stack.old kinds.old values.old taken.old) answer.old result (recording stack.new kinds.new values.new taken.new) answer.new }
{
    if answer.len() < RUN_ANSWER {
        return 4;
    }
    let ran = interpreter::run_history(
        n,
        rows,
        exits,
        edition,
        limit,
        abstract_mode,
        input,
        stack,
        kinds,
        values,
        taken,
    );
    put_ran(answer, ran)
}
