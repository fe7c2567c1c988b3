// The library for C: the calls of `capi` under C's calling convention, by their own names (include/pagontxu.h).
#![tactic(auto)]

ghost use Rattle.std.specs.Prelude.{◌≡◌};
ghost use Rattle.capi.specs.Calls.{step_call, line_call, crate_call, list_call};
ghost use Rattle.capi.specs.Windows.{windows_call};

// One step, lent as six words, with four words for its answer: 9, then 8 where too few are lent for either, else as the step.
#[unsafe(no_mangle)]
pub extern "C" fn pagontxu_step(
    memory: &mut [u32],
    step: &[u32],
    answer: &mut [u32],
    buffer: &mut [u32],
) -> u32
    ensures { step_call memory.old step.now answer.old buffer.old
        ≡ record { number = result; memory = memory.new; answer = answer.new; buffer = buffer.new } }
{
    capi::pagontxu_step(memory, step, answer, buffer)
}

// One line of a run file, with four words for its answer: 9, then 8 where fewer are lent, else as the line.
#[unsafe(no_mangle)]
pub extern "C" fn pagontxu_run_line(
    memory: &mut [u32],
    line: &[u8],
    answer: &mut [u32],
    buffer: &mut [u32],
) -> u32
    ensures { line_call memory.old line.now answer.old buffer.old
        ≡ record { number = result; memory = memory.new; answer = answer.new; buffer = buffer.new } }
{
    capi::pagontxu_run_line(memory, line, answer, buffer)
}

// One line of a crate file, after a line for the station `previous` (0 before the first).
#[unsafe(no_mangle)]
pub extern "C" fn pagontxu_crate_line(memory: &mut [u32], previous: u32, line: &[u8]) -> u32
    ensures { crate_call memory.old previous line.now ≡ record { number = result; memory = memory.new } }
{
    capi::pagontxu_crate_line(memory, previous, line)
}

// A list of `count` steps, six words each, with four words of answer and 512 words of buffer a step.
#[unsafe(no_mangle)]
pub extern "C" fn pagontxu_list(
    memory: &mut [u32],
    count: usize,
    steps: &[u32],
    answers: &mut [u32],
    buffers: &mut [u32],
) -> u32
    ensures { list_call memory.old count steps.now answers.old buffers.old
        ≡ record { number = result; memory = memory.new; answers = answers.new; buffers = buffers.new } }
{
    capi::pagontxu_list(memory, count, steps, answers, buffers)
}

// A sheet of up to 64 windows over stations n to `to`, with 16 flag words a station and a word for the count of registers read.
#[unsafe(no_mangle)]
pub extern "C" fn pagontxu_windows(
    memory: &[u32],
    n: u32,
    to: u32,
    sheet: &[u32],
    flags: &mut [u64],
    count: &mut u32,
) -> u32
    ensures { windows_call memory.now n to sheet.now flags.old count.old
        ≡ record { number = result; flags = flags.new; count = count.new } }
{
    capi::pagontxu_windows(memory, n, to, sheet, flags, count)
}
