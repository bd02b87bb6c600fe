// What the C archive exports: the functions of `pushdown`, by their names, with their promises.
#![tactic(auto)]

ghost use Rattle.std.specs.Prelude.{◌≡◌};
ghost use Rattle.pushdown.specs.Interface.{version, read_call, solve_with, judge_call, play_call};

#[unsafe(no_mangle)]
pub extern "C" fn pushdown_version() -> u32
    ensures { result ≡ version }
{
    pushdown::pushdown_version()
}

#[unsafe(no_mangle)]
pub extern "C" fn pushdown_read(file: &[u8], out: &mut [u64]) -> u32
    ensures { record { number = result; out = out.new } ≡ read_call file.now out.old }
{
    pushdown::pushdown_read(file, out)
}

#[unsafe(no_mangle)]
pub extern "C" fn pushdown_solve(
    file: &[u8],
    table: &mut [u32],
    work: &mut [u32],
    out: &mut [u64],
) -> u32
    ensures { record { number = result; out = out.new; table = table.new; work = work.new }
        ≡ solve_with file.now table.old work.old out.old }
{
    pushdown::pushdown_solve(file, table, work, out)
}

#[unsafe(no_mangle)]
pub extern "C" fn pushdown_judge(
    file: &[u8],
    table: &[u32],
    position: &[u8],
    out: &mut [u64],
) -> u32
    ensures { record { number = result; out = out.new }
        ≡ judge_call file.now table.now position.now out.old }
{
    pushdown::pushdown_judge(file, table, position, out)
}

#[unsafe(no_mangle)]
pub extern "C" fn pushdown_play(file: &[u8], session: &mut [u8], rule: u32, out: &mut [u64]) -> u32
    ensures { record { number = result; out = out.new; session = session.new }
        ≡ play_call file.now session.old rule out.old }
{
    pushdown::pushdown_play(file, session, rule, out)
}
