// The calls of `host` as an archive for a C host: each is `host`'s own, with its statement.
#![tactic(auto)]

ghost use Rattle.std.specs.Prelude.{◌≡◌, length};
ghost use Rattle.meaning.specs.Text.{read, packed};
ghost use Rattle.meaning.specs.Areas.{Wrote};
ghost use Rattle.judge.specs.Desk.{output_into};
ghost use Rattle.host.specs.Told.{VertexTold, LatestTold, TableTold, WriteTold};

#[unsafe(no_mangle)]
pub extern "C" fn tectavirio_text_check(text: &[u8]) -> u32
    ensures { result ≡ packed (read text.now) }
{
    host::tectavirio_text_check(text)
}

#[unsafe(no_mangle)]
pub extern "C" fn tectavirio_judge(
    text: &[u8],
    task: u32,
    vertex: u32,
    budget: u32,
    work: &mut [u32],
    witness: &mut [u16],
    value: &mut u32,
    place: &mut u32,
) -> u8
    ensures { VertexTold text.now task vertex budget work.old witness.old result value.new place.new work.new witness.new }
{
    host::tectavirio_judge(text, task, vertex, budget, work, witness, value, place)
}

#[unsafe(no_mangle)]
pub extern "C" fn tectavirio_latest(
    text: &[u8],
    task: u32,
    vertex: u32,
    budget: u32,
    work: &mut [u32],
    witness: &mut [u16],
    value: &mut u32,
    place: &mut u32,
    finish: &mut u32,
) -> u8
    ensures { LatestTold text.now task vertex budget work.old witness.old result value.new place.new finish.new work.new witness.new }
{
    host::tectavirio_latest(
        text, task, vertex, budget, work, witness, value, place, finish,
    )
}

#[unsafe(no_mangle)]
pub extern "C" fn tectavirio_judge_table(text: &[u8], budget: u32, work: &mut [u32]) -> u64
    ensures { TableTold text.now budget work.old result work.new }
{
    host::tectavirio_judge_table(text, budget, work)
}

#[unsafe(no_mangle)]
pub extern "C" fn tectavirio_write(cells: &[u16], out: &mut [u8]) -> u64
    ensures { WriteTold cells.now out.old result out.new }
{
    host::tectavirio_write(cells, out)
}

#[unsafe(no_mangle)]
pub extern "C" fn tectavirio_desk_output(text: &[u8], out: &mut [u8]) -> usize
    ensures { Wrote (output_into text.now (length out.old)) out.old 0 out.new result }
{
    host::tectavirio_desk_output(text, out)
}
