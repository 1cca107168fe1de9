// A whole table: the desk's last frame, of the four counts, or its frame of a refused text, as a line.
ghost use Rattle.std.specs.Prelude.{◌≤◌};

use crate::lent::{WORK_CELLS, mark, print_work};
use crate::print::end_line;
use bounds::{COUNTS_LINE, DESK_BUDGET, REFUSAL_LINE};
use counts::Counts;
use desk_frames::{counts_line, refusal_line};
use judge::judge_table;
use kinds::RefusedAt;
use put::Pen;
use sequences::Header;

// The frame without so many of its line's last bytes: without its line feed where more of the line follows.
pub(crate) fn print_counts(counts: Counts, behind: usize)
    requires { behind ≤ 1 }
{
    let mut line = [0u8; COUNTS_LINE];
    let mut pen = Pen {
        out: &mut line,
        at: 0,
    };
    counts_line(&mut pen, counts);
    io::write_all(1, &line[..COUNTS_LINE - behind]);
}

pub(crate) fn print_refusal(at: RefusedAt, behind: usize)
    requires { behind ≤ 1 }
{
    let mut line = [0u8; REFUSAL_LINE];
    let mut pen = Pen {
        out: &mut line,
        at: 0,
    };
    refusal_line(&mut pen, at);
    io::write_all(1, &line[..REFUSAL_LINE - behind]);
}

fn print_verdict(verdict: Result<Counts, RefusedAt>, behind: usize)
    requires { behind ≤ 1 }
{
    match verdict {
        Ok(counts) => print_counts(counts, behind),
        Err(at) => print_refusal(at, behind),
    }
}

// With the desk's budget, and an area that is neither marked nor looked at.
pub(crate) fn print(text: &[u8], work: &mut [u32]) {
    print_verdict(judge_table(text, DESK_BUDGET, work), 0);
}

// With the header's budget and work cells, or all that there are; the line goes on with what is in the area, as lent.rt has it.
pub(crate) fn print_marked(header: &Header, text: &[u8], work: &mut [u32; WORK_CELLS]) {
    let cells = header.work_cells.min(WORK_CELLS);
    let work = &mut work[..cells];
    mark(work);
    print_verdict(judge_table(text, header.budget, work), 1);
    print_work(work);
    end_line();
}
