// The paths of a miss, out of the witness area: per higher task in order, the path's length and vertices.
ghost use Rattle.std.specs.Prelude.{◌+◌, ◌≤◌, length};
ghost use Rattle.meaning.specs.Bounds.{path_line};
ghost use Rattle.meaning.specs.Text.{line};
ghost use Rattle.meaning.specs.Desk.{path_frame};
ghost use Rattle.put.specs.Pens.{Penned};
ghost use Rattle.desk_frames.specs.Lines.{Bytes, WholePaths, cell_paths, path_lines};

use put::Pen;

const PATH_FRAME: u8 = 18;

// One task's path; "the program's path frame becomes 12 with a two-byte length".
fn path_line(pen: &mut Pen, task: u8, path: &[u16])
    requires { (pen.old.at + path_line (length path.now) ≤ length pen.old.out.now) × Bytes path.now }
    ensures { Penned (line (path_frame task path.now)) pen.old pen.new }
{
    let [.., high, low] = path.len().to_be_bytes();
    let head = [PATH_FRAME, task, high, low];
    pen.bytes(&head);
    pen.bytes(path);
    pen.line_feed();
}

// The paths of h higher tasks, one line each.
pub(crate) fn path_lines(pen: &mut Pen, cells: &[u16], h: u8)
    requires { WholePaths h cells.now × (pen.old.at + length (path_lines 0 (cell_paths h cells.now)) ≤ length pen.old.out.now) }
    ensures { Penned (path_lines 0 (cell_paths h cells.now)) pen.old pen.new }
{
    let mut rest = cells;
    for task in 0..h {
        let n = usize::from(rest[0]);
        let behind = &rest[1..];
        path_line(pen, task, &behind[..n]);
        rest = &behind[n..];
    }
}
