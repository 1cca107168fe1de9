// "Frame 01 is written for m = 0, 04 otherwise": the lines of a table, a task's own, those of its parts, and the end's.
ghost use Rattle.std.specs.Prelude.{◌≡◌, ℕ, ◌+◌, ◌*◌, ◌≤◌, List, map, length, refl};
ghost use Rattle.meaning.specs.Lists.{gather};
ghost use Rattle.meaning.specs.Bounds.{line_length};
ghost use Rattle.meaning.specs.Texts.{task_line, end_line};
ghost use Rattle.meaning.specs.Text.{line};
ghost use Rattle.meaning.specs.Writing.{frame_of_task, frame_of_vertex, frame_of_edge, frame_of_end};
ghost use Rattle.table.specs.Record.{vertex_of, edge_of};
ghost use Rattle.put.specs.Pens.{Penned};

use crate::Pen;
use kinds::Ticks;
use table::{Edge, Vertex};

// The first byte of each frame.
const END_FRAME: u8 = 0;

const TASK_FRAME: u8 = 1;

const VERTEX_FRAME: u8 = 2;

const EDGE_FRAME: u8 = 3;

const MASKED_TASK_FRAME: u8 = 4;

// A part of a task that has a frame of its own: a vertex or an edge, five bytes each.
pub trait Part: Copy {
    ghost frame_of: { Self → List ℕ };

    fn frame(self) -> [u8; 5]
        ensures { result ≡ frame_of self };

    ghost five_bytes: { (x : Self) → length (frame_of x) ≡ 5 };
}

impl Part for Vertex {
    ghost frame_of = { λ x. frame_of_vertex (vertex_of x) };

    ghost five_bytes = { λ x. refl };

    fn frame(self) -> [u8; 5] {
        let [e_high, e_low] = self.e.0.to_be_bytes();
        let [d_high, d_low] = self.d.0.to_be_bytes();
        [VERTEX_FRAME, e_high, e_low, d_high, d_low]
    }
}

impl Part for Edge {
    ghost frame_of = { λ x. frame_of_edge (edge_of x) };

    ghost five_bytes = { λ x. refl };

    fn frame(self) -> [u8; 5] {
        let [p_high, p_low] = self.p.0.to_be_bytes();
        [EDGE_FRAME, self.from.0, self.to.0, p_high, p_low]
    }
}

impl<'a> Pen<'a> {
    // The line of a task with the masked length m, v vertices and e edges.
    pub fn task_line(&mut self, m: Ticks, v: u8, e: u8)
        requires { self.old.at + task_line m.0 ≤ length self.old.out.now }
        ensures { Penned (line (frame_of_task m.0 v e)) self.old self.new }
    {
        if m.0 == 0 {
            return self.line(&[TASK_FRAME, v, e]);
        }
        let [high, low] = m.0.to_be_bytes();
        self.line(&[MASKED_TASK_FRAME, v, e, high, low]);
    }

    pub fn part_line<T: Part>(&mut self, part: T)
        requires { self.old.at + line_length 5 ≤ length self.old.out.now }
        ensures { Penned (line (T.frame_of part)) self.old self.new }
    {
        self.line(&part.frame());
    }

    pub fn part_lines<T: Part>(&mut self, parts: &[T])
        requires { self.old.at + line_length 5 * length parts.now ≤ length self.old.out.now }
        ensures { Penned (gather line (map T.frame_of parts.now)) self.old self.new }
    {
        for part in parts {
            self.part_line(*part);
        }
    }

    pub fn end_line(&mut self)
        requires { self.old.at + end_line ≤ length self.old.out.now }
        ensures { Penned (line frame_of_end) self.old self.new }
    {
        self.line(&[END_FRAME]);
    }
}
