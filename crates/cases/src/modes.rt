// What is asked of a text: a case's mode, a letter.
ghost use Rattle.cases.specs.Letters.{Decodes};

#[derive(Clone, Copy, PartialEq, Eq)]
pub(crate) enum Mode {
    // The text check (check.rt).
    Check,
    // The paths of its tasks (list.rt).
    List,
    // The desk's output (desk.rt).
    Desk,
    // One vertex, on marked areas, and with its worst finish too (vertex.rt).
    Vertex,
    Latest,
    // The whole table, on a marked area, and unmarked, for docs/COST.md (whole.rt).
    Table,
    Unmarked,
    // Every vertex of a table with its worst finish, unmarked, for docs/COST.md (finishes.rt).
    Finishes,
    // A record, written into a marked area (record.rt).
    Record,
    // Back: the text's table, written into a marked area (back.rt).
    Back,
}

// A letter that is no mode's.
#[derive(Clone, Copy, PartialEq, Eq)]
pub(crate) struct UnknownMode(pub(crate) u8);

impl TryFrom<u8> for Mode {
    type Error = UnknownMode;

    ghost try_from_gives = { Decodes };

    fn try_from(letter: u8) -> Result<Mode, UnknownMode> {
        match letter {
            b'c' => Ok(Mode::Check),
            b'l' => Ok(Mode::List),
            b'd' => Ok(Mode::Desk),
            b'v' => Ok(Mode::Vertex),
            b'f' => Ok(Mode::Latest),
            b't' => Ok(Mode::Table),
            b'u' => Ok(Mode::Unmarked),
            b'g' => Ok(Mode::Finishes),
            b'r' => Ok(Mode::Record),
            b'b' => Ok(Mode::Back),
            _ => Err(UnknownMode(letter)),
        }
    }
}
