// "Writing what was read gives the same bytes", of a text without 05 to 07; rings and gear tables are written as plain tasks.
//
// The text's table, written into a marked area, as writing.rt has it, and as often as the header's budget says, so that docs/COST.md can count one writing
// alone; or the line of the text check for a refused text.
use crate::whole::print_refusal;
use crate::writing;
use reader::read;
use sequences::Header;

pub(crate) fn print(header: &Header, text: &[u8]) {
    match read(text) {
        Ok(table) => writing::print(header, &table, header.budget),
        Err(at) => print_refusal(at, 0),
    }
}
