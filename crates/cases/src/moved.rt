// A table and a shape in the other width: what is narrow is widened and what is wide is narrowed, into lent bytes that are filled before
// the call, so that what it leaves in each can be told.
ghost use Rattle.std.specs.Prelude.{◌≡◌, length};

use crate::lent::fill_bytes;
use crate::print::print_left;
use silmezga::Width;
use silmezga_c::answers::Counted;
use tables::row::smaller;

// Which of a case's two files.
#[derive(Drop)]
pub enum File {
    Table,
    Shape,
}

// Room for some more bytes than a table has.
pub fn file_room() -> [u8; 30000]
    ensures { 30000 ≡ length result }
{
    [0; 30000]
}

fn table_moved(width: Width, t: &[u8], new: &mut [u8]) -> Counted {
    match width {
        Width::Six => silmezga_c::silmezga_widen_table(t, new),
        Width::Eight => silmezga_c::silmezga_narrow_table(t, new),
    }
}

fn shape_moved(width: Width, s: &[u8], new: &mut [u8]) -> Counted {
    match width {
        Width::Six => silmezga_c::silmezga_widen_shape(s, new),
        Width::Eight => silmezga_c::silmezga_narrow_shape(s, new),
    }
}

fn moved(file: File, width: Width, b: &[u8], new: &mut [u8]) -> Counted {
    fill_bytes(new);
    match file {
        File::Table => table_moved(width, b, new),
        File::Shape => shape_moved(width, b, new),
    }
}

fn print_answered(file: File, width: Width, b: &[u8], new: &mut [u8]) {
    let r = moved(file, width, b, new);
    print_left(r, new);
}

// Lends so many bytes, as far as there are any.
pub fn print_moved(file: File, width: Width, b: &[u8], lent: usize) {
    let mut new = file_room();
    let lent = smaller(lent, 30000);
    print_answered(file, width, b, &mut new[..lent]);
}
