// A screen of a folder, by the names of its files or by its own.
use crate::files::put_file_name;
use crate::out::Written;
use crate::screen::Screen;
use crate::tape::read_table;
use crate::wanted::{print_typed, print_wanted};
use paper::Width;
use std::rt::Files;

// Prints a screen of a folder's files: the wide ones where the wide table opens, else the narrow ones; the typed tree goes with both. In place of the
// files of the tree it takes the text, where the tree is given as one. A report goes to the channel.
pub fn print_screen(
    rt: &(impl Files + Print),
    source8: &[u8],
    shape8: &[u8],
    source: &[u8],
    shape: &[u8],
    tree: &[u8],
    text: Option<&[u8]>,
    screen: Screen,
    channel: i32,
) -> Written {
    let mut table = [0u8; 28673];
    let t = read_table(rt, source8, source, &mut table)?;
    let table = &table[..t.bytes];
    if let Some(text) = text {
        return print_typed(rt, t.width, table, text, screen, channel);
    }
    match t.width {
        Width::Six => print_wanted(rt, t.width, table, shape, tree, screen, channel),
        Width::Eight => print_wanted(rt, t.width, table, shape8, tree, screen, channel),
    }
}

// Prints a screen of a folder, by the folder's name. The folder without a name is the working directory.
pub fn print_screen_in(
    rt: &(impl Files + Print),
    folder: &[u8],
    text: Option<&[u8]>,
    screen: Screen,
    channel: i32,
) -> Written {
    let mut source8 = [0u8; 4096];
    let mut shape8 = [0u8; 4096];
    let mut source = [0u8; 4096];
    let mut shape = [0u8; 4096];
    let mut tree = [0u8; 4096];
    let a = put_file_name(&mut source8, folder, b"source8.tab");
    let b = put_file_name(&mut shape8, folder, b"shape8.tab");
    let c = put_file_name(&mut source, folder, b"source.tab");
    let d = put_file_name(&mut shape, folder, b"shape.tab");
    let e = put_file_name(&mut tree, folder, b"shape.txt");
    print_screen(
        rt,
        &source8[..a],
        &shape8[..b],
        &source[..c],
        &shape[..d],
        &tree[..e],
        text,
        screen,
        channel,
    )
}
