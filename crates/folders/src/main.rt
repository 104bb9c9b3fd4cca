// The gate's run of what the program does: every screen of every folder that is named, one after the other, with a heading each. What the
// program reports to the command stands in the listing here. A word that begins with a space is a tree typed behind the folder that the word
// before it names. Where a screen ends before all was read, a line says so.
#![tactic(auto)]

ghost use Rattle.io.specs.Counts.{IsPrefixLen};

use names::put::{put_byte, put_bytes};
use printing::folder::print_screen;
use printing::out::{OUTPUT, Written, print};
use printing::screen::screen_named;
use printing::typed_tree::typed_word;
use printing::words;
use std::env::Env;
use std::rt::Files;

// A folder's name, a slash and a file's name; no bytes where the two are too long.
fn put_path(path: &mut [u8; 128], folder: &[u8], file: &[u8]) -> usize
    ensures { IsPrefixLen result path.new }
{
    if 64 < folder.len() || 32 < file.len() {
        return 0;
    }
    let slash = put_bytes(path, 0, folder);
    let from = put_byte(path, slash, b'/');
    put_bytes(path, from, file)
}

// A screen of a folder with a typed tree, where one is given.
fn print_screen_of(
    rt: &(impl Files + Print),
    folder: &[u8],
    text: Option<&[u8]>,
    word: &[u8],
) -> Written {
    let mut source8 = [0u8; 128];
    let mut shape8 = [0u8; 128];
    let mut source = [0u8; 128];
    let mut shape = [0u8; 128];
    let mut tree = [0u8; 128];
    let n8 = put_path(&mut source8, folder, b"source8.tab");
    let m8 = put_path(&mut shape8, folder, b"shape8.tab");
    let n = put_path(&mut source, folder, b"source.tab");
    let m = put_path(&mut shape, folder, b"shape.tab");
    let k = put_path(&mut tree, folder, b"shape.txt");
    print_screen(
        rt,
        &source8[..n8],
        &shape8[..m8],
        &source[..n],
        &shape[..m],
        &tree[..k],
        text,
        screen_named(word),
        OUTPUT,
    )
}

fn print_in(rt: &(impl Files + Print), folder: &[u8], text: Option<&[u8]>, word: &[u8]) -> Written {
    print_screen_of(rt, folder, text, word).or_else(|_| print(rt, b"not whole\n"))
}

fn print_heading(rt: &impl Print, folder: &[u8], end: &[u8]) -> Written {
    print(rt, b"== ")?;
    print(rt, folder)?;
    print(rt, end)
}

fn print_headed(
    rt: &(impl Files + Print),
    heading: &[u8],
    folder: &[u8],
    text: Option<&[u8]>,
    word: &[u8],
) -> Written {
    print(rt, heading)?;
    print_in(rt, folder, text, word)
}

// The screens that show the wanted tree, but the printed one.
fn print_answers(rt: &(impl Files + Print), folder: &[u8], text: Option<&[u8]>) -> Written {
    print_in(rt, folder, text, b"")?;
    print_headed(rt, b"-- report\n", folder, text, b"listing")?;
    print_headed(rt, b"-- summary\n", folder, text, b"summary")
}

fn print_folder(rt: &(impl Files + Print), folder: &[u8]) -> Written {
    print_heading(rt, folder, b"\n")?;
    print_answers(rt, folder, None)?;
    print_headed(rt, b"-- types\n", folder, None, b"types")?;
    print_headed(rt, b"-- print\n", folder, None, b"print")
}

// The types are those of the table alone, and take no tree.
fn print_typed(rt: &(impl Files + Print), folder: &[u8], text: &[u8]) -> Written {
    print_heading(rt, folder, b", typed\n")?;
    print_answers(rt, folder, Some(text))?;
    print_headed(rt, b"-- print\n", folder, Some(text), b"print")
}

fn print_typed_in(rt: &(impl Env + Files + Print), i: usize, text: &[u8]) -> Written {
    let mut name = [0u8; 64];
    let n = words::word(rt, i, &mut name);
    print_typed(rt, &name[..n], text)
}

// The folder that word i names, or where it is a tree, which has a space before all else, the folder that the word before it names.
fn print_named(rt: &(impl Env + Files + Print), before: usize, i: usize) -> Written {
    let mut text = [0u8; 1537];
    let n = typed_word(rt, i, &mut text).unwrap_or(0);
    match &text[..n] {
        tree @ [b' ', ..] => print_typed_in(rt, before, tree),
        folder => print_folder(rt, folder),
    }
}

// Every folder and every tree that the words behind the program's own name.
fn print_all(rt: &(impl Env + Files + Print)) -> Written {
    for i in 1..words::count(rt) {
        print_named(rt, i - 1, i)?;
    }
    Ok(())
}

fn main(rt: HostRuntime) {
    let _ = print_all(&rt);
}
