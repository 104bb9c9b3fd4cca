// The table and the wanted tree of a screen or of a tape: which files they are read from, and how far.
ghost use Rattle.std.specs.Prelude.{◌≤◌, length, IfOk, MatchOption, ⊤};
ghost use Rattle.io.specs.Counts.{IsPrefixLen};
ghost use Rattle.printing.specs.Wanted.{wanted_bytes};

use crate::files::{put_file_name, read_file};
use crate::out::Stopped;
use crate::typed_tree::without_end;
use paper::Width;
use std::rt::Files;

// A table that was read: its width and its bytes.
#[derive(Clone, Copy, Drop)]
pub struct Source {
    pub width: Width,
    pub bytes: usize,
}

// A wanted tree that was read, as a shape or as a text: its bytes.
#[derive(Clone, Copy, Drop)]
pub enum Wanted {
    Shape(usize),
    Text(usize),
}

// Reads a table by the names of its files: the wide one where it opens, else the narrow one, and one that does not open counts as empty. One byte
// more than a table may have is read, so that one that is too long is refused.
pub fn read_table(
    rt: &impl Files,
    wide: &[u8],
    narrow: &[u8],
    table: &mut [u8],
) -> Result<Source, Stopped>
    requires { 28673 ≤ length table.old }
    ensures { IfOk result (λ t. IsPrefixLen t.bytes table.new) }
{
    if let Some(bytes) = read_file(rt, wide, 28673, table)? {
        return Ok(Source {
            width: Width::Eight,
            bytes,
        });
    }
    let bytes = read_file(rt, narrow, 24577, table)?.unwrap_or(0);
    Ok(Source {
        width: Width::Six,
        bytes,
    })
}

// Reads the table of a folder.
pub fn read_source(rt: &impl Files, folder: &[u8], table: &mut [u8]) -> Result<Source, Stopped>
    requires { 28673 ≤ length table.old }
    ensures { IfOk result (λ t. IsPrefixLen t.bytes table.new) }
{
    let mut wide = [0u8; 4096];
    let mut narrow = [0u8; 4096];
    let w = put_file_name(&mut wide, folder, b"source8.tab");
    let n = put_file_name(&mut narrow, folder, b"source.tab");
    read_table(rt, &wide[..w], &narrow[..n], table)
}

// Reads the shape file of a width, of which a byte more than a shape may have is read.
fn read_shape(
    rt: &impl Files,
    width: Width,
    name: &[u8],
    shape: &mut [u8],
) -> Result<Option<usize>, Stopped>
    requires { 321 ≤ length shape.old }
    ensures { IfOk result (λ o. MatchOption o ⊤ (λ n. IsPrefixLen n shape.new)) }
{
    match width {
        Width::Six => read_file(rt, name, 257, shape),
        Width::Eight => read_file(rt, name, 321, shape),
    }
}

// Reads the file of a typed tree, or an empty shape where it does not open. It has a byte more than a tree and the end of its line may have, where it
// is too long.
fn read_text(rt: &impl Files, name: &[u8], text: &mut [u8]) -> Result<Wanted, Stopped>
    requires { 1539 ≤ length text.old }
    ensures { IfOk result (λ w. IsPrefixLen (wanted_bytes w) text.new) }
{
    match read_file(rt, name, 1539, text)? {
        Some(n) => Ok(Wanted::Text(without_end(&text[..n]))),
        None => Ok(Wanted::Shape(0)),
    }
}

// Reads a wanted tree by the names of its files: the shape file where it opens, else, where the tree is shown, the file of a typed tree where that
// opens, else an empty shape.
pub fn read_tree(
    rt: &impl Files,
    width: Width,
    shape: &[u8],
    typed: &[u8],
    shown: bool,
    wanted: &mut [u8],
) -> Result<Wanted, Stopped>
    requires { 1539 ≤ length wanted.old }
    ensures { IfOk result (λ w. IsPrefixLen (wanted_bytes w) wanted.new) }
{
    match read_shape(rt, width, shape, wanted)? {
        Some(n) => Ok(Wanted::Shape(n)),
        None if shown => read_text(rt, typed, wanted),
        None => Ok(Wanted::Shape(0)),
    }
}

// The name of a folder's shape file, by the width of its table.
fn put_shape_name(name: &mut [u8; 4096], folder: &[u8], width: Width) -> usize
    ensures { IsPrefixLen result name.new }
{
    match width {
        Width::Six => put_file_name(name, folder, b"shape.tab"),
        Width::Eight => put_file_name(name, folder, b"shape8.tab"),
    }
}

// Reads the wanted tree of a folder.
pub fn read_wanted(
    rt: &impl Files,
    folder: &[u8],
    width: Width,
    shown: bool,
    wanted: &mut [u8],
) -> Result<Wanted, Stopped>
    requires { 1539 ≤ length wanted.old }
    ensures { IfOk result (λ w. IsPrefixLen (wanted_bytes w) wanted.new) }
{
    let mut shape = [0u8; 4096];
    let mut typed = [0u8; 4096];
    let s = put_shape_name(&mut shape, folder, width);
    let t = put_file_name(&mut typed, folder, b"shape.txt");
    read_tree(rt, width, &shape[..s], &typed[..t], shown, wanted)
}
