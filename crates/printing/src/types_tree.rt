// The types of a table, as an indented tree: below a type those whose parent it is, in the order of their first rows.
use crate::new_table::print_refused;
use crate::out::{Stopped, Written, print};
use crate::width::served;
use adorned::{TypeSummary, adorn_by_value};
use paper::Width;
use screens::summary::put_type;
use tables::row::smaller;

// The first type from `from` on that has this parent type.
fn child_from(all: &[TypeSummary], parent: usize, from: usize) -> Option<usize> {
    let (k, _) = all
        .iter()
        .enumerate()
        .skip(from)
        .find(|(_, s)| s.parent == parent)?;
    Some(k)
}

// The type after a type in the tree's order: its first child, or the next one beside it, or beside the nearest type above that has one.
fn after(all: &[TypeSummary], k: usize) -> Option<usize> {
    if let Some(child) = child_from(all, k, 0) {
        return Some(child);
    }
    let mut at = k;
    for _ in 0..8 {
        let parent = all.get(at)?.parent;
        if let Some(beside) = child_from(all, parent, at + 1) {
            return Some(beside);
        }
        at = parent;
    }
    None
}

// One type; the label above it is that of its parent type, 0 where it has none.
fn print_type(rt: &impl Print, all: &[TypeSummary], k: usize) -> Written {
    let s = *all.get(k).ok_or(Stopped)?;
    if 8 < s.level {
        return Err(Stopped);
    }
    let above = all.get(s.parent).map_or(0, |t| t.label);
    let mut text = [0u8; 256];
    let n = put_type(&mut text, s, above);
    print(rt, &text[..n])
}

// As many types as there are, of which the first is the first in the tree's order.
fn print_tree(rt: &impl Print, all: &[TypeSummary]) -> Written {
    let mut at = Some(0);
    for _ in all {
        let k = at.ok_or(Stopped)?;
        print_type(rt, all, k)?;
        at = after(all, k);
    }
    Ok(())
}

// Prints the refusal of adorning, or the tree. The figures are those that `adorn` stores in what it is lent.
pub fn print_types(rt: &impl Print, width: Width, table: &[u8]) -> Written {
    match adorn_by_value(table, served(width), 64) {
        Ok(a) => print_tree(rt, &a.summaries[..smaller(a.count, 64)]),
        Err(refusal) => print_refused(rt, refusal.number(), refusal.place()),
    }
}
