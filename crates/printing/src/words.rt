// The words that the program was started with, its own name before them.
ghost use Rattle.std.specs.Prelude.{◌≤◌, length};
ghost use Rattle.io.specs.Counts.{IsPrefixLen};

use std::env::{Env, FillError};

// Puts word i into what is lent, and answers its length, 0 where it is missing or longer than what is lent.
pub fn word(rt: &impl Env, i: usize, text: &mut [u8]) -> usize
    ensures { IsPrefixLen result text.new }
{
    rt.arg(i, text).unwrap_or(0)
}

// Is there a word i?
pub fn is_given(rt: &impl Env, i: usize) -> bool {
    let mut text = [0u8; 1];
    !matches!(rt.arg(i, &mut text), Err(FillError::NotPresent))
}

// How many words there are.
pub fn count(rt: &impl Env) -> usize {
    (0..usize::MAX)
        .find(|i| !is_given(rt, *i))
        .unwrap_or(usize::MAX)
}
