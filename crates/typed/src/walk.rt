// A text, read once from its first byte to its last.
ghost use Rattle.std.specs.Prelude.{◌≡◌, true, false, ◌+◌, ◌≤◌, Ok, Err, length, drop};
ghost use Rattle.paper.specs.declared.refusal.Refusal.TheVariants.{NoTree};
ghost use Rattle.octets.specs.Served.{Served};
ghost use Rattle.grammar.specs.Grammar.{run};
ghost use Rattle.grammar.specs.Typed.{most_text};
ghost use Rattle.grammar.specs.Reader.{may_end};
ghost use Rattle.typed.specs.Walk.{stage_of, may_stand, Lists, Keeps, Walks};

use crate::matching::match_type;
use names::word::read_word;
use paper::Format;
use paper::refusal::Refusal;

// The entries that a text asks for: how many, and of the first 16 the level and the type.
#[derive(Clone, Copy, Drop)]
pub struct Walked {
    pub entries: usize,
    pub levels: [u16; 16],
    pub types: [u16; 16],
}

// May the token that begins with this byte stand next? What stands just before is told by a number: 0 nothing, 1 a name, 2 an opening bracket,
// 3 a closing one.
fn may_stand(b: u8, stage: usize, depth: usize) -> bool
    ensures { result ≡ may_stand b (stage_of stage) depth }
{
    if b == b'[' {
        stage == 1
    } else if stage == 0 || stage == 2 {
        b != b']'
    } else {
        0 < depth
    }
}

// What was walked, if the text may end there.
fn ended(w: Walked, stage: usize, depth: usize, place: usize) -> Result<Walked, Refusal>
    ensures { (may_end (stage_of stage) depth ≡ true → result ≡ Ok w) × (may_end (stage_of stage) depth ≡ false → result ≡ Err (NoTree place)) }
{
    if stage == 0 || stage == 2 || 0 < depth {
        Err(Refusal::NoTree(place))
    } else {
        Ok(w)
    }
}

// Where the word that begins at p ends: at the next space or bracket, or with the text.
fn word_end(text: &[u8], p: usize) -> usize
    requires { p ≤ length text.now }
    ensures { (result ≡ p + length (run (drop p text.now))) × (result ≤ length text.now) }
{
    let rest = &text[p..];
    p + rest
        .iter()
        .position(|b| *b == b' ' || *b == b'[' || *b == b']')
        .unwrap_or(rest.len())
}

// What was walked and the entry that a word asks for, none if it spells no name. Level and type of a 17th entry and later ones are not kept: they
// are too many in any case.
fn keep_word<'a>(
    w: Walked,
    word: &[u8],
    f: Format,
    depth: usize,
    parents: &'a [u8],
    labels: &'a [u16],
    count: usize,
) -> Option<Walked>
    requires { Served f × (length word.now ≤ most_text) × (depth ≤ most_text) × (w.entries ≤ most_text) × Lists parents.now labels.now count }
    ensures { Keeps f word.now depth parents.now labels.now count w result }
{
    let name = read_word(word, f)?;
    let entries = w.entries;
    let mut levels = w.levels;
    let mut types = w.types;
    if entries < 16 {
        levels[entries] = (depth + 1) as u16;
        types[entries] = match_type(name, parents, labels, count) as u16;
    }
    Some(Walked {
        entries: entries + 1,
        levels,
        types,
    })
}

// The whole text, token by token: the place at which it stops being a tree, or the entries.
pub fn walk_text<'a>(
    text: &[u8],
    f: Format,
    parents: &'a [u8],
    labels: &'a [u16],
    count: usize,
) -> Result<Walked, Refusal>
    requires { Served f × (length text.now ≤ most_text) × Lists parents.now labels.now count }
    ensures { Walks f text.now parents.now labels.now count result }
{
    let mut w = Walked {
        entries: 0,
        levels: [0; 16],
        types: [0; 16],
    };
    let mut stage = 0;
    let mut depth = 0;
    let mut p = 0;
    while p < text.len() {
        let b = text[p];
        if b == b' ' {
            p += 1;
        } else if !may_stand(b, stage, depth) {
            return Err(Refusal::NoTree(p));
        } else if b == b'[' {
            stage = 2;
            depth += 1;
            p += 1;
        } else if b == b']' {
            stage = 3;
            depth -= 1;
            p += 1;
        } else {
            let end = word_end(text, p);
            let Some(kept) = keep_word(w, &text[p..end], f, depth, parents, labels, count) else {
                return Err(Refusal::NoTree(p));
            };
            w = kept;
            stage = 1;
            p = end;
        }
    }
    ended(w, stage, depth, p)
}
