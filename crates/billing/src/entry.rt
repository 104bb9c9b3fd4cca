// The entry that a word names.
ghost use Rattle.std.specs.Prelude.{◌≡◌, true};
ghost use Rattle.grammar.specs.Text.{decimal};
ghost use Rattle.billing.specs.Entry.{EntryOf};

use check::same;
use names::put::put_number;

// Is the word the decimal digits of the number?
fn spells(word: &[u8], n: usize) -> bool
    ensures { (result ≡ true → word.now ≡ decimal n) × (word.now ≡ decimal n → result ≡ true) }
{
    let mut text = [0u8; 20];
    let k = put_number(&mut text, 0, n);
    same(word, &text[..k])
}

// The entry whose number the word is, 16 for none: no shape has so many entries, and the library refuses it.
pub fn entry_of(word: &[u8]) -> usize
    ensures { EntryOf word.now result }
{
    for e in 0..16 {
        if spells(word, e) {
            return e;
        }
    }
    16
}
