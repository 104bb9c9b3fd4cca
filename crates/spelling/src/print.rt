// The whole call: the tests of the shape, 29, then the bytes. What it answers is a refusal, or the count of bytes.
ghost use Rattle.std.specs.Prelude.{◌≡◌};
ghost use Rattle.paper.specs.Refusals.{counted};
ghost use Rattle.octets.specs.Served.{Served};
ghost use Rattle.grammar.specs.Typed.{print_tree};
ghost use Rattle.spelling.specs.Printed.{Prints};

use crate::line::put_line;
use paper::Format;
use paper::refusal::Refusal;
use shapes::tests::examine_shape;

// A shape, after refusals 5 and 6. The line is put into a buffer of its own, so that its length is tested before the first lent byte is written.
pub fn print_tree(shape: &[u8], f: Format, text: &mut [u8]) -> Result<usize, Refusal>
    requires { Served f }
    ensures { Prints (print_tree f shape.now text.old) (counted result) text.new }
{
    let entries = examine_shape(shape, f)?;
    let mut line = [0u8; 1536];
    let n = put_line(&mut line, shape, f, entries);
    if text.len() < n {
        return Err(Refusal::NoRoom);
    }
    octets::put(text, 0, &line[..n]);
    Ok(n)
}
