// Document 01 in definitions (specs/) and what is proved of them (proofs/). The one thing in code is the format, which the definitions and
// the layers above share, and which of the two a file has.
#![tactic(auto)]

pub mod refusal;

ghost use Rattle.std.specs.Prelude.{◌≡◌};
ghost use Rattle.paper.specs.Widths.{format_of};

// What a width of the files may change.
#[derive(Clone, Copy, Drop)]
pub struct Format {
    pub levels: usize, // the number of levels
    pub labels: usize, // the largest label
}

// The widths of files: six levels, as in document 01, or eight. There is no third.
#[derive(Clone, Copy, Drop)]
pub enum Width {
    Six,
    Eight,
}

// The format that a width names.
#[tactic(auto, unfolding(crate::specs::Format::base, crate::specs::Format::eight))]
pub fn format_of(width: Width) -> Format
    ensures { result ≡ format_of width }
{
    match width {
        Width::Six => Format {
            levels: 6,
            labels: 99,
        },
        Width::Eight => Format {
            levels: 8,
            labels: 99,
        },
    }
}
