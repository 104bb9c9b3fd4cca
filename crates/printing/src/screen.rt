// The screens of the program, each of a table and a shape.
use crate::new_table::print_listing;
use crate::out::Written;
use paper::Width;

// Which screen is asked for.
#[derive(Clone, Copy, Drop)]
pub enum Screen {
    Listing,
    Reported, // the listing, with what its first line names reported
    Summary,
    Types,
    Printed, // the wanted tree as a line of text
}

// The screen that a word asks for: with none the listing alone, and with a word that is no other screen's the listing with its report.
pub fn screen_named(word: &[u8]) -> Screen {
    match word {
        b"" => Screen::Listing,
        b"summary" => Screen::Summary,
        b"types" => Screen::Types,
        b"print" => Screen::Printed,
        _ => Screen::Reported,
    }
}

// Does the screen show anything of the wanted tree?
pub fn shows_tree(screen: Screen) -> bool {
    !matches!(screen, Screen::Types)
}

// The channel that a screen is reported on, if it is.
pub fn channel_of(screen: Screen, channel: i32) -> Option<i32> {
    match screen {
        Screen::Reported => Some(channel),
        _ => None,
    }
}

// Prints a screen; a report goes to the channel.
pub fn print_of(
    rt: &impl Print,
    width: Width,
    table: &[u8],
    shape: &[u8],
    screen: Screen,
    channel: i32,
) -> Written {
    match screen {
        Screen::Listing | Screen::Reported => {
            print_listing(rt, width, table, shape, channel_of(screen, channel))
        }
        Screen::Summary => crate::figures::print_summary(rt, width, table, shape),
        Screen::Types => crate::types_tree::print_types(rt, width, table),
        Screen::Printed => crate::typed_tree::print_shape(rt, width, shape),
    }
}
