// A refusal from its number and its place.
ghost use Rattle.std.specs.Prelude.{◌≡◌, IfSome};
ghost use Rattle.paper.specs.Refusals.{refusal_number, refusal_place};

use silmezga::Refusal;

// The refusal with this number that names this place; none where no refusal of the number names a place.
pub fn named(number: usize, place: usize) -> Option<Refusal>
    ensures { IfSome result (λ r. (refusal_number r ≡ number) × (refusal_place r ≡ place)) }
{
    match number {
        3 => Some(Refusal::BadRow(place)),
        4 => Some(Refusal::TooManyTypes(place)),
        6 => Some(Refusal::BadEntry(place)),
        7 => Some(Refusal::TypeMissing(place)),
        11 => Some(Refusal::NoSuchRow(place)),
        12 => Some(Refusal::NoTree(place)),
        13 => Some(Refusal::NoOneType(place)),
        15 => Some(Refusal::WrongIndex(place)),
        17 => Some(Refusal::ValueOutOfRange(place)),
        24 => Some(Refusal::TooDeep(place)),
        25 => Some(Refusal::BadPair(place)),
        26 => Some(Refusal::Unlisted(place)),
        _ => None,
    }
}
