// How far a head has come.
ghost use Rattle.std.specs.Prelude.{◌≡◌};
ghost use Rattle.rc_http.specs.Places.{next_place, ScanGives};

/// Where in a head the next octet stands.
#[derive(Clone, Copy, Debug, PartialEq, Eq)]
pub enum Place {
    /// Before the first octet that is neither CR nor LF.
    Before,
    /// Inside of a line.
    Text,
    /// Directly after LF.
    Line,
    /// Directly after LF and CR.
    Return,
}

/// What a piece of a head brings.
#[derive(Clone, Copy, Debug, PartialEq, Eq)]
pub enum Scanned {
    /// No end of the head.
    Goes(Place),
    /// The head's end: this many octets belong to it.
    Ends(usize),
}

// The place after one more octet, or none where that octet ends the head.
fn next(place: Place, octet: u8) -> Option<Place>
    ensures { result ≡ next_place place octet }
{
    match place {
        Place::Before if octet == b'\r' || octet == b'\n' => Some(Place::Before),
        Place::Line | Place::Return if octet == b'\n' => None,
        Place::Line if octet == b'\r' => Some(Place::Return),
        Place::Text if octet == b'\n' => Some(Place::Line),
        _ => Some(Place::Text),
    }
}

/// Looks for the end of a head in a piece that comes at this place.
pub fn scan(place: Place, piece: &[u8]) -> Scanned
    ensures { ScanGives place piece.now result }
{
    let mut place = place;
    for (i, octet) in piece.iter().enumerate() {
        match next(place, *octet) {
            Some(after) => place = after,
            None => return Scanned::Ends(i + 1),
        }
    }
    Scanned::Goes(place)
}
