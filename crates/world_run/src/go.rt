/// Whether a script goes on: an arrival that no gateway sent, and that a gateway would take for sent, ends it.
#[derive(Clone, Copy, Debug, PartialEq, Eq)]
pub enum Go {
    On,
    Forged,
}
