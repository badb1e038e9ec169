// What is wrong in the tree.
/// A part of the tree that isn't supported as it was written.
#[derive(Clone, Copy, Debug, PartialEq, Eq)]
pub enum Feature {
    Ports,
    Tunnel,
}

/// What is wrong in a list of policies or in an association.
#[derive(Clone, Copy, Debug, PartialEq, Eq)]
pub enum TreeFault {
    TooMany,
    DuplicateName,
    BadName,
    BadSpi,
    BadKeyLength,
    BadWindow,
    EmptyRange,
    Unsupported(Feature),
}
