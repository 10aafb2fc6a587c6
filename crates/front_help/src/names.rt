//! What names stand for.

/// What a name stands for.
#[derive(Clone, Copy, Debug, PartialEq, Eq)]
pub enum NameKind {
    /// Nothing is there.
    Missing,
    /// A folder.
    Folder,
    /// Something else, or nobody knows.
    Other,
}

/// Who says what a name stands for. Only hints are made of it.
pub trait Names {
    /// What the name stands for.
    fn kind_of(&self, name: &str) -> NameKind;
}

/// Says nothing of any name.
#[derive(Clone, Copy, Debug)]
pub struct NoNames;

impl Names for NoNames {
    fn kind_of(&self, _name: &str) -> NameKind {
        NameKind::Other
    }
}
