//! The ids of what a heap has made: each is its place among those of its kind, from 0.

ghost use Rattle.std.specs.Prelude.{◌≡◌};

use std::marker::Model;

/// The id of a string of a heap. Contracts see it as its place.
#[derive(Clone, Copy, Debug, PartialEq, Eq)]
pub struct StrId {
    place: usize,
}

impl Model for StrId {
    ghost use Rattle.std.specs.Prelude.{ℕ};

    ghost Value = { ℕ };

    ghost view = { λ id. id.place };

    ghost inverse = { λ n. record { place = n } };
}

impl StrId {
    pub(crate) const fn at(place: usize) -> StrId
        ensures { result ≡ place }
    {
        StrId { place }
    }

    pub(crate) fn place(self) -> usize
        ensures { result ≡ self }
    {
        self.place
    }
}

/// The id of a table of a heap. Contracts see it as its place.
#[derive(Clone, Copy, Debug, PartialEq, Eq)]
pub struct TableId {
    place: usize,
}

impl Model for TableId {
    ghost use Rattle.std.specs.Prelude.{ℕ};

    ghost Value = { ℕ };

    ghost view = { λ id. id.place };

    ghost inverse = { λ n. record { place = n } };
}

impl TableId {
    pub(crate) const fn at(place: usize) -> TableId
        ensures { result ≡ place }
    {
        TableId { place }
    }

    pub(crate) fn place(self) -> usize
        ensures { result ≡ self }
    {
        self.place
    }
}

/// The id of a function that a program made of a heap. Contracts see it as its place.
#[derive(Clone, Copy, Debug, PartialEq, Eq)]
pub struct FuncId {
    place: usize,
}

impl Model for FuncId {
    ghost use Rattle.std.specs.Prelude.{ℕ};

    ghost Value = { ℕ };

    ghost view = { λ id. id.place };

    ghost inverse = { λ n. record { place = n } };
}

impl FuncId {
    pub(crate) const fn at(place: usize) -> FuncId
        ensures { result ≡ place }
    {
        FuncId { place }
    }

    pub(crate) fn place(self) -> usize
        ensures { result ≡ self }
    {
        self.place
    }
}

/// The id of Data of a heap. Contracts see it as its place.
#[derive(Clone, Copy, Debug, PartialEq, Eq)]
pub struct DataId {
    place: usize,
}

impl Model for DataId {
    ghost use Rattle.std.specs.Prelude.{ℕ};

    ghost Value = { ℕ };

    ghost view = { λ id. id.place };

    ghost inverse = { λ n. record { place = n } };
}

impl DataId {
    pub(crate) const fn at(place: usize) -> DataId
        ensures { result ≡ place }
    {
        DataId { place }
    }

    pub(crate) fn place(self) -> usize
        ensures { result ≡ self }
    {
        self.place
    }
}

/// The id of a cell, which holds a local that functions share of a heap. Contracts see it as its
/// place.
#[derive(Clone, Copy, Debug, PartialEq, Eq)]
pub struct CellId {
    place: usize,
}

impl Model for CellId {
    ghost use Rattle.std.specs.Prelude.{ℕ};

    ghost Value = { ℕ };

    ghost view = { λ id. id.place };

    ghost inverse = { λ n. record { place = n } };
}

impl CellId {
    pub(crate) const fn at(place: usize) -> CellId
        ensures { result ≡ place }
    {
        CellId { place }
    }

    pub(crate) fn place(self) -> usize
        ensures { result ≡ self }
    {
        self.place
    }
}
