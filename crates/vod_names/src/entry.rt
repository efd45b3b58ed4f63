//! What a name is declared as.
ghost use Rattle.std.specs.Prelude.{◌≡◌};
ghost use Rattle.vod_names.specs.Entries.{plain, at_place};

/// The kinds of declaration.
#[derive(Clone, Copy, PartialEq, Eq)]
pub enum Kind {
    /// `input` of a module or a function (10.4.1, 12.3.3).
    Input,
    Output,
    OutputReg,
    Wire,
    Reg,
    /// `reg` with bounds behind its name (4.9).
    Ram,
    Integer,
    Parameter,
    Localparam,
    /// A function of a module; in the function itself its own name (10.4.2).
    Function,
    Instance,
    /// A gate that has a name.
    Gate,
    /// A name in the header of a module that lists names alone. Its direction stands in the body.
    Listed,
}

/// A declaration of a name. What is said of `signed` and of ranges holds of all but parameters.
#[derive(Clone, Copy)]
pub struct Declaration {
    /// That of the name.
    pub place: u32,
    pub kind: Kind,
    pub signed: bool,
    /// Whether it has a range.
    pub ranged: bool,
    /// Whether it is a direction in the body of a module with neither `wire` nor `reg` beside it, which a second declaration
    /// may complete (12.3.3).
    pub partial: bool,
}

impl Declaration {
    /// A declaration of a kind, with neither sign nor range; its place is to come.
    pub fn plain(kind: Kind) -> Declaration
        ensures { result ≡ plain kind }
    {
        Declaration {
            place: 0,
            kind,
            signed: false,
            ranged: false,
            partial: false,
        }
    }

    /// The same at a place.
    pub fn at_place(self, place: u32) -> Declaration
        ensures { result ≡ at_place self place }
    {
        Declaration { place, ..self }
    }
}

/// A name and its declaration.
#[derive(Clone, Copy)]
pub struct Entry<'s> {
    pub name: &'s [u8],
    pub declaration: Declaration,
}
