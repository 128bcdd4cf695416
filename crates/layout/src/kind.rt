// The kinds of a record.
ghost use Rattle.std.specs.Prelude.{◌≡◌};
ghost use Rattle.layout.specs.Kind.{kind_of};

#[derive(Clone, Copy, Debug, PartialEq, Eq)]
pub enum Kind {
    Root = 1,
    Upstream = 2,
    Downstream = 3,
    Endpoint = 4,
}

// A byte that is no kind.
#[derive(Clone, Copy, Debug, PartialEq, Eq)]
pub struct UnknownKind(pub u8);

impl TryFrom<u8> for Kind {
    type Error = UnknownKind;

    ghost try_from_gives = { λ byte kind. kind ≡ kind_of byte };

    fn try_from(byte: u8) -> Result<Self, UnknownKind> {
        match byte {
            1 => Ok(Kind::Root),
            2 => Ok(Kind::Upstream),
            3 => Ok(Kind::Downstream),
            4 => Ok(Kind::Endpoint),
            _ => Err(UnknownKind(byte)),
        }
    }
}
