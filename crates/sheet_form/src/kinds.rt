// The kinds of call that a sheet has.
ghost use Rattle.std.specs.Prelude.{◌≡◌, ◌&&◌, leb, true};
ghost use Rattle.sheet_form.specs.Form.{bytes_call, relocation_call};
ghost use Rattle.sheet_form.specs.Kinds.{code_of, Decodes};

// In the order of document 01's list; the number of each is the byte that stands for it.
#[derive(Clone, Copy, PartialEq, Eq)]
pub enum Kind {
    Bytes = 1,
    NewLabel = 2,
    Bind = 3,
    Align = 4,
    Use = 5,
    Ref = 6,
    Jump = 7,
    Constant = 8,
    ConstantLabel = 9,
    Relocation = 10,
}

// A byte that stands for no kind.
#[derive(Clone, Copy)]
pub struct NoKind;

impl TryFrom<u8> for Kind {
    type Error = NoKind;

    ghost try_from_gives = { Decodes };

    fn try_from(byte: u8) -> Result<Kind, NoKind> {
        match byte {
            1 => Ok(Kind::Bytes),
            2 => Ok(Kind::NewLabel),
            3 => Ok(Kind::Bind),
            4 => Ok(Kind::Align),
            5 => Ok(Kind::Use),
            6 => Ok(Kind::Ref),
            7 => Ok(Kind::Jump),
            8 => Ok(Kind::Constant),
            9 => Ok(Kind::ConstantLabel),
            10 => Ok(Kind::Relocation),
            _ => Err(NoKind),
        }
    }
}

// The kind of a call whose form is sound, from its byte.
pub fn of_byte(byte: u8) -> Kind
    requires { (leb bytes_call byte && leb byte relocation_call) ≡ true }
    ensures { code_of result ≡ byte }
{
    Kind::try_from(byte).unwrap()
}
