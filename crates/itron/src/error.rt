// Refusals (document 01, "Codes a desk clerk sees") as functions hand them up; each has its number in `code`.
ghost use Rattle.std.specs.Prelude.{◌≡◌};
ghost use Rattle.itron.specs.Codes.{number_of, code_of, Decodes};

use crate::code::{
    E_CTX, E_ID, E_ILUSE, E_MACV, E_NOEXS, E_NOID, E_NOMEM, E_OACV, E_OBJ, E_OK, E_PAR, E_QOVR,
    E_RSATR, E_SYS, E_TMOUT,
};
use std::fmt;

#[derive(Clone, Copy, Debug, PartialEq, Eq)]
pub enum Error {
    Sys,
    Rsatr,
    Par,
    Id,
    Ctx,
    Macv,
    Oacv,
    Iluse,
    Nomem,
    Noid,
    Obj,
    Noexs,
    Qovr,
    Tmout,
}

impl From<Error> for i32 {
    ghost from_gives = { λ error number. number ≡ number_of error };

    fn from(error: Error) -> i32 {
        match error {
            Error::Sys => E_SYS,
            Error::Rsatr => E_RSATR,
            Error::Par => E_PAR,
            Error::Id => E_ID,
            Error::Ctx => E_CTX,
            Error::Macv => E_MACV,
            Error::Oacv => E_OACV,
            Error::Iluse => E_ILUSE,
            Error::Nomem => E_NOMEM,
            Error::Noid => E_NOID,
            Error::Obj => E_OBJ,
            Error::Noexs => E_NOEXS,
            Error::Qovr => E_QOVR,
            Error::Tmout => E_TMOUT,
        }
    }
}

// A number that is no refusal's.
#[derive(Clone, Copy, Debug, PartialEq, Eq)]
pub struct NoError(pub i32);

impl TryFrom<i32> for Error {
    type Error = NoError;

    ghost try_from_gives = { Decodes };

    fn try_from(number: i32) -> Result<Error, NoError> {
        match number {
            E_SYS => Ok(Error::Sys),
            E_RSATR => Ok(Error::Rsatr),
            E_PAR => Ok(Error::Par),
            E_ID => Ok(Error::Id),
            E_CTX => Ok(Error::Ctx),
            E_MACV => Ok(Error::Macv),
            E_OACV => Ok(Error::Oacv),
            E_ILUSE => Ok(Error::Iluse),
            E_NOMEM => Ok(Error::Nomem),
            E_NOID => Ok(Error::Noid),
            E_OBJ => Ok(Error::Obj),
            E_NOEXS => Ok(Error::Noexs),
            E_QOVR => Ok(Error::Qovr),
            E_TMOUT => Ok(Error::Tmout),
            _ => Err(NoError(number)),
        }
    }
}

// A refusal by its name.
impl fmt::Display for Error {
    fn fmt<W: fmt::Write>(&self, f: &mut fmt::Formatter<W>) -> fmt::Result {
        f.write_str(match self {
            Error::Sys => "E_SYS",
            Error::Rsatr => "E_RSATR",
            Error::Par => "E_PAR",
            Error::Id => "E_ID",
            Error::Ctx => "E_CTX",
            Error::Macv => "E_MACV",
            Error::Oacv => "E_OACV",
            Error::Iluse => "E_ILUSE",
            Error::Nomem => "E_NOMEM",
            Error::Noid => "E_NOID",
            Error::Obj => "E_OBJ",
            Error::Noexs => "E_NOEXS",
            Error::Qovr => "E_QOVR",
            Error::Tmout => "E_TMOUT",
        })
    }
}

// The code of what was checked or done: E_OK, or the refusal's.
pub fn code_of(checked: Result<(), Error>) -> i32
    ensures { result ≡ code_of checked }
{
    match checked {
        Ok(()) => E_OK,
        Err(error) => i32::from(error),
    }
}
