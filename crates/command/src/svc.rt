// The lines of extended service calls (request T-03).
ghost use Rattle.command.specs.Shapes.{Small};

use crate::flaw::Flaw;
use crate::numbers::Numbers;
use crate::parse::Command;
use crate::shape::Shape;
use model::Request;
use model::svc::ExtendedCall;

// The command that a word of this kind names, with the line's numbers; None for any other word.
pub(crate) fn named(word: &[u8], numbers: Numbers) -> Option<Result<Command, Flaw>> {
    match word {
        b"cal_svc" => Some(asked(numbers, ExtendedCall::Enter)),
        b"ret_svc" => Some(asked(numbers, ExtendedCall::Leave)),
        _ => None,
    }
}

// The caller is the line's one number: these calls name no object.
pub fn shape() -> Shape
    ensures { Small result }
{
    Shape::fixed(1, 0)
}

fn asked(numbers: Numbers, call: ExtendedCall) -> Result<Command, Flaw> {
    numbers.counted(shape())?;
    let task = numbers.number(1)?;
    Ok(Command::Call(task, Request::Extended(call)))
}
