ghost use Rattle.std.specs.Prelude.{IfOk};
ghost use Rattle.heco_syntax.specs.Wellformed.{IsWellformed};

use heco_parse::parse;
use heco_syntax::Source;
use heco_types::{TypeErr, Typed, check};
use std::alloc::Global;
use std::test::Fail;

/// The source of a text. Of what reading promises, only what typing asks is passed on: so what calls this is proved fast.
pub fn source_of(alloc: Global, text: &str) -> Result<Source, Fail>
    ensures { IfOk result IsWellformed }
{
    match parse(alloc, text.as_bytes()) {
        Ok(source) => Ok(source),
        Err(_) => Err("no tree".into()),
    }
}

/// The typed source of a text, of which nothing is promised.
pub fn typed(alloc: Global, text: &str) -> Result<Result<Typed, TypeErr>, Fail> {
    let source = source_of(alloc, text)?;
    Ok(check(alloc, source))
}

fn told(alloc: Global, refusal: Option<TypeErr>) -> Result<String, Fail> {
    match refusal {
        None => Ok(String::from_str(alloc, "Typed")?),
        Some(TypeErr::At { rule, at }) => {
            Ok(format!(in alloc; "{rule:?} {}:{}", at.line, at.col)?)
        }
        Some(TypeErr::Memory) => Err("no memory".into()),
    }
}

/// What typing the source of a text answers: `Typed`, or the first broken rule and its place.
pub fn answer_to(alloc: Global, text: &str) -> Result<String, Fail> {
    told(alloc, typed(alloc, text)?.err())
}
