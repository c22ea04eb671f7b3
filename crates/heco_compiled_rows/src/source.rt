use heco_circuit::Circuit;
use heco_compile::compile;
use heco_sources::read_source;
use heco_types::Typed;
use std::alloc::Global;
use std::test::Fail;

/// The source that a field of a row stands for: `params p8; fn ` stands in front of one that begins with `f(`.
pub fn source_of(alloc: Global, field: &str) -> Result<String, Fail> {
    let mut text = String::new(alloc);
    if field.starts_with("f(") {
        text.push_str("params p8; fn ")?;
    }
    text.push_str(field)?;
    Ok(text)
}

pub fn typed(alloc: Global, source: &str) -> Result<Typed, Fail> {
    match read_source(alloc, source.as_bytes()) {
        Ok(t) => Ok(t),
        Err(_) => Err("no source".into()),
    }
}

pub fn compiled(alloc: Global, source: &str) -> Result<Circuit, Fail> {
    match compile(alloc, source.as_bytes()) {
        Ok(c) => Ok(c),
        Err(_) => Err("refused".into()),
    }
}
