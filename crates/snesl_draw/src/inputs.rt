// The streams of inputs, as their nodes are called.

use crate::drawing::InputStream;
use snesl_grammar::Program;
use snesl_grammar::tree::{Declaration, Span, WrittenType};
use std::alloc::{AllocError, Global};

// The streams of the inputs of a program, in the order of their nodes.
pub(crate) fn input_streams(
    alloc: Global,
    program: &Program,
) -> Result<Vec<InputStream>, AllocError> {
    let mut streams = Vec::new(alloc);
    for declaration in &program.declarations {
        if let Declaration::Input(typing) = declaration {
            add_streams(&mut streams, typing.name, &typing.ty, "")?;
        }
    }
    Ok(streams)
}

// Those of a part of an input, which has this type.
fn add_streams(
    streams: &mut Vec<InputStream>,
    name: Span,
    ty: &WrittenType,
    part: &'static str,
) -> Result<(), AllocError> {
    match ty {
        WrittenType::Int { .. } | WrittenType::Bool { .. } | WrittenType::Vector { .. } => {
            streams.push(InputStream { name, part })?;
        }
        WrittenType::Pair { first, second, .. } => {
            add_streams(streams, name, first, "first")?;
            add_streams(streams, name, second, "second")?;
        }
        WrittenType::Sequence { item, .. } => {
            streams.push(InputStream {
                name,
                part: "lengths",
            })?;
            add_streams(streams, name, item, "items")?;
        }
    }
    Ok(())
}
