//! What a value of `If` says.
use crate::refusals::Refusal;
use crate::words::escaped;
use dav_headers_core::davheaders::{self, If, IfItem, IfList};
use std::alloc::{AllocError, Global};
use std::convert::AsStr;

/// Of `If`: the URL of each list and then its conditions, tokens as `<..>` and tags as `[..]`. It isn't written.
pub fn if_value(alloc: Global, header: &If) -> Result<String, Refusal> {
    let mut answer = String::new(alloc);
    for list in &header.0 {
        push_list(&mut answer, list)?;
    }
    let name = davheaders::if_(alloc)?;
    write!(answer, "; {} isn't written", name.as_str())?;
    Ok(answer)
}

fn push_list(answer: &mut String, list: &IfList) -> Result<(), AllocError> {
    if let Some(url) = &list.resource_tag {
        write!(answer, "{}", escaped(url.as_str().as_bytes()))?;
    }
    answer.push_str("(")?;
    for condition in &list.conditions {
        if condition.not {
            answer.push_str("Not ")?;
        }
        push_item(answer, &condition.item)?;
    }
    answer.push_str(")")
}

fn push_item(answer: &mut String, item: &IfItem) -> Result<(), AllocError> {
    match item {
        IfItem::StateToken(token) => write!(answer, "<{}>", escaped(token.as_bytes())),
        IfItem::ETag(tag) => write!(answer, "[{}]", escaped(tag.as_str().as_bytes())),
    }
}
