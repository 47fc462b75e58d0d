//! The state tokens of an `If`.
ghost use Rattle.std.specs.Prelude.{◌≡◌, IfOk, OnOk, fold, map, string_bytes};
ghost use Rattle.dav_headers_core.specs.IfValues.{condition_of, conditions_of, located_list};
ghost use Rattle.dav_fields_core.specs.IfTokens as spec;

use dav_headers_core::davheaders::{If, IfCondition, IfItem, IfList};
use std::alloc::{AllocError, Global};

/// Whether a token is among these.
pub fn is_among(tokens: &[String], token: &str) -> bool
    ensures { result ≡ spec.is_among (map string_bytes tokens.now) token.now }
{
    tokens.iter().any(|t| t.as_str() == token)
}

// Adds the state token of a condition, where it has one that isn't there yet.
fn add_token(tokens: &mut Vec<String>, condition: &IfCondition) -> Result<(), AllocError>
    ensures { OnOk result (map string_bytes tokens.new.items
        ≡ fold spec.with_once (map string_bytes tokens.old.items) (spec.token_of (condition_of condition.now))) }
{
    if let IfItem::StateToken(text) = &condition.item {
        if !is_among(tokens, text) {
            tokens.push(text.clone()?)?;
        }
    }
    Ok(())
}

// Adds the state tokens of some conditions.
fn add_tokens(tokens: &mut Vec<String>, conditions: &[IfCondition]) -> Result<(), AllocError>
    ensures { OnOk result (map string_bytes tokens.new.items
        ≡ fold spec.with_once (map string_bytes tokens.old.items) (spec.tokens_in (conditions_of conditions.now))) }
{
    for condition in conditions {
        add_token(tokens, condition)?;
    }
    Ok(())
}

// The state tokens of some lists, each once.
fn tokens_of(alloc: Global, lists: &[IfList]) -> Result<Vec<String>, AllocError>
    ensures { IfOk result (λ tokens. map string_bytes tokens.items ≡ spec.tokens_of (map located_list lists.now)) }
{
    let mut tokens = Vec::new(alloc);
    for list in lists {
        add_tokens(&mut tokens, &list.conditions)?;
    }
    Ok(tokens)
}

/// All state tokens of an `If`, those behind `Not` too, in order, each once (RFC 4918 section 10.4).
pub fn tokens(alloc: Global, header: &If) -> Result<Vec<String>, AllocError>
    ensures { IfOk result (λ tokens. map string_bytes tokens.items ≡ spec.tokens_of (map located_list header.now.0.items)) }
{
    let If(lists) = header;
    tokens_of(alloc, lists)
}
