//! Fields that are put behind bytes.
ghost use Rattle.std.specs.Prelude.{◌≡◌, ◌++◌, length, map, IfSome, OnOk, option_map, string_bytes};
ghost use Rattle.std.specs.List.{AllByRecursion};
ghost use Rattle.dav_effects_core.specs.ByteForms.{FitsInEight, HasCount, IsUtf8Text, counted_text, each_text, flag_text, following_text, number_text, optional_text};
ghost use Rattle.dav_effects_core.specs.RecordText.{drawn_text};

use crate::fields::common_len;
use std::alloc::AllocError;

/// Puts a number in eight bytes, the lowest first (own). `AllocError` where there is no memory for it.
#[tactic(auto, unfolding(crate::specs::ByteForms::number_text))]
pub fn put_number(out: &mut Vec<u8>, number: u64) -> Result<(), AllocError>
    ensures text { OnOk result (out.new.items ≡ out.old.items ++ number_text number) }
    ensures fits { FitsInEight number }
{
    out.extend_from_slice(&number.to_le_bytes())
}

/// Puts bytes behind their number (own). `AllocError` where there is no memory for it.
pub fn put_counted(out: &mut Vec<u8>, bytes: &[u8]) -> Result<(), AllocError>
    ensures text { OnOk result (out.new.items ≡ out.old.items ++ counted_text bytes.now) }
    ensures fits { HasCount bytes.now }
{
    put_number(out, bytes.len() as u64)?;
    out.extend_from_slice(bytes)
}

/// Puts a text behind the number of its bytes (own). `AllocError` where there is no memory for it.
#[tactic(auto, using(crate::proofs::Texts::utf8_tests))]
pub fn put_text(out: &mut Vec<u8>, text: &str) -> Result<(), AllocError>
    ensures text { OnOk result (out.new.items ≡ out.old.items ++ counted_text text.now) }
    ensures fits { IsUtf8Text text.now }
{
    put_counted(out, text.as_bytes())
}

/// Puts a yes or no as a byte 1 or 0 (own). `AllocError` where there is no memory for it.
pub fn put_flag(out: &mut Vec<u8>, flag: bool) -> Result<(), AllocError>
    ensures { OnOk result (out.new.items ≡ out.old.items ++ flag_text flag) }
{
    out.extend_from_slice(&[flag as u8])
}

/// Puts whether there is a text, and the text (own). `AllocError` where there is no memory for it.
pub fn put_optional_text(out: &mut Vec<u8>, text: &Option<String>) -> Result<(), AllocError>
    ensures text { OnOk result (out.new.items
        ≡ out.old.items ++ optional_text counted_text (option_map string_bytes text.now)) }
    ensures fits { OnOk result (IfSome (option_map string_bytes text.now) IsUtf8Text) }
{
    match text {
        None => put_flag(out, false),
        Some(text) => {
            put_flag(out, true)?;
            put_text(out, text.as_str())
        }
    }
}

pub(crate) fn put_optional_bytes(
    out: &mut Vec<u8>,
    bytes: &Option<Vec<u8>>,
) -> Result<(), AllocError>
    ensures text { OnOk result (out.new.items
        ≡ out.old.items ++ optional_text counted_text (option_map (λ v. v.items) bytes.now)) }
    ensures fits { OnOk result (IfSome (option_map (λ v. v.items) bytes.now) HasCount) }
{
    match bytes {
        None => put_flag(out, false),
        Some(bytes) => {
            put_flag(out, true)?;
            put_counted(out, bytes)
        }
    }
}

/// Puts whether there is a number, and the number (own). `AllocError` where there is no memory for it.
pub fn put_optional_number(out: &mut Vec<u8>, number: Option<u64>) -> Result<(), AllocError>
    ensures text { OnOk result (out.new.items ≡ out.old.items ++ optional_text number_text number) }
    ensures fits { OnOk result (IfSome number FitsInEight) }
{
    match number {
        None => put_flag(out, false),
        Some(number) => {
            put_flag(out, true)?;
            put_number(out, number)
        }
    }
}

/// Puts which locks are asked for, or which one stands: its timeout in seconds, whether it is shared, and whether it is deep (own). `AllocError` where there is no
/// memory for it.
pub fn put_lock_kind(
    out: &mut Vec<u8>,
    timeout: Option<u64>,
    shared: bool,
    deep: bool,
) -> Result<(), AllocError>
    ensures text { OnOk result (out.new.items ≡ out.old.items ++ (optional_text number_text timeout ++ (flag_text shared ++ flag_text deep))) }
    ensures timeout { OnOk result (IfSome timeout FitsInEight) }
{
    put_optional_number(out, timeout)?;
    put_flag(out, shared)?;
    put_flag(out, deep)
}

pub(crate) fn put_optional_size(out: &mut Vec<u8>, size: Option<usize>) -> Result<(), AllocError>
    ensures text { OnOk result (out.new.items ≡ out.old.items ++ optional_text number_text size) }
    ensures fits { OnOk result (IfSome size FitsInEight) }
{
    match size {
        None => put_flag(out, false),
        Some(size) => {
            put_flag(out, true)?;
            put_number(out, size as u64)
        }
    }
}

pub(crate) fn put_drawn(out: &mut Vec<u8>, drawn: Option<[u8; 16]>) -> Result<(), AllocError>
    ensures text { OnOk result (out.new.items ≡ out.old.items ++ optional_text drawn_text drawn) }
    ensures fits { OnOk result (IfSome drawn (λ bytes. length bytes ≡ 16)) }
{
    match drawn {
        None => put_flag(out, false),
        Some(drawn) => {
            put_flag(out, true)?;
            out.extend_from_slice(&drawn)
        }
    }
}

pub(crate) fn put_texts(out: &mut Vec<u8>, texts: &[String]) -> Result<(), AllocError>
    ensures text { OnOk result (out.new.items
        ≡ out.old.items ++ each_text counted_text (map string_bytes texts.now)) }
    ensures few { OnOk result (FitsInEight (length (map string_bytes texts.now))) }
    ensures fits { OnOk result (AllByRecursion IsUtf8Text (map string_bytes texts.now)) }
{
    put_number(out, texts.len() as u64)?;
    'putting: for text in texts {
        put_text(out, text.as_str())?;
    }
    Ok(())
}

/// Puts a text behind the one before: how much of its front both have, how long it is, and the rest of
/// it (own). `AllocError` where there is no memory for it.
#[tactic(auto, unfolding(crate::specs::ByteForms::following_text))]
pub fn put_following(out: &mut Vec<u8>, before: &[u8], text: &[u8]) -> Result<(), AllocError>
    ensures text { OnOk result (out.new.items ≡ out.old.items ++ following_text before.now text.now) }
    ensures fits { HasCount text.now }
{
    let len = common_len(before, text);
    put_number(out, len as u64)?;
    put_number(out, text.len() as u64)?;
    out.extend_from_slice(&text[len..])
}
