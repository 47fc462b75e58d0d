//! `Content-Language`.
ghost use Rattle.std.specs.Prelude.{◌≡◌, None, Err, IfErr, is_some, option_copied, map, string_bytes};
ghost use Rattle.std.specs.List.{list_all};
ghost use Rattle.http_header.specs.FieldValue.{IsVisibleAscii};
ghost use Rattle.dav_headers_core.specs.HeaderGives.{Gives, GivesFirst};
ghost use Rattle.dav_headers_core.specs.Optional.{every};
ghost use Rattle.dav_headers_core.specs.Values.{is_text_byte, text_of, texts_of, value_of_text};
ghost use Rattle.dav_headers_core.specs.CommaPieces.{comma_pieces, joined_by_commas};
ghost use Rattle.dav_headers_core.specs.Languages.{is_language, language_of, languages_of_bytes, languages_of_all_values, language_header};
ghost use Rattle.dav_headers_core.specs.declared.davheaders.errors.HeaderError.TheVariants as HeaderError;

use super::HeaderError;
use super::values::{is_text, pieces, text_of, value_of};
use http_header::HeaderValue;
use std::alloc::{AllocError, Global};
use std::marker::Model;

/// The languages that a body is meant for (RFC 9110 section 8.5), each a text. A contract sees it as the list of their bytes.
#[derive(Debug, Drop)]
pub struct ContentLanguage {
    languages: Vec<String>,
}

impl Model for ContentLanguage {
    ghost use Rattle.std.specs.Prelude.{◌≡◌, ℕ, true, List, map, string_bytes};
    ghost use Rattle.dav_headers_core.specs.Values.{are_texts};

    ghost Value = { List (List ℕ) };

    ghost view = { λ c. map string_bytes c.languages.items };

    ghost invariant = { λ c. are_texts (map string_bytes c.languages.items) ≡ true };
}

fn is_language(piece: &[u8]) -> bool
    ensures { result ≡ is_language piece.now }
{
    piece.len() == 2 || (piece.len() > 4 && piece[2] == b'-')
}

fn language_of(piece: &str) -> Option<&str>
    ensures { option_copied result ≡ language_of piece.now }
{
    if is_language(piece.as_bytes()) {
        Some(piece)
    } else {
        None
    }
}

fn languages_of_pieces(alloc: Global, pieces: &[&str]) -> Result<Vec<String>, HeaderError>
    ensures { Gives (λ languages. map string_bytes languages.items) result
        (every language_of (map (λ piece. piece.now) pieces.now)) }
{
    let mut languages = Vec::new(alloc);
    for piece in pieces {
        match language_of(piece) {
            Some(language) => languages.push(String::from_str(alloc, language)?)?,
            None => return Err(HeaderError::Invalid),
        }
    }
    Ok(languages)
}

fn languages_of_text(alloc: Global, text: &str) -> Result<Vec<String>, HeaderError>
    requires { IsVisibleAscii text.now }
    ensures { Gives (λ languages. map string_bytes languages.items) result (every language_of (comma_pieces text.now)) }
{
    let pieces = pieces(alloc, text)?;
    languages_of_pieces(alloc, &pieces)
}

fn languages_of_value(alloc: Global, value: &HeaderValue) -> Result<Vec<String>, HeaderError>
    ensures { Gives (λ languages. map string_bytes languages.items) result (languages_of_bytes value.now.bytes) }
{
    let text = text_of(value).ok_or(HeaderError::Invalid)?;
    languages_of_text(alloc, text)
}

fn languages_of_all_values(
    alloc: Global,
    values: &[HeaderValue],
) -> Result<Vec<String>, HeaderError>
    ensures { Gives (λ languages. map string_bytes languages.items) result (languages_of_all_values values.now) }
{
    let mut languages = Vec::new(alloc);
    for value in values {
        let mut more = languages_of_value(alloc, value)?;
        languages.append(&mut more)?;
    }
    Ok(languages)
}

/// Whether there are values, and each is a text.
fn have_texts(values: &[HeaderValue]) -> bool
    ensures { result ≡ is_some (texts_of values.now) }
{
    if values.is_empty() {
        return false;
    }
    values.iter().all(|value| is_text(value.as_bytes()))
}

impl ContentLanguage {
    /// The languages of one value of this text, read as by `decode`: `Invalid` exactly where a byte isn't 32 to 126 or a tab,
    /// or where a piece between commas, without spaces and tabs at its ends, is neither of two bytes nor longer than four bytes
    /// with `-` as its third.
    pub fn from_str(alloc: Global, value: &str) -> Result<ContentLanguage, HeaderError>
        ensures value { Gives (λ languages. languages) result (languages_of_bytes value.now) }
        // Whether it is a text is looked at before memory is taken.
        ensures text { text_of value.now ≡ None → result ≡ Err HeaderError.Invalid }
    {
        if !is_text(value.as_bytes()) {
            return Err(HeaderError::Invalid);
        }
        Ok(ContentLanguage {
            languages: languages_of_text(alloc, value)?,
        })
    }

    /// The languages, in order. It takes no memory.
    pub fn iter_langs(&self) -> &[String]
        ensures { map string_bytes result.now ≡ self.now }
    {
        &self.languages
    }

    /// The languages of one or more texts, one text after another: what stands between the commas, without spaces and tabs at
    /// the ends, each of two bytes or longer than four bytes with `-` as its third (own). Anything else is `Invalid`.
    pub fn decode(alloc: Global, values: &[HeaderValue]) -> Result<ContentLanguage, HeaderError>
        ensures value { Gives (λ languages. languages) result (language_header values.now) }
        // Whether there are texts, and nothing else, is looked at before memory is taken.
        ensures texts { texts_of values.now ≡ None → result ≡ Err HeaderError.Invalid }
    {
        if !have_texts(values) {
            return Err(HeaderError::Invalid);
        }
        Ok(ContentLanguage {
            languages: languages_of_all_values(alloc, values)?,
        })
    }

    /// The languages joined by `, `. `OutOfMemory` alone.
    pub fn encode(&self, alloc: Global) -> Result<HeaderValue, HeaderError>
        ensures value { GivesFirst (λ value. value) result (value_of_text (joined_by_commas self.now)) }
        ensures err { IfErr result (λ e. e ≡ HeaderError.OutOfMemory) }
    {
        value_of(self.languages.join(alloc, ", ")?)
    }
}

/// As many languages, each of the same bytes as the one at its place.
impl PartialEq for ContentLanguage {
    ghost use Rattle.std.specs.Prelude.{nat_eq};
    ghost use Rattle.std.specs.Cmp.{partial_equiv_from_equiv};
    ghost use Rattle.std.specs.Cmp.Lexicographic.{pointwise, lists_equiv, nat_list_eq_equiv};

    ghost eq = { pointwise (pointwise nat_eq) };

    ghost laws = { partial_equiv_from_equiv (lists_equiv nat_list_eq_equiv) };

    fn eq(&self, other: &ContentLanguage) -> bool {
        self.languages == other.languages
    }
}

impl Eq for ContentLanguage {
    ghost use Rattle.std.specs.Cmp.Lexicographic.{lists_equiv, nat_list_eq_equiv};

    ghost laws = { lists_equiv nat_list_eq_equiv };
}

/// The same languages, or out of memory.
impl Clone for ContentLanguage {
    ghost is_clone = { λ languages copy. copy ≡ languages };

    fn clone(&self) -> Result<ContentLanguage, AllocError> {
        Ok(ContentLanguage {
            languages: self.languages.clone()?,
        })
    }
}
