//! Labels of locks: `tN` stands for the token of the lock that was granted as the N-th.
ghost use Rattle.std.specs.Prelude.{◌≡◌, [], ◌∷◌, ◌++◌, map, option_map, Some, None, string_bytes, IfOk, OnOk, OnErr};
ghost use Rattle.dav_resource_core.specs.Labels.{label_in, smallest_label};
ghost use Rattle.dav_resource_core.specs.RequestLines.{nth_token, token_at, labelled_token};

use line_streams::numbers::number;
use std::alloc::{AllocError, Global};
use std::collections::HashMap;
use std::marker::Model;

/// The locks granted so far, by their tokens. It is seen as the list of these, in the order of granting.
#[derive(Drop)]
pub(super) struct Labels {
    alloc: Global,
    /// In the order of granting.
    tokens: Vec<String>,
    /// Of each token, the smallest number of a lock that has it.
    numbers: HashMap<String, usize>,
}

impl Model for Labels {
    ghost use Rattle.std.specs.Prelude.{ℕ, List, map, string_bytes};
    ghost use Rattle.std.specs.HashMap.{get_by_text};
    ghost use Rattle.dav_resource_core.specs.Private.LabelMaps.{coded_tokens, AreSmallest};

    ghost Value = { List (List ℕ) };

    ghost coded = { coded_tokens };

    ghost view = { λ labels. map string_bytes labels.tokens.items };

    ghost invariant = { λ labels. AreSmallest (map string_bytes labels.tokens.items) (get_by_text labels.numbers) };
}

impl Labels {
    pub(super) fn new(alloc: Global) -> Labels
        ensures { result ≡ [] }
    {
        Labels {
            alloc,
            tokens: Vec::new(alloc),
            numbers: HashMap::new(alloc),
        }
    }

    /// Keeps the token of a lock that was granted, and gives the number of its label.
    pub(super) fn add(&mut self, token: String) -> Result<usize, AllocError>
        ensures tokens { OnOk result (self.new ≡ self.old ++ string_bytes token ∷ []) }
        ensures number { IfOk result (λ number. number ≡ label_in self.new (string_bytes token)) }
        ensures err { OnErr result (self.new ≡ self.old) }
    {
        match self.numbers.get(token.as_str()).copied() {
            Some(number) => {
                self.tokens.push(token)?;
                Ok(number)
            }
            None => self.add_first(token),
        }
    }

    // The same, of a token that no lock was granted with before.
    fn add_first(&mut self, token: String) -> Result<usize, AllocError>
        requires { smallest_label self.old (string_bytes token) ≡ None }
        ensures tokens { OnOk result (self.new ≡ self.old ++ string_bytes token ∷ []) }
        ensures number { IfOk result (λ number. smallest_label self.new (string_bytes token) ≡ Some number) }
        ensures err { OnErr result (self.new ≡ self.old) }
    {
        self.tokens.push(token.clone()?)?;
        let number = self.tokens.len();
        match self.numbers.insert(token, number) {
            Ok(_) => return Ok(number),
            Err(_) => {
                let _undone = self.tokens.pop();
                return Err(AllocError);
            }
        }
    }

    /// The number of a token's label. Every lock of the stores was granted here; one that wasn't would be 0.
    pub(super) fn number_of(&self, token: &str) -> usize
        ensures { result ≡ label_in self.now token.now }
    {
        self.numbers.get(token).copied().unwrap_or(0)
    }

    /// The tokens that labels stand for.
    pub(super) fn tokens_of(&self, labels: &[&str]) -> Result<Vec<String>, AllocError>
        ensures { IfOk result (λ tokens. map string_bytes tokens.items
            ≡ map (λ label. labelled_token self.now label.now) labels.now) }
    {
        let mut tokens = Vec::new(self.alloc);
        for label in labels {
            tokens.push(self.token_of(label)?)?;
        }
        Ok(tokens)
    }

    /// The token that a label stands for; where no such lock was granted its own text, which is no token.
    pub(super) fn token_of(&self, label: &str) -> Result<String, AllocError>
        ensures { IfOk result (λ token. string_bytes token ≡ labelled_token self.now label.now) }
    {
        match self.granted_at(label) {
            Some(token) => String::from_str(self.alloc, token),
            None => String::from_str(self.alloc, label),
        }
    }

    // The token of the lock that a label names, if it was granted.
    #[tactic(auto, unfolding(crate::specs::RequestLines::token_at))]
    fn granted_at(&self, label: &str) -> Option<&str>
        ensures { option_map (λ token. token.now) result ≡ token_at self.now label.now }
    {
        self.nth(number(label.strip_prefix("t")?)?)
    }

    // The token of the lock that was granted as the N-th, from 1.
    #[tactic(auto, unfolding(crate::specs::RequestLines::nth_token))]
    fn nth(&self, number: u64) -> Option<&str>
        ensures { option_map (λ token. token.now) result ≡ nth_token (self.now) number }
    {
        if number == 0 {
            return None;
        }
        let place = number as usize - 1;
        Some(self.tokens.get(place)?.as_str())
    }
}
