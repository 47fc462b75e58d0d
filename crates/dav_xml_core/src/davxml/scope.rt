//! The bindings that hold at a place, found by their prefixes, and numbers of their namespaces.
ghost use Rattle.std.specs.Prelude.{◌≡◌, ◌-◌, ◌++◌, ◌∷◌, [], length, option_map, take, List, ℕ, IfErr, IfOk, IfSome, IsSome, OnOk};
ghost use Rattle.std.specs.Rc.{rc_str_bytes};
ghost use Rattle.dav_xml_core.specs.Namespaces as spec;
ghost use Rattle.dav_xml_core.specs.Scopes.{binding, number_at, namespace_number, place_at, PutsPlace};

use std::alloc::{AllocError, Global};
use std::collections::BTreeMap;
use std::marker::Model;
use std::rc::RcStr;

/// A prefix, which is empty for the default namespace, and what it is bound to.
#[derive(Drop)]
pub(super) struct Binding<'a> {
    prefix: &'a [char],
    pub(super) namespace: RcStr,
    /// How many bindings stand before the first one of the same namespace.
    pub(super) number: usize,
    /// The place of the binding of the same prefix that holds around this one.
    covered: Option<usize>,
}

/// The bindings that hold, in their order. A prefix is bound by the last binding of it.
#[derive(Drop)]
pub(super) struct Scope<'a> {
    bindings: Vec<Binding<'a>>,
    /// The place of the last binding of each prefix.
    innermost: BTreeMap<&'a [char], usize>,
    /// The number of each namespace that is bound. Namespaces that are bound no longer stay, and their numbers say nothing.
    numbers: BTreeMap<RcStr, usize>,
    /// The empty text, of which all names without a namespace have a clone.
    no_namespace: RcStr,
}

impl<'a> Model for Scope<'a> {
    ghost use Rattle.std.specs.Prelude.{List, map};
    ghost use Rattle.dav_xml_core.specs.Namespaces.{Binding};

    ghost Value = { List Binding };

    ghost use Rattle.dav_xml_core.specs.ScopeTrees.{binding_of, IsKept};

    ghost view = { λ s. map binding_of s.bindings.items };

    ghost invariant = { λ s. IsKept s.bindings.items s.innermost s.numbers s.no_namespace };
}

/// The place of the last binding of a prefix.
fn place_of(innermost: &BTreeMap<&[char], usize>, prefix: &[char]) -> Option<usize>
    ensures { result ≡ place_at innermost.now prefix.now }
{
    innermost.get(prefix).copied()
}

/// The number that a tree has for a namespace.
fn number_in(numbers: &BTreeMap<RcStr, usize>, namespace: &str) -> Option<usize>
    ensures { result ≡ number_at numbers.now namespace.now }
{
    numbers.get(namespace).copied()
}

/// Sets the place of a prefix, which is in the tree, or takes it out.
fn put_back<'a>(
    innermost: &mut BTreeMap<&'a [char], usize>,
    prefix: &'a [char],
    covered: Option<usize>,
)
    requires { IsSome (place_at innermost.old prefix.now) }
    ensures { PutsPlace innermost.old innermost.new prefix.now covered }
{
    match covered {
        Some(place) => {
            // The prefix is there, so this takes no memory.
            let _ = innermost.insert(prefix, place);
        }
        None => {
            innermost.remove(prefix);
        }
    }
}

impl<'a> Scope<'a> {
    /// Nothing is bound.
    pub(super) fn new(alloc: Global) -> Result<Scope<'a>, AllocError>
        ensures { IfOk result (λ x. x ≡ []) }
    {
        let no_namespace = RcStr::from_str(alloc, "")?;
        Ok(Scope {
            bindings: Vec::new(alloc),
            innermost: BTreeMap::new(alloc),
            numbers: BTreeMap::new(alloc),
            no_namespace,
        })
    }

    /// How many bindings hold.
    pub(super) fn len(&self) -> usize
        ensures { result ≡ length self.now }
    {
        self.bindings.len()
    }

    /// The text of no namespace.
    pub(super) fn no_namespace(&self) -> &RcStr
        ensures { rc_str_bytes result.now ≡ [] }
    {
        &self.no_namespace
    }

    /// What a prefix is bound to.
    pub(super) fn bound(&self, prefix: &[char]) -> Option<&Binding<'a>>
        ensures namespace { option_map (λ x. rc_str_bytes x.now.namespace) result ≡ spec.bound_namespace prefix.now self.now }
        ensures number { IfSome result (λ x. x.now.number ≡ namespace_number (rc_str_bytes x.now.namespace) self.now) }
    {
        let place = place_of(&self.innermost, prefix)?;
        let binding = self.bindings.get(place)?;
        Some(binding)
    }

    /// How many bindings stand before the first one of a namespace: all of them, where none is of it.
    pub(super) fn number(&self, namespace: &str) -> usize
        ensures { result ≡ namespace_number namespace.now self.now }
    {
        let last = self.bindings.len();
        let place = number_in(&self.numbers, namespace).unwrap_or(last);
        let Some(binding) = self.bindings.get(place) else {
            return last;
        };
        if binding.namespace.as_str() == namespace {
            return place;
        }
        last
    }

    /// Binds a prefix.
    pub(super) fn bind(&mut self, prefix: &'a [char], namespace: RcStr) -> Result<(), AllocError>
        ensures { OnOk result (self.new ≡ self.old ++ binding prefix.now (rc_str_bytes namespace) ∷ []) }
    {
        let place = self.bindings.len();
        let number = self.number(namespace.as_str());
        let key = namespace.clone()?;
        self.numbers.insert(key, number)?;
        let covered = place_of(&self.innermost, prefix);
        self.bindings.push(Binding {
            prefix,
            namespace,
            number,
            covered,
        })?;
        match self.innermost.insert(prefix, place) {
            Ok(_) => Ok(()),
            Err(_) => {
                self.bindings.pop();
                Err(AllocError)
            }
        }
    }

    /// Ends the last binding.
    fn unbind(&mut self)
        ensures { self.new ≡ take (length self.old - 1) self.old }
    {
        if let Some(binding) = self.bindings.pop() {
            put_back(&mut self.innermost, binding.prefix, binding.covered);
        }
    }

    /// Ends all bindings but so many.
    pub(super) fn end_to(&mut self, around: usize)
        ensures { self.new ≡ take around self.old }
    {
        while self.len() > around {
            self.unbind();
        }
    }
}
