//! The parameters of a line.
ghost use Rattle.std.specs.Prelude.{◌≡◌, ◌∷◌, [], List, IfOk, nat_eq};
ghost use Rattle.std.specs.Cmp.Lexicographic.{pointwise};
ghost use Rattle.std.specs.Cmp.Rules.{comparing};
ghost use Rattle.std.specs.List.{AllByRecursion};
ghost use Rattle.std.specs.Ordering.{on};
ghost use Rattle.std.proofs.Common.{rules};
ghost use Rattle.itip_lines.specs.Lawful.{params_text, IsLawfulParam};
ghost use Rattle.itip_lines.specs.Lookup.{has_param, param_value};
ghost use Rattle.itip_lines.specs.ParamsText.{IsParamsText};
ghost use Rattle.itip_lines.specs.declared.line.Param.{Param};

use crate::bytes::Bytes;
use crate::lookup::{param_value, values_of};
use crate::write::write_param;
use std::alloc::{AllocError, Global};
use std::fmt;
use std::marker::Model;

/// The parameters of a line (RFC 5545 3.2), each a name with its values, in order.
///
/// They are lawful, and are stored in one block of memory as they are written: names in upper case, and a value in
/// quotes exactly if it has `;`, `:` or `,`.
#[derive(Drop)]
pub struct Params {
    octets: Bytes,
}

impl Model for Params {
    ghost use Rattle.std.specs.Prelude.{List};
    ghost use Rattle.itip_lines.specs.declared.line.Param.{Param};

    ghost Value = { List Param };

    ghost use Rattle.std.specs.Coded.{coded_list};
    ghost use Rattle.itip_lines.specs.contracts.line.Param as param;

    ghost coded = { coded_list param.the_row.coded };

    ghost use Rattle.itip_lines.specs.ParamsText.{params_in, IsParamsText};

    ghost view = { λ p. params_in p.octets };

    ghost invariant = { λ p. IsParamsText p.octets };
}

impl Params {
    /// No parameters. Does not allocate.
    pub fn new(alloc: Global) -> Params
        ensures { result ≡ [] }
    {
        Params::from_text(Vec::new(alloc))
    }

    /// One parameter with one value.
    pub fn one(alloc: Global, name: &str, value: &str) -> Result<Params, AllocError>
        requires { IsLawfulParam (record { name = name.now; values = value.now ∷ [] }) }
        ensures { IfOk result (λ params. params ≡ (record { name = name.now; values = value.now ∷ [] }) ∷ []) }
    {
        let mut text = Vec::new(alloc);
        write_param(name, value, &mut text)?;
        Ok(Params::from_text(text))
    }

    /// The parameters in this text, whose memory they keep.
    pub(crate) fn from_text(text: Vec<u8>) -> Params
        requires { IsParamsText text.items }
        ensures { (params : List Param) → AllByRecursion IsLawfulParam params → text.items ≡ params_text params → result ≡ params }
    {
        let octets = Bytes::new(text);
        Params { octets }
    }

    /// The parameters as they are written, each with its leading `;`.
    pub fn as_str(&self) -> &str
        ensures text { result.now ≡ params_text self.now }
        ensures lawful { AllByRecursion IsLawfulParam self.now }
    {
        // Names and values are UTF-8.
        unsafe { str::from_utf8_unchecked(self.octets.as_slice()) }
    }

    /// Whether there is a parameter with this name, given in upper case. Does not allocate.
    pub fn has(&self, name: &str) -> bool
        ensures { result ≡ has_param name.now self.now }
    {
        values_of(name, self.as_str().as_bytes()).is_some()
    }

    /// The first value of the first parameter with this name, given in upper case; empty if there is none. Does not
    /// allocate.
    pub fn first_value(&self, name: &str) -> &str
        ensures { result.now ≡ param_value name.now self.now }
    {
        param_value(self.as_str(), name)
    }
}

impl Clone for Params {
    ghost is_clone = { λ params copy. copy ≡ params };

    fn clone(&self) -> Result<Params, AllocError> {
        let octets = self.octets.clone()?;
        Ok(Params { octets })
    }
}

impl PartialEq for Params {
    ghost eq = { on params_text (pointwise nat_eq) };

    ghost laws = { Prim.search (comparing, rules) };

    fn eq(&self, other: &Self) -> bool {
        self.as_str() == other.as_str()
    }
}

impl fmt::Debug for Params {
    fn fmt<W: fmt::Write>(&self, f: &mut fmt::Formatter<W>) -> fmt::Result {
        fmt::Debug::fmt(self.as_str(), f)
    }
}
