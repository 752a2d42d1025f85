//! Bases.

ghost use Rattle.std.specs.Prelude.{◌≡◌, ◌↔◌, is_ok, true, IfOk, IfErr};
ghost use Rattle.pres_base.specs.Bases.{IsBase};

use crate::check::is_base;
use crate::copies::copy_parts;
use crate::parts::BaseParts;
use std::alloc::{AllocError, Global};
use std::marker::Model;

/// Parts that were checked. A server can be made from them, and keeps from then on what every
/// server keeps. Contracts see the parts.
#[derive(Drop)]
pub struct Base {
    parts: BaseParts,
}

impl Model for Base {
    ghost use Rattle.pres_base.specs.declared.parts.BaseParts.{BaseParts};
    ghost use Rattle.pres_base.specs.Bases.{IsBase};

    ghost Value = { BaseParts };

    ghost view = { λ b. b.parts };

    ghost invariant = { λ b. IsBase b.parts };
}

impl Base {
    /// The base of the parts, which come back where a check fails. It takes no memory.
    pub fn from_parts(parts: BaseParts) -> Result<Base, BaseParts>
        ensures base { IfOk result (λ base. base ≡ parts) }
        ensures exact { (is_ok result ≡ true) ↔ IsBase parts }
        ensures back { IfErr result (λ back. back ≡ parts) }
    {
        if is_base(&parts) {
            Ok(Base { parts })
        } else {
            Err(parts)
        }
    }

    /// Its parts.
    pub fn parts(&self) -> &BaseParts
        ensures parts { result.now ≡ self.now }
        ensures base { IsBase self.now }
    {
        &self.parts
    }

    /// Its parts, which are moved.
    pub fn into_parts(self) -> BaseParts
        ensures parts { result ≡ self }
        ensures base { IsBase self }
    {
        self.parts
    }

    /// An equal base.
    pub fn copy(&self, alloc: Global) -> Result<Base, AllocError>
        ensures { IfOk result (λ made. made ≡ self.now) }
    {
        Ok(Base {
            parts: copy_parts(alloc, &self.parts)?,
        })
    }
}
