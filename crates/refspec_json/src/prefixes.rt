//! Ref prefixes to request from a server.

ghost use Rattle.std.specs.Prelude.{◌≡◌, ◌++◌, IfOk, OnOk};
ghost use Rattle.serde_json.specs.View.{view};
ghost use Rattle.refspec_json.specs.Objects.{all_object, line_of, nothing_object, prefix_object};

use crate::line::write_value;
use serde_json::{Value, json};
use std::alloc::{AllocError, Global};

/// A ref prefix, as an argument of protocol v2 and as a pattern of `git ls-remote`.
#[derive(Drop)]
pub struct Prefix<'a> {
    pub prefix: &'a str,
    pub pattern: &'a str,
}

impl Prefix<'_> {
    /// Appends its object and a newline.
    pub fn write_line(&self, alloc: Global, out: &mut Vec<u8>) -> Result<(), AllocError>
        ensures { OnOk result (out.new.items ≡ out.old.items ++ line_of (prefix_object
            self.now.prefix.now self.now.pattern.now)) }
    {
        write_value(alloc, out, &self.object(alloc)?)
    }

    fn object(&self, alloc: Global) -> Result<Value, AllocError>
        ensures { IfOk result (λ v. view v ≡ prefix_object
            self.now.prefix.now self.now.pattern.now) }
    {
        json!(in alloc; {
            "kind": "prefix",
            "pattern": self.pattern,
            "prefix": self.prefix,
        })
    }
}

/// No request to the server is needed.
#[derive(Drop)]
pub struct Nothing<'a> {
    pub message: &'a str,
}

impl Nothing<'_> {
    /// Appends its object and a newline.
    pub fn write_line(&self, alloc: Global, out: &mut Vec<u8>) -> Result<(), AllocError>
        ensures { OnOk result (out.new.items ≡ out.old.items ++ line_of (nothing_object
            self.now.message.now)) }
    {
        write_value(alloc, out, &self.object(alloc)?)
    }

    fn object(&self, alloc: Global) -> Result<Value, AllocError>
        ensures { IfOk result (λ v. view v ≡ nothing_object self.now.message.now) }
    {
        json!(in alloc; {
            "kind": "nothing",
            "message": self.message,
        })
    }
}

/// All refs must be requested, for all specs together.
#[derive(Drop)]
pub struct AllTogether<'a> {
    pub message: &'a str,
}

impl AllTogether<'_> {
    /// Appends its object and a newline.
    pub fn write_line(&self, alloc: Global, out: &mut Vec<u8>) -> Result<(), AllocError>
        ensures { OnOk result (out.new.items ≡ out.old.items ++ line_of (all_object
            self.now.message.now)) }
    {
        write_value(alloc, out, &self.object(alloc)?)
    }

    fn object(&self, alloc: Global) -> Result<Value, AllocError>
        ensures { IfOk result (λ v. view v ≡ all_object self.now.message.now) }
    {
        json!(in alloc; {
            "kind": "all",
            "message": self.message,
        })
    }
}
