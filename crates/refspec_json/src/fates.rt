//! What specs do with one ref.

ghost use Rattle.std.specs.Prelude.{◌≡◌, ◌++◌, option_map, IfOk, OnOk};
ghost use Rattle.serde_json.specs.View.{view};
ghost use Rattle.refspec_json.specs.Objects.{fate_object, line_of, not_fetched_object};

use crate::line::{text_or_null, write_value};
use serde_json::{Value, json};
use std::alloc::{AllocError, Global};

/// What one spec does with a ref.
#[derive(Drop)]
pub struct Fate<'a> {
    /// The canonical text of the spec.
    pub spec: &'a str,
    /// The name of the ref.
    pub name: &'a str,
    /// The ref that the spec maps it to, if there is one.
    pub destination: Option<&'a str>,
    /// What becomes of the ref, in a word.
    pub fate: &'a str,
    pub message: &'a str,
}

impl Fate<'_> {
    /// Appends its object and a newline.
    pub fn write_line(&self, alloc: Global, out: &mut Vec<u8>) -> Result<(), AllocError>
        ensures { OnOk result (out.new.items ≡ out.old.items ++ line_of (fate_object
            self.now.spec.now self.now.name.now (option_map (λ t. t.now) self.now.destination)
            self.now.fate.now self.now.message.now)) }
    {
        write_value(alloc, out, &self.object(alloc)?)
    }

    fn object(&self, alloc: Global) -> Result<Value, AllocError>
        ensures { IfOk result (λ v. view v ≡ fate_object
            self.now.spec.now self.now.name.now (option_map (λ t. t.now) self.now.destination)
            self.now.fate.now self.now.message.now) }
    {
        let destination = text_or_null(alloc, self.destination)?;
        json!(in alloc; {
            "destination": destination,
            "fate": self.fate,
            "kind": "fate",
            "message": self.message,
            "name": self.name,
            "spec": self.spec,
        })
    }
}

/// A ref that isn't fetched, why, and what to do.
#[derive(Drop)]
pub struct NotFetched<'a> {
    pub name: &'a str,
    pub message: &'a str,
    pub advice: &'a str,
}

impl NotFetched<'_> {
    /// Appends its object and a newline.
    pub fn write_line(&self, alloc: Global, out: &mut Vec<u8>) -> Result<(), AllocError>
        ensures { OnOk result (out.new.items ≡ out.old.items ++ line_of (not_fetched_object
            self.now.name.now self.now.message.now self.now.advice.now)) }
    {
        write_value(alloc, out, &self.object(alloc)?)
    }

    fn object(&self, alloc: Global) -> Result<Value, AllocError>
        ensures { IfOk result (λ v. view v ≡ not_fetched_object
            self.now.name.now self.now.message.now self.now.advice.now) }
    {
        json!(in alloc; {
            "advice": self.advice,
            "kind": "not_fetched",
            "message": self.message,
            "name": self.name,
        })
    }
}
