//! Bad records of the input, refs that no spec writes, refs that the remote lacks, and stale refs.

ghost use Rattle.std.specs.Prelude.{◌≡◌, ◌++◌, map, string_bytes, IfOk, OnOk};
ghost use Rattle.serde_json.specs.Data.{array, string};
ghost use Rattle.serde_json.specs.View.{items_of, view};
ghost use Rattle.refspec_json.specs.Objects.{kept_object, line_of, malformed_object, missing_object, stale_object, untracked_object};

use crate::line::{set_number_if, set_text, write_value};
use serde_json::{Map, Value, json, put};
use std::alloc::{AllocError, Global};

/// A record of the input that is not a ref.
#[derive(Drop)]
pub struct Malformed<'a> {
    pub location: &'a str,
    pub text: &'a str,
    pub message: &'a str,
    pub advice: &'a str,
}

impl Malformed<'_> {
    /// Appends its object and a newline.
    pub fn write_line(&self, alloc: Global, out: &mut Vec<u8>) -> Result<(), AllocError>
        ensures { OnOk result (out.new.items ≡ out.old.items ++ line_of (malformed_object
            self.now.location.now self.now.text.now self.now.message.now self.now.advice.now)) }
    {
        write_value(alloc, out, &self.object(alloc)?)
    }

    fn object(&self, alloc: Global) -> Result<Value, AllocError>
        ensures { IfOk result (λ v. view v ≡ malformed_object
            self.now.location.now self.now.text.now self.now.message.now self.now.advice.now) }
    {
        json!(in alloc; {
            "advice": self.advice,
            "kind": "malformed",
            "message": self.message,
            "place": self.location,
            "text": self.text,
        })
    }
}

/// A ref that no spec writes.
#[derive(Drop)]
pub struct Untracked<'a> {
    pub name: &'a str,
    pub message: &'a str,
}

impl Untracked<'_> {
    /// Appends its object and a newline.
    pub fn write_line(&self, alloc: Global, out: &mut Vec<u8>) -> Result<(), AllocError>
        ensures { OnOk result (out.new.items ≡ out.old.items ++ line_of (untracked_object
            self.now.name.now self.now.message.now)) }
    {
        write_value(alloc, out, &self.object(alloc)?)
    }

    fn object(&self, alloc: Global) -> Result<Value, AllocError>
        ensures { IfOk result (λ v. view v ≡ untracked_object
            self.now.name.now self.now.message.now) }
    {
        json!(in alloc; {
            "kind": "untracked",
            "message": self.message,
            "name": self.name,
        })
    }
}

/// A spec whose source the remote lacks.
#[derive(Drop)]
pub struct Missing<'a> {
    pub spec: &'a str,
    pub origin: &'a str,
    pub message: &'a str,
    /// Names of the remote that end the same.
    pub names: &'a [String],
    /// How many more names there are, unless all are given.
    pub more: Option<usize>,
}

impl Missing<'_> {
    /// Appends its object and a newline.
    pub fn write_line(&self, alloc: Global, out: &mut Vec<u8>) -> Result<(), AllocError>
        ensures { OnOk result (out.new.items ≡ out.old.items ++ line_of (missing_object
            self.now.spec.now self.now.origin.now self.now.message.now
            (map string_bytes self.now.names.now) self.now.more)) }
    {
        write_value(alloc, out, &self.object(alloc)?)
    }

    fn object(&self, alloc: Global) -> Result<Value, AllocError>
        ensures { IfOk result (λ v. view v ≡ missing_object
            self.now.spec.now self.now.origin.now self.now.message.now
            (map string_bytes self.now.names.now) self.now.more) }
    {
        let names = texts_of(alloc, self.names)?;
        let mut members = Map::new(alloc);
        set_text(alloc, &mut members, "kind", "missing")?;
        set_text(alloc, &mut members, "message", self.message)?;
        put(&mut members, alloc, "names", names)?;
        set_text(alloc, &mut members, "origin", self.origin)?;
        set_text(alloc, &mut members, "spec", self.spec)?;
        set_number_if(alloc, &mut members, "more", self.more)?;
        Ok(Value::Object(members))
    }
}

// Texts, as an array of strings.
fn texts_of(alloc: Global, texts: &[String]) -> Result<Value, AllocError>
    ensures { IfOk result (λ v. view v ≡ array (items_of (map string (map string_bytes texts.now)))) }
{
    let mut values = Vec::with_capacity(alloc, texts.len())?;
    for text in texts {
        values.push(Value::try_from_str(alloc, text.as_str())?)?;
    }
    Ok(Value::Array(values))
}

/// A local ref that a pruning fetch deletes.
#[derive(Drop)]
pub struct Stale<'a> {
    pub name: &'a str,
}

impl Stale<'_> {
    /// Appends its object and a newline.
    pub fn write_line(&self, alloc: Global, out: &mut Vec<u8>) -> Result<(), AllocError>
        ensures { OnOk result (out.new.items ≡ out.old.items ++ line_of (stale_object self.now.name.now)) }
    {
        write_value(alloc, out, &self.object(alloc)?)
    }

    fn object(&self, alloc: Global) -> Result<Value, AllocError>
        ensures { IfOk result (λ v. view v ≡ stale_object self.now.name.now) }
    {
        json!(in alloc; {"kind": "stale", "name": self.name})
    }
}

/// A local ref that looks stale, and that a pruning fetch keeps, with the text of the negative spec that keeps it.
#[derive(Drop)]
pub struct Kept<'a> {
    pub name: &'a str,
    pub spec: &'a str,
    pub message: &'a str,
}

impl Kept<'_> {
    /// Appends its object and a newline.
    pub fn write_line(&self, alloc: Global, out: &mut Vec<u8>) -> Result<(), AllocError>
        ensures { OnOk result (out.new.items ≡ out.old.items ++ line_of (kept_object
            self.now.name.now self.now.spec.now self.now.message.now)) }
    {
        write_value(alloc, out, &self.object(alloc)?)
    }

    fn object(&self, alloc: Global) -> Result<Value, AllocError>
        ensures { IfOk result (λ v. view v ≡ kept_object
            self.now.name.now self.now.spec.now self.now.message.now) }
    {
        json!(in alloc; {
            "kind": "kept",
            "message": self.message,
            "name": self.name,
            "spec": self.spec,
        })
    }
}
