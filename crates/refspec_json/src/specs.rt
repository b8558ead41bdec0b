//! Specs, and refused texts.

ghost use Rattle.std.specs.Prelude.{◌≡◌, ◌++◌, option_map, codes, IfOk, OnOk};
ghost use Rattle.serde_json.specs.View.{view};
ghost use Rattle.refspec_json.specs.Objects.{line_of, refused_object, spec_object, noted_object};

use crate::line::{number_or_null, set_text, set_text_if, text_or_null, write_value};
use serde_json::{Map, Value, json};
use std::alloc::{AllocError, Global};

/// A text that is refused.
#[derive(Drop)]
pub struct Refused<'a> {
    pub location: &'a str,
    pub operation: &'a str,
    pub text: &'a str,
    /// The name of the reason.
    pub reason: &'a str,
    pub message: &'a str,
    /// The side, the part of it that is wrong, and the index of this part in the text, in bytes from 1.
    pub side: Option<&'a str>,
    pub part: Option<&'a str>,
    pub at: Option<usize>,
    pub advice: &'a str,
}

impl Refused<'_> {
    /// Appends its object and a newline.
    pub fn write_line(&self, alloc: Global, out: &mut Vec<u8>) -> Result<(), AllocError>
        ensures { OnOk result (out.new.items ≡ out.old.items ++ line_of (refused_object
            self.now.location.now self.now.operation.now self.now.text.now self.now.reason.now
            self.now.message.now (option_map (λ t. t.now) self.now.side)
            (option_map (λ t. t.now) self.now.part) self.now.at self.now.advice.now)) }
    {
        write_value(alloc, out, &self.object(alloc)?)
    }

    fn object(&self, alloc: Global) -> Result<Value, AllocError>
        ensures { IfOk result (λ v. view v ≡ refused_object
            self.now.location.now self.now.operation.now self.now.text.now self.now.reason.now
            self.now.message.now (option_map (λ t. t.now) self.now.side)
            (option_map (λ t. t.now) self.now.part) self.now.at self.now.advice.now) }
    {
        let side = text_or_null(alloc, self.side)?;
        let part = text_or_null(alloc, self.part)?;
        let at = number_or_null(self.at);
        json!(in alloc; {
            "advice": self.advice,
            "at": at,
            "kind": "refused",
            "message": self.message,
            "operation": self.operation,
            "part": part,
            "place": self.location,
            "reason": self.reason,
            "side": side,
            "text": self.text,
        })
    }
}

/// What the object of a spec says about it.
#[derive(Clone, Copy)]
pub enum SpecKind {
    /// Its canonical text.
    Canonical,
    /// Its meaning too.
    Meaning,
    /// That it is good, and its canonical text.
    Good,
}

impl SpecKind {
    ghost use Rattle.refspec_json.specs.Views.{kind_name};

    // The member `kind`.
    fn name(self) -> &'static str
        ensures { result.now ≡ kind_name self }
    {
        match self {
            SpecKind::Canonical => "canonical",
            SpecKind::Meaning => "meaning",
            SpecKind::Good => "good",
        }
    }
}

/// A spec, and its canonical text and meaning.
#[derive(Drop)]
pub struct Spec<'a> {
    pub kind: SpecKind,
    pub location: &'a str,
    pub operation: &'a str,
    pub text: &'a str,
    pub canonical: &'a str,
    pub meaning: Option<&'a str>,
    /// The location of an earlier duplicate.
    pub same_as: Option<&'a str>,
}

impl Spec<'_> {
    ghost use Rattle.refspec_json.specs.Views.{kind_name};

    /// Appends its object and a newline.
    pub fn write_line(&self, alloc: Global, out: &mut Vec<u8>) -> Result<(), AllocError>
        ensures { OnOk result (out.new.items ≡ out.old.items ++ line_of (spec_object
            (kind_name self.now.kind) self.now.location.now self.now.operation.now
            self.now.text.now self.now.canonical.now
            (option_map (λ t. t.now) self.now.meaning)
            (option_map (λ t. t.now) self.now.same_as))) }
    {
        write_value(alloc, out, &self.object(alloc)?)
    }

    fn object(&self, alloc: Global) -> Result<Value, AllocError>
        ensures { IfOk result (λ v. view v ≡ spec_object
            (kind_name self.now.kind) self.now.location.now self.now.operation.now
            self.now.text.now self.now.canonical.now
            (option_map (λ t. t.now) self.now.meaning)
            (option_map (λ t. t.now) self.now.same_as)) }
    {
        let mut members = Map::new(alloc);
        set_text(alloc, &mut members, "canonical", self.canonical)?;
        set_text(alloc, &mut members, "kind", self.kind.name())?;
        set_text(alloc, &mut members, "operation", self.operation)?;
        set_text(alloc, &mut members, "place", self.location)?;
        set_text(alloc, &mut members, "text", self.text)?;
        set_text_if(alloc, &mut members, "meaning", self.meaning)?;
        set_text_if(alloc, &mut members, "same_as", self.same_as)?;
        Ok(Value::Object(members))
    }
}

/// A spec for which all refs must be requested.
#[derive(Drop)]
pub struct All<'a> {
    pub spec: &'a str,
    pub message: &'a str,
}

impl All<'_> {
    /// Appends its object and a newline.
    pub fn write_line(&self, alloc: Global, out: &mut Vec<u8>) -> Result<(), AllocError>
        ensures { OnOk result (out.new.items ≡ out.old.items ++ line_of (noted_object
            (codes "all") self.now.spec.now self.now.message.now)) }
    {
        write_value(alloc, out, &noted(alloc, "all", self.spec, self.message)?)
    }
}

/// A spec whose destination is an object id.
#[derive(Drop)]
pub struct ToObject<'a> {
    pub spec: &'a str,
    pub message: &'a str,
}

impl ToObject<'_> {
    /// Appends its object and a newline.
    pub fn write_line(&self, alloc: Global, out: &mut Vec<u8>) -> Result<(), AllocError>
        ensures { OnOk result (out.new.items ≡ out.old.items ++ line_of (noted_object
            (codes "to_object") self.now.spec.now self.now.message.now)) }
    {
        write_value(
            alloc,
            out,
            &noted(alloc, "to_object", self.spec, self.message)?,
        )
    }
}

// The object of a spec and a message.
fn noted(alloc: Global, kind: &str, spec: &str, message: &str) -> Result<Value, AllocError>
    ensures { IfOk result (λ v. view v ≡ noted_object kind.now spec.now message.now) }
{
    json!(in alloc; {"kind": kind, "message": message, "spec": spec})
}
