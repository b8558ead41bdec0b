//! Mappings and conflicts.

ghost use Rattle.std.specs.Prelude.{◌≡◌, ◌++◌, map, option_map, IfOk, OnOk};
ghost use Rattle.serde_json.specs.Data.{array};
ghost use Rattle.serde_json.specs.View.{view, items_of};
ghost use Rattle.refspec_json.specs.Objects.{line_of, mapping_object, left_out_object, overruled_object, directory_conflict_object, claim_object, conflict_object};

use crate::line::{set_text, set_text_if, text_or_null, write_value};
use serde_json::{Map, Value, json, put};
use std::alloc::{AllocError, Global};

/// A mapping, with the canonical text of its spec.
#[derive(Drop)]
pub struct Mapping<'a> {
    pub source: &'a str,
    pub destination: Option<&'a str>,
    pub spec: &'a str,
    /// Where the spec of a plan comes from.
    pub origin: Option<&'a str>,
}

impl Mapping<'_> {
    /// Appends its object and a newline.
    pub fn write_line(&self, alloc: Global, out: &mut Vec<u8>) -> Result<(), AllocError>
        ensures { OnOk result (out.new.items ≡ out.old.items ++ line_of (mapping_object
            self.now.source.now (option_map (λ t. t.now) self.now.destination)
            self.now.spec.now (option_map (λ t. t.now) self.now.origin))) }
    {
        write_value(alloc, out, &self.object(alloc)?)
    }

    fn object(&self, alloc: Global) -> Result<Value, AllocError>
        ensures { IfOk result (λ v. view v ≡ mapping_object
            self.now.source.now (option_map (λ t. t.now) self.now.destination)
            self.now.spec.now (option_map (λ t. t.now) self.now.origin)) }
    {
        let destination = text_or_null(alloc, self.destination)?;
        let mut members = Map::new(alloc);
        put(&mut members, alloc, "destination", destination)?;
        set_text(alloc, &mut members, "kind", "mapping")?;
        set_text(alloc, &mut members, "source", self.source)?;
        set_text(alloc, &mut members, "spec", self.spec)?;
        set_text_if(alloc, &mut members, "origin", self.origin)?;
        Ok(Value::Object(members))
    }
}

/// An update that a fetch doesn't write, since a spec of the call writes to its destination.
#[derive(Drop)]
pub struct Overruled<'a> {
    pub source: &'a str,
    pub destination: Option<&'a str>,
    pub spec: &'a str,
    pub origin: &'a str,
    pub message: &'a str,
}

impl Overruled<'_> {
    /// Appends its object and a newline.
    pub fn write_line(&self, alloc: Global, out: &mut Vec<u8>) -> Result<(), AllocError>
        ensures { OnOk result (out.new.items ≡ out.old.items ++ line_of (overruled_object
            self.now.source.now (option_map (λ t. t.now) self.now.destination)
            self.now.spec.now self.now.origin.now self.now.message.now)) }
    {
        write_value(alloc, out, &self.object(alloc)?)
    }

    fn object(&self, alloc: Global) -> Result<Value, AllocError>
        ensures { IfOk result (λ v. view v ≡ overruled_object
            self.now.source.now (option_map (λ t. t.now) self.now.destination)
            self.now.spec.now self.now.origin.now self.now.message.now) }
    {
        let destination = text_or_null(alloc, self.destination)?;
        json!(in alloc; {
            "destination": destination,
            "kind": "overruled",
            "message": self.message,
            "origin": self.origin,
            "source": self.source,
            "spec": self.spec,
        })
    }
}

/// An update whose destination is a directory of another one's, or is in that.
#[derive(Drop)]
pub struct DirectoryConflict<'a> {
    pub source: &'a str,
    pub destination: Option<&'a str>,
    pub spec: &'a str,
    pub origin: &'a str,
    /// The destination of the other update.
    pub other: &'a str,
    pub message: &'a str,
}

impl DirectoryConflict<'_> {
    /// Appends its object and a newline.
    pub fn write_line(&self, alloc: Global, out: &mut Vec<u8>) -> Result<(), AllocError>
        ensures { OnOk result (out.new.items ≡ out.old.items ++ line_of (directory_conflict_object
            self.now.source.now (option_map (λ t. t.now) self.now.destination)
            self.now.spec.now self.now.origin.now self.now.other.now self.now.message.now)) }
    {
        write_value(alloc, out, &self.object(alloc)?)
    }

    fn object(&self, alloc: Global) -> Result<Value, AllocError>
        ensures { IfOk result (λ v. view v ≡ directory_conflict_object
            self.now.source.now (option_map (λ t. t.now) self.now.destination)
            self.now.spec.now self.now.origin.now self.now.other.now self.now.message.now) }
    {
        let destination = text_or_null(alloc, self.destination)?;
        json!(in alloc; {
            "destination": destination,
            "kind": "directory_conflict",
            "message": self.message,
            "origin": self.origin,
            "other": self.other,
            "source": self.source,
            "spec": self.spec,
        })
    }
}

/// An update that is left out for an invalid ref name.
#[derive(Drop)]
pub struct LeftOut<'a> {
    pub source: &'a str,
    pub destination: Option<&'a str>,
    pub spec: &'a str,
    pub origin: &'a str,
    /// The side whose ref name is invalid: `source`, `destination` or `both`.
    pub side: &'a str,
    pub message: &'a str,
}

impl LeftOut<'_> {
    /// Appends its object and a newline.
    pub fn write_line(&self, alloc: Global, out: &mut Vec<u8>) -> Result<(), AllocError>
        ensures { OnOk result (out.new.items ≡ out.old.items ++ line_of (left_out_object
            self.now.source.now (option_map (λ t. t.now) self.now.destination)
            self.now.spec.now self.now.origin.now self.now.side.now self.now.message.now)) }
    {
        write_value(alloc, out, &self.object(alloc)?)
    }

    fn object(&self, alloc: Global) -> Result<Value, AllocError>
        ensures { IfOk result (λ v. view v ≡ left_out_object
            self.now.source.now (option_map (λ t. t.now) self.now.destination)
            self.now.spec.now self.now.origin.now self.now.side.now self.now.message.now) }
    {
        let destination = text_or_null(alloc, self.destination)?;
        json!(in alloc; {
            "destination": destination,
            "kind": "left_out",
            "message": self.message,
            "origin": self.origin,
            "side": self.side,
            "source": self.source,
            "spec": self.spec,
        })
    }
}

/// A destination that several sources are mapped to.
#[derive(Drop)]
pub struct Conflict<'a> {
    pub destination: &'a str,
    pub sources: &'a [Claim],
}

impl Conflict<'_> {
    ghost use Rattle.refspec_json.specs.Views.{claim_texts};

    /// Appends its object and a newline.
    pub fn write_line(&self, alloc: Global, out: &mut Vec<u8>) -> Result<(), AllocError>
        ensures { OnOk result (out.new.items ≡ out.old.items ++ line_of (conflict_object
            self.now.destination.now (map claim_texts self.now.sources.now))) }
    {
        write_value(alloc, out, &self.object(alloc)?)
    }

    fn object(&self, alloc: Global) -> Result<Value, AllocError>
        ensures { IfOk result (λ v. view v ≡ conflict_object
            self.now.destination.now (map claim_texts self.now.sources.now)) }
    {
        let sources = Claim::array_of(self.sources, alloc)?;
        json!(in alloc; {
            "destination": self.destination,
            "kind": "conflict",
            "sources": sources,
        })
    }
}

/// A source of a conflict, with the canonical text of its spec and where that comes from.
#[derive(Drop)]
pub struct Claim {
    pub source: String,
    pub spec: String,
    pub origin: String,
}

impl Claim {
    ghost use Rattle.refspec_json.specs.Views.{claim_texts};

    fn object(&self, alloc: Global) -> Result<Value, AllocError>
        ensures { IfOk result (λ v. view v ≡ claim_object (claim_texts self.now)) }
    {
        json!(in alloc; {"origin": &self.origin, "source": &self.source, "spec": &self.spec})
    }

    // The objects of several claims, as an array.
    fn array_of(claims: &[Claim], alloc: Global) -> Result<Value, AllocError>
        ensures { IfOk result (λ v. view v
            ≡ array (items_of (map claim_object (map claim_texts claims.now)))) }
    {
        let mut objects = Vec::with_capacity(alloc, claims.len())?;
        for claim in claims {
            objects.push(claim.object(alloc)?)?;
        }
        Ok(Value::Array(objects))
    }
}
