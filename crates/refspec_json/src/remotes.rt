//! What Git makes of the fetch values of a remote: upstreams of branches, prefetches, and values after a renaming.

ghost use Rattle.std.specs.Prelude.{◌≡◌, ◌++◌, option_map, IfOk, OnOk};
ghost use Rattle.serde_json.specs.View.{view};
ghost use Rattle.refspec_json.specs.Objects.{ignored_object, line_of, no_upstream_object, prefetch_object, renamed_object, unchanged_object, upstream_object};

use crate::line::{set_text, set_text_if, text_or_null, write_value};
use serde_json::{Map, Value, json, put};
use std::alloc::{AllocError, Global};

/// The upstream of a branch.
#[derive(Drop)]
pub struct Upstream<'a> {
    /// The name of the branch, if there is one.
    pub branch: Option<&'a str>,
    /// The ref that it merges.
    pub merge: &'a str,
    /// The upstream.
    pub name: &'a str,
    /// The canonical text of the spec that stores the one in the other; `None` if that is a local branch.
    pub spec: Option<&'a str>,
}

impl Upstream<'_> {
    /// Appends its object and a newline.
    pub fn write_line(&self, alloc: Global, out: &mut Vec<u8>) -> Result<(), AllocError>
        ensures { OnOk result (out.new.items ≡ out.old.items ++ line_of (upstream_object
            (option_map (λ t. t.now) self.now.branch) self.now.merge.now self.now.name.now
            (option_map (λ t. t.now) self.now.spec))) }
    {
        write_value(alloc, out, &self.object(alloc)?)
    }

    fn object(&self, alloc: Global) -> Result<Value, AllocError>
        ensures { IfOk result (λ v. view v ≡ upstream_object
            (option_map (λ t. t.now) self.now.branch) self.now.merge.now self.now.name.now
            (option_map (λ t. t.now) self.now.spec)) }
    {
        let spec = text_or_null(alloc, self.spec)?;
        let mut members = Map::new(alloc);
        set_text(alloc, &mut members, "kind", "upstream")?;
        set_text(alloc, &mut members, "merge", self.merge)?;
        set_text(alloc, &mut members, "name", self.name)?;
        put(&mut members, alloc, "spec", spec)?;
        set_text_if(alloc, &mut members, "branch", self.branch)?;
        Ok(Value::Object(members))
    }
}

/// A merged ref without an upstream, and why.
#[derive(Drop)]
pub struct NoUpstream<'a> {
    /// The name of the branch, if there is one.
    pub branch: Option<&'a str>,
    /// The ref that it merges.
    pub merge: &'a str,
    /// The canonical text of the spec that is the reason, if one is.
    pub spec: Option<&'a str>,
    pub message: &'a str,
    pub advice: &'a str,
}

impl NoUpstream<'_> {
    /// Appends its object and a newline.
    pub fn write_line(&self, alloc: Global, out: &mut Vec<u8>) -> Result<(), AllocError>
        ensures { OnOk result (out.new.items ≡ out.old.items ++ line_of (no_upstream_object
            (option_map (λ t. t.now) self.now.branch) self.now.merge.now
            (option_map (λ t. t.now) self.now.spec) self.now.message.now self.now.advice.now)) }
    {
        write_value(alloc, out, &self.object(alloc)?)
    }

    fn object(&self, alloc: Global) -> Result<Value, AllocError>
        ensures { IfOk result (λ v. view v ≡ no_upstream_object
            (option_map (λ t. t.now) self.now.branch) self.now.merge.now
            (option_map (λ t. t.now) self.now.spec) self.now.message.now self.now.advice.now) }
    {
        let spec = text_or_null(alloc, self.spec)?;
        let mut members = Map::new(alloc);
        set_text(alloc, &mut members, "advice", self.advice)?;
        set_text(alloc, &mut members, "kind", "no_upstream")?;
        set_text(alloc, &mut members, "merge", self.merge)?;
        set_text(alloc, &mut members, "message", self.message)?;
        put(&mut members, alloc, "spec", spec)?;
        set_text_if(alloc, &mut members, "branch", self.branch)?;
        Ok(Value::Object(members))
    }
}

/// A spec, and what a prefetch applies in place of it.
#[derive(Drop)]
pub struct Prefetch<'a> {
    pub spec: &'a str,
    pub prefetch: &'a str,
}

impl Prefetch<'_> {
    /// Appends its object and a newline.
    pub fn write_line(&self, alloc: Global, out: &mut Vec<u8>) -> Result<(), AllocError>
        ensures { OnOk result (out.new.items ≡ out.old.items ++ line_of (prefetch_object
            self.now.spec.now self.now.prefetch.now)) }
    {
        write_value(alloc, out, &self.object(alloc)?)
    }

    fn object(&self, alloc: Global) -> Result<Value, AllocError>
        ensures { IfOk result (λ v. view v ≡ prefetch_object self.now.spec.now self.now.prefetch.now) }
    {
        json!(in alloc; {
            "kind": "prefetch",
            "prefetch": self.prefetch,
            "spec": self.spec,
        })
    }
}

/// A spec that a prefetch ignores, and why.
#[derive(Drop)]
pub struct Ignored<'a> {
    pub spec: &'a str,
    pub message: &'a str,
}

impl Ignored<'_> {
    /// Appends its object and a newline.
    pub fn write_line(&self, alloc: Global, out: &mut Vec<u8>) -> Result<(), AllocError>
        ensures { OnOk result (out.new.items ≡ out.old.items ++ line_of (ignored_object
            self.now.spec.now self.now.message.now)) }
    {
        write_value(alloc, out, &self.object(alloc)?)
    }

    fn object(&self, alloc: Global) -> Result<Value, AllocError>
        ensures { IfOk result (λ v. view v ≡ ignored_object self.now.spec.now self.now.message.now) }
    {
        json!(in alloc; {
            "kind": "ignored",
            "message": self.message,
            "spec": self.spec,
        })
    }
}

/// A value, and what a new name of its remote makes of it.
#[derive(Drop)]
pub struct Renamed<'a> {
    pub text: &'a str,
    pub renamed: &'a str,
}

impl Renamed<'_> {
    /// Appends its object and a newline.
    pub fn write_line(&self, alloc: Global, out: &mut Vec<u8>) -> Result<(), AllocError>
        ensures { OnOk result (out.new.items ≡ out.old.items ++ line_of (renamed_object
            self.now.text.now self.now.renamed.now)) }
    {
        write_value(alloc, out, &self.object(alloc)?)
    }

    fn object(&self, alloc: Global) -> Result<Value, AllocError>
        ensures { IfOk result (λ v. view v ≡ renamed_object self.now.text.now self.now.renamed.now) }
    {
        json!(in alloc; {
            "kind": "renamed",
            "renamed": self.renamed,
            "text": self.text,
        })
    }
}

/// A value that a new name of its remote leaves as it is, and why.
#[derive(Drop)]
pub struct Unchanged<'a> {
    pub text: &'a str,
    pub message: &'a str,
}

impl Unchanged<'_> {
    /// Appends its object and a newline.
    pub fn write_line(&self, alloc: Global, out: &mut Vec<u8>) -> Result<(), AllocError>
        ensures { OnOk result (out.new.items ≡ out.old.items ++ line_of (unchanged_object
            self.now.text.now self.now.message.now)) }
    {
        write_value(alloc, out, &self.object(alloc)?)
    }

    fn object(&self, alloc: Global) -> Result<Value, AllocError>
        ensures { IfOk result (λ v. view v ≡ unchanged_object self.now.text.now self.now.message.now) }
    {
        json!(in alloc; {
            "kind": "unchanged",
            "message": self.message,
            "text": self.text,
        })
    }
}
