//! Warnings on specs.

ghost use Rattle.std.specs.Prelude.{◌≡◌, ◌++◌, map, IfOk, OnOk};
ghost use Rattle.serde_json.specs.Data.{array};
ghost use Rattle.serde_json.specs.View.{items_of, view};
ghost use Rattle.refspec_json.specs.Objects.{line_of, warned_object, warning_object};

use crate::line::write_value;
use serde_json::{Value, json};
use std::alloc::{AllocError, Global};

/// What valid specs do, but hardly anybody wants.
#[derive(Drop)]
pub struct Warning<'a> {
    pub name: &'a str,
    pub location: &'a str,
    pub specs: &'a [WarnedSpec],
    pub message: &'a str,
    pub advice: &'a str,
}

impl Warning<'_> {
    ghost use Rattle.refspec_json.specs.Views.{warned_texts};

    /// Appends its object and a newline.
    pub fn write_line(&self, alloc: Global, out: &mut Vec<u8>) -> Result<(), AllocError>
        ensures { OnOk result (out.new.items ≡ out.old.items ++ line_of (warning_object
            self.now.name.now self.now.location.now (map warned_texts self.now.specs.now)
            self.now.message.now self.now.advice.now)) }
    {
        write_value(alloc, out, &self.object(alloc)?)
    }

    fn object(&self, alloc: Global) -> Result<Value, AllocError>
        ensures { IfOk result (λ v. view v ≡ warning_object
            self.now.name.now self.now.location.now (map warned_texts self.now.specs.now)
            self.now.message.now self.now.advice.now) }
    {
        let specs = WarnedSpec::array_of(self.specs, alloc)?;
        json!(in alloc; {
            "advice": self.advice,
            "kind": "warning",
            "message": self.message,
            "name": self.name,
            "place": self.location,
            "specs": specs,
        })
    }
}

/// A spec that a warning is about, and its location.
#[derive(Drop)]
pub struct WarnedSpec {
    pub location: String,
    pub text: String,
}

impl WarnedSpec {
    ghost use Rattle.refspec_json.specs.Views.{warned_texts};

    fn object(&self, alloc: Global) -> Result<Value, AllocError>
        ensures { IfOk result (λ v. view v ≡ warned_object (warned_texts self.now)) }
    {
        json!(in alloc; {"place": &self.location, "text": &self.text})
    }

    // The objects of several specs, as an array.
    fn array_of(specs: &[WarnedSpec], alloc: Global) -> Result<Value, AllocError>
        ensures { IfOk result (λ v. view v
            ≡ array (items_of (map warned_object (map warned_texts specs.now)))) }
    {
        let mut objects = Vec::with_capacity(alloc, specs.len())?;
        for spec in specs {
            objects.push(spec.object(alloc)?)?;
        }
        Ok(Value::Array(objects))
    }
}
